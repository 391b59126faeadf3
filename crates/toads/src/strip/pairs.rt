// The rank of a lineup: how many pairs of cells count.
ghost use Rattle.std.specs.Prelude.{◌≡◌, ◌<◌};
ghost use Rattle.bits.specs.Digits.{digit};
ghost use Rattle.toads.specs.Cells.{digit_of};
ghost use Rattle.toads.specs.Toads.{cells, pairs};

use super::lineup::Lineup;
use crate::cell::Cell;

impl Lineup {
    // What the cell holds.
    fn at(&self, cell: u32) -> Cell
        requires { cell < self.now.cells }
        ensures { digit_of result ≡ digit self.now.code cell }
    {
        Cell::try_from((self.code >> (2 * cell)) & 3).unwrap()
    }

    // One pass from the left: a toad counts with no cell before it, an empty cell with the toads,
    // a frog with toads and empty cells.
    pub(super) fn pairs(&self) -> usize
        ensures { result ≡ pairs (cells self.now.cells self.now.code) }
    {
        let mut toads = 0;
        let mut empty = 0;
        let mut pairs = 0;
        for cell in 0..self.cells {
            match self.at(cell) {
                Cell::Empty => {
                    pairs += toads;
                    empty += 1;
                }
                Cell::Toad => toads += 1,
                Cell::Frog => pairs += toads + empty,
            }
        }
        pairs
    }
}
