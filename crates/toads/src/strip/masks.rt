// The cells of a lineup in parallel: bit 2i of a word stands for cell i.
ghost use Rattle.std.specs.Prelude.{◌≡◌, ◌^◌, ◌<◌, true, nat_lt};
ghost use Rattle.toads.specs.Marks.{Marks};
ghost use Rattle.toads.specs.Toads.{after, can_move, holds, target};

use super::lineup::Lineup;
use crate::cell::Cell;
use bits::has_bit;
use games::side::Side;

// Every even bit: the low bit of each base-4 digit.
pub(super) const EVEN: u64 = 0x5555_5555_5555_5555;

impl Lineup {
    // All cells of the strip.
    fn all(&self) -> u64
        ensures marks { Marks result (λ i. nat_lt i self.now.cells) }
        ensures small { result < 2 ^ 24 }
    {
        EVEN & ((1 << (2 * self.cells)) - 1)
    }

    // The cells that hold this. No digit is 3, so a toad is a low bit and a frog a high one.
    fn holding(&self, cell: Cell) -> u64
        ensures marks { Marks result (holds self.now.cells self.now.code cell) }
        ensures small { result < 2 ^ 24 }
    {
        let all = self.all();
        let low = self.code;
        let high = self.code >> 1;
        match cell {
            Cell::Toad => low & all,
            Cell::Frog => high & all,
            Cell::Empty => ((low | high) & all) ^ all,
        }
    }

    // The cells whose piece the side can move, by a step or by a leap.
    pub(super) fn movers(&self, side: Side) -> u64
        ensures { Marks result (can_move self.now.cells self.now.code side) }
    {
        let toads = self.holding(Cell::Toad);
        let frogs = self.holding(Cell::Frog);
        let empty = self.holding(Cell::Empty);
        match side {
            Side::Left => toads & ((empty >> 2) | ((frogs >> 2) & (empty >> 4))),
            Side::Right => frogs & ((empty << 2) | ((toads << 2) & (empty << 4))),
        }
    }

    // The cell into which the side's piece in this cell moves:
    // the one ahead where that is empty, else the one beyond.
    fn target(&self, side: Side, cell: u32) -> u32
        requires { can_move self.now.cells self.now.code side cell ≡ true }
        ensures { result ≡ target self.now.cells self.now.code side cell }
    {
        let empty = self.holding(Cell::Empty);
        match side {
            Side::Left if has_bit(empty, 2 * cell + 2) => cell + 1,
            Side::Left => cell + 2,
            Side::Right if has_bit(empty, 2 * cell - 2) => cell - 1,
            Side::Right => cell - 2,
        }
    }

    // The code after the side has moved its piece in this cell.
    pub(super) fn moved(&self, side: Side, cell: u32) -> u64
        requires { can_move self.now.cells self.now.code side cell ≡ true }
        ensures { result ≡ after self.now.cells self.now.code side cell }
    {
        let to = self.target(side, cell);
        let digit = u64::from(Cell::piece(side));
        self.code - (digit << (2 * cell)) + (digit << (2 * to))
    }
}
