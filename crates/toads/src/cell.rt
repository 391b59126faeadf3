// What a cell of a strip holds.
ghost use Rattle.std.specs.Prelude.{◌≡◌};
ghost use Rattle.toads.specs.Cells.{DigitRead, char_read, digit_of};
ghost use Rattle.toads.specs.Toads.{piece};

use games::side::Side;

#[derive(Clone, Copy, Debug, PartialEq, Eq)]
pub enum Cell {
    Empty,
    Toad,
    Frog,
}

// A character or a digit that stands for no cell.
#[derive(Clone, Copy, Debug, PartialEq, Eq)]
pub struct NoCell;

impl Cell {
    // The piece that the side moves.
    pub(crate) fn piece(side: Side) -> Cell
        ensures { result ≡ piece side }
    {
        match side {
            Side::Left => Cell::Toad,
            Side::Right => Cell::Frog,
        }
    }
}

// The cell that a board's character stands for.
impl TryFrom<char> for Cell {
    type Error = NoCell;

    ghost try_from_gives = { λ character read. read ≡ char_read character };

    fn try_from(character: char) -> Result<Cell, NoCell> {
        match character {
            'T' => Ok(Cell::Toad),
            'F' => Ok(Cell::Frog),
            '.' => Ok(Cell::Empty),
            _ => Err(NoCell),
        }
    }
}

// The cell that a code holds by this base-4 digit.
impl TryFrom<u64> for Cell {
    type Error = NoCell;

    ghost try_from_gives = { DigitRead };

    fn try_from(digit: u64) -> Result<Cell, NoCell> {
        match digit {
            0 => Ok(Cell::Empty),
            1 => Ok(Cell::Toad),
            2 => Ok(Cell::Frog),
            _ => Err(NoCell),
        }
    }
}

// The base-4 digit by which a code holds the cell.
impl From<Cell> for u64 {
    ghost from_gives = { λ cell digit. digit ≡ digit_of cell };

    fn from(cell: Cell) -> u64 {
        match cell {
            Cell::Empty => 0,
            Cell::Toad => 1,
            Cell::Frog => 2,
        }
    }
}
