// Making a board of a given size.
ghost use Rattle.std.specs.Prelude.{◌≡◌, ℕ, ◌≤◌, ◌&&◌, nat_lt};
ghost use Rattle.bits.specs.Bits.{bit};
ghost use Rattle.domineering.specs.Domineering.{goes_on};
ghost use Rattle.domineering.specs.Making.{Made};

use super::{Board, MOST_CELLS};
use rulesets::fault::BoardFault;

impl Board {
    // A board of 1 to 30 cells in rows of the same length.
    pub fn new(rows: usize, columns: usize) -> Result<Board, BoardFault>
        ensures { Made rows columns result }
    {
        match rows.checked_mul(columns) {
            Some(cells @ 1..=MOST_CELLS) => {
                let full = (1 << cells) - 1;
                let inner = inner_cells(cells, columns);
                Ok(Board {
                    rows,
                    columns,
                    full,
                    inner,
                })
            }
            _ => Err(BoardFault::Size),
        }
    }
}

// The cells that have a neighbour to the right in their row.
fn inner_cells(cells: usize, columns: usize) -> u64
    requires { (cells ≤ 30) × (1 ≤ columns) }
    ensures { (i : ℕ) → bit result i ≡ (nat_lt i cells && goes_on columns i) }
{
    let mut inner = 0;
    for cell in 0..cells {
        if cell % columns + 1 < columns {
            inner |= 1 << cell;
        }
    }
    inner
}
