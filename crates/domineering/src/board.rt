// A board's size, with the masks that its questions are answered by.
ghost use Rattle.std.specs.Prelude.{◌≡◌, ℕ, ◌-◌, ◌*◌, ◌^◌, true, ◌&&◌, nat_lt};
ghost use Rattle.bits.specs.Bits.{bit};
ghost use Rattle.domineering.specs.Domineering.{sized, goes_on};

mod making;
mod rules;

// A board has at most this many cells.
pub const MOST_CELLS: usize = 30;

#[derive(Clone, Copy, Debug, PartialEq, Eq)]
pub struct Board {
    rows: usize,
    columns: usize,
    // all cells
    full: u64,
    // the cells that have a neighbour to the right in their row
    inner: u64,
    // the size is within the rules, and the masks are those of the size
    ghost small: { sized rows columns ≡ true },
    ghost whole: { full ≡ 2 ^ (rows * columns) - 1 },
    ghost rowwise: { (i : ℕ) → bit inner i ≡ (nat_lt i (rows * columns) && goes_on columns i) },
}
