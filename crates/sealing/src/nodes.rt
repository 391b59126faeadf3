// The nodes by number: the options of each, and the order between them.
ghost use Rattle.std.specs.Prelude.{◌≤◌, vec_len, vec_capacity};
ghost use Rattle.sealing.specs.Invariants.{AllCanonical, Apart, Lower, Ranked};
ghost use Rattle.sealing.specs.Rows.{options_of, worse_of};

use crate::row::Row;

mod grow;

#[derive(Drop)]
pub struct Nodes {
    pub rows: Vec<Row>,
    ghost few: { vec_len rows ≤ 384 },
    ghost reserved: { 384 ≤ vec_capacity rows },
    ghost lower: { Lower (options_of rows.items) },
    ghost ranked: { Ranked (options_of rows.items) (worse_of rows.items) },
    ghost canonical: { AllCanonical (options_of rows.items) },
    ghost apart: { Apart (options_of rows.items) },
}
