// The tables of a dictionary: its nodes, and their listing.
ghost use Rattle.std.specs.Prelude.{◌≡◌, ◌≤◌, true, length, vec_len, vec_capacity};
ghost use Rattle.sealing.specs.Views.{links};
ghost use Rattle.sealing.specs.Walks.{Complete, Rises, all_below};

use crate::nodes::Nodes;

mod ask;
mod extend;

// The nodes, and their numbers in rising listing order.
#[derive(Drop)]
pub struct Tables {
    nodes: Nodes,
    listing: Vec<u16>,
    ghost reserved: { 384 ≤ vec_capacity listing },
    ghost whole: { vec_len listing ≡ vec_len nodes.rows },
    ghost below: { all_below (length (links nodes)) listing.items ≡ true },
    ghost complete: { Complete (length (links nodes)) listing.items },
    ghost rises: { Rises (links nodes) listing.items },
}
