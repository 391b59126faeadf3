// A set of nodes.
ghost use Rattle.std.specs.Prelude.{◌≡◌, length};

use games::bounds::MOST_NODES;

mod ops;

// How many words hold a bit for each number that a node can have.
const WORDS: usize = MOST_NODES / 64;

// A set of numbers below 384, a bit for each.
#[derive(Clone, Copy, Debug, PartialEq, Eq, Hash)]
pub struct NodeSet {
    words: [u64; WORDS],
    ghost six: { length words ≡ 6 },
}
