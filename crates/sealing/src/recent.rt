// What pairs of sets sealed to, the latest of them: most pairs are sealed again and again.
ghost use Rattle.std.specs.Prelude.{◌≡◌, vec_len};

use nodesets::pair::Pair;

mod keeping;

// A pair of sets of nodes, and the node that equals its form.
#[derive(Clone, Copy, Debug, PartialEq, Eq)]
pub struct Entry {
    pub moves: Pair,
    pub node: u16,
}

// Pairs that were sealed, each at a place that its sets tell;
// a later one may take the place of another.
#[derive(Drop)]
pub struct Recent {
    entries: Vec<Option<Entry>>,
    ghost all: { vec_len entries ≡ 4096 },
}
