// A game given by its options, and how it compares with the nodes.
ghost use Rattle.std.specs.Prelude.{vec_len};
ghost use Rattle.nodesets.specs.Pairs.{Within, by};
ghost use Rattle.sealing.specs.Steps.{Compared};
ghost use Rattle.sealing.specs.Views.{links};

use crate::nodes::Nodes;
use nodesets::pair::Pair;

mod reduce;

// The game's options, a set of nodes for each side, and the nodes that the game is as good as.
#[derive(Clone, Copy)]
pub struct Game<'a> {
    pub nodes: &'a Nodes,
    pub moves: Pair,
    pub worse: Pair,
    ghost within: { Within (vec_len nodes.now.rows) (by moves) },
    ghost known: { Compared (links nodes.now) (by moves) (vec_len nodes.now.rows) (by worse) },
}
