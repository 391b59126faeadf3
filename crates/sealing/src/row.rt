// What the tables keep of a node.
use nodesets::pair::Pair;

// A node: its options, and the nodes that it is as good as for each side, itself among them.
#[derive(Clone, Copy)]
pub struct Row {
    pub options: Pair,
    pub worse: Pair,
}
