// What two sets of nodes seal to, or why they do not.
use nodesets::pair::Pair;

// What two sets of nodes seal to.
#[derive(Clone, Copy, Debug, PartialEq, Eq)]
pub enum Sealed {
    // this node equals the form of the two sets
    Node(usize),
    // no node does: the canonical form has these options, and is wanted as a new row
    New(Pair),
}

// Why two sets of nodes do not seal.
#[derive(Clone, Copy, Debug, PartialEq, Eq)]
pub enum SealFault {
    // a number put is not a node
    Unknown,
    // no node equals the form, and the canonical form has more than 16 options on a side
    Wide,
}
