// The most that a dictionary of games holds.

// How many nodes there can be: the number of each is below this.
pub const MOST_NODES: usize = 384;

// How many options a node can have on a side.
pub const MOST_OPTIONS: usize = 16;
