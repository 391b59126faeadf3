// A picture: up to 24 edges between vertices 0 to 15, of which vertex 0 is the ground.
ghost use Rattle.std.specs.Prelude.{◌≡◌, ℕ, ◌≤◌, true, length, take};
ghost use Rattle.bits.specs.Bits.{bit};
ghost use Rattle.games.specs.declared.side.Side.TheVariants.{Left, Right};
ghost use Rattle.hackenbush.specs.Hackenbush.{fits, painted, touched};

use crate::edge::Edge;

mod flood;
mod making;
pub mod rules;

// A picture has at most this many edges.
pub const MOST_EDGES: usize = 24;

#[derive(Clone, Copy, Debug, PartialEq, Eq)]
pub struct Picture {
    edges: [Edge; MOST_EDGES],
    count: usize,
    // the edges that Left may cut, and those that Right may cut, as bits
    left: u64,
    right: u64,
    // the vertices that edges touch, as bits
    span: u64,
    ghost long: { length edges ≡ 24 },
    ghost within: { count ≤ 24 },
    ghost sized: { fits (take count edges) ≡ true },
    ghost lefts: { (i : ℕ) → bit left i ≡ painted Left (take count edges) i },
    ghost rights: { (i : ℕ) → bit right i ≡ painted Right (take count edges) i },
    ghost spanned: { (v : ℕ) → bit span v ≡ touched (take count edges) v },
}
