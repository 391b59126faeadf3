// Making a picture of a list of edges.
ghost use Rattle.std.specs.Prelude.{◌≡◌, ℕ, ◌≤◌, true, length, take};
ghost use Rattle.bits.specs.Bits.{bit};
ghost use Rattle.hackenbush.specs.Hackenbush.{near, painted, touched};
ghost use Rattle.hackenbush.specs.Pictures.{Made};

use super::{MOST_EDGES, Picture};
use crate::edge::Edge;
use games::side::Side;
use rulesets::fault::BoardFault;

impl Picture {
    // The picture of 1 to 24 edges between vertices 0 to 15, and a refusal for any other list.
    pub fn new(edges: &[Edge]) -> Result<Picture, BoardFault>
        ensures { Made edges.now result }
    {
        if edges.is_empty() || edges.len() > MOST_EDGES || !are_near(edges) {
            return Err(BoardFault::Size);
        }
        Ok(Picture {
            edges: padded(edges),
            count: edges.len(),
            left: coloured(edges, Side::Left),
            right: coloured(edges, Side::Right),
            span: span(edges),
        })
    }
}

// Whether every vertex is from 0 to 15.
fn are_near(edges: &[Edge]) -> bool
    ensures { result ≡ near edges.now }
{
    edges.iter().all(Edge::is_near)
}

// The edges, filled up to 24 with edges that no count reaches.
fn padded(edges: &[Edge]) -> [Edge; MOST_EDGES]
    requires { length edges.now ≤ 24 }
    ensures all { take (length edges.now) result ≡ edges.now }
    ensures long { length result ≡ 24 }
{
    let mut all = [Edge::default(); MOST_EDGES];
    all[..edges.len()].copy_from_slice(edges);
    all
}

// The edges of a colour that the side may cut, as bits.
fn coloured(edges: &[Edge], side: Side) -> u64
    requires { length edges.now ≤ 24 }
    ensures { (i : ℕ) → bit result i ≡ painted side edges.now i }
{
    let mut set = 0;
    for (i, edge) in edges.iter().enumerate() {
        if edge.colour.is_cut_by(side) {
            set |= 1 << i;
        }
    }
    set
}

// The vertices that edges touch, as bits.
fn span(edges: &[Edge]) -> u64
    requires { near edges.now ≡ true }
    ensures { (v : ℕ) → bit result v ≡ touched edges.now v }
{
    let mut set = 0;
    for edge in edges {
        set |= edge.ends();
    }
    set
}
