// The flood from the ground, which finds the edges that are joined to it.
ghost use Rattle.std.specs.Prelude.{◌≡◌, ℕ, ◌^◌, ◌<◌, true, if◌then◌else◌, Some, None, Decides};
ghost use Rattle.bits.specs.Bits.{bit};
ghost use Rattle.hackenbush.specs.Floods.{Flooded, Looked, Spread};
ghost use Rattle.hackenbush.specs.Hackenbush.{cut, fall, legal};
ghost use Rattle.hackenbush.specs.Laws.{StaysUp};
ghost use Rattle.hackenbush.specs.Pictures.{edges_of};

use super::Picture;
use crate::edge::Edge;

// The set with just the ground, vertex 0.
const GROUND: u64 = 1;

// How far a flood has come, as sets of bits.
#[derive(Clone, Copy, Debug, PartialEq, Eq)]
struct Flood {
    // the vertices that it has reached
    wet: u64,
    // the standing edges that it has not gone along yet
    dry: u64,
}

impl Picture {
    // The edges, in their order.
    fn edges(&self) -> &[Edge]
        ensures { result.now ≡ edges_of self.now }
    {
        &self.edges[..self.count]
    }

    // Goes along an edge that is dry if the flood has reached an end of it.
    fn look(&self, flood: Flood, place: u32) -> Flood
        requires within { place < self.now.count }
        requires left { bit flood.dry place ≡ true }
        ensures { Looked (edges_of self.now) place flood.wet flood.dry result.wet result.dry }
    {
        let ends = self.edges()[place as usize].ends();
        if flood.wet & ends == 0 {
            return flood;
        }
        Flood {
            wet: flood.wet | ends,
            dry: flood.dry ^ (1 << place),
        }
    }

    // Looks once at every edge that is dry.
    fn round(&self, mut flood: Flood) -> Flood
        requires { flood.dry < 2 ^ self.now.count }
        ensures { Spread (edges_of self.now) flood.wet flood.dry result.wet result.dry }
    {
        let mut left = flood.dry;
        while left != 0 {
            let place = left.trailing_zeros();
            left ^= 1 << place;
            flood = self.look(flood, place);
            // every vertex is reached, so no edge is dry
            if flood.wet == self.span {
                return Flood { dry: 0, ..flood };
            }
        }
        flood
    }

    // Goes on until no edge is dry, or a round goes along no further one.
    fn run(&self, mut flood: Flood) -> Flood
        requires { flood.dry < 2 ^ self.now.count }
        ensures { Flooded (edges_of self.now) flood.wet flood.dry result.wet result.dry }
    {
        while flood.dry != 0 {
            let before = flood.dry;
            flood = self.round(flood);
            if flood.dry == before {
                return flood;
            }
        }
        flood
    }

    // The edges of the code that are joined to the ground; the others have fallen.
    pub fn fall(&self, code: u64) -> u64
        ensures value { result ≡ fall (edges_of self.now) (bit code) }
        ensures joined { (i : ℕ) → Decides (bit result i)
            (StaysUp (edges_of self.now) (bit code) i) }
    {
        let standing = code & ((1 << self.count) - 1);
        let end = self.run(Flood {
            wet: GROUND,
            dry: standing,
        });
        standing ^ end.dry
    }

    // What stands after an edge of the code is cut, and `None` for a code that is not legal.
    // The flood over the other edges goes on along this one:
    // an edge that is dry even then makes the code illegal.
    pub(super) fn cut(&self, code: u64, place: u32) -> Option<u64>
        requires { bit code place ≡ true }
        ensures { result ≡ (if legal (edges_of self.now) code
            then Some (cut (edges_of self.now) code place) else None) }
    {
        if code >= 1 << self.count {
            return None;
        }
        let edge = 1 << place;
        let others = code ^ edge;
        let after = self.run(Flood {
            wet: GROUND,
            dry: others,
        });
        let all = Flood {
            wet: after.wet,
            dry: after.dry | edge,
        };
        let along = self.look(all, place);
        let whole = self.run(along);
        (whole.dry == 0).then_some(others ^ after.dry)
    }
}
