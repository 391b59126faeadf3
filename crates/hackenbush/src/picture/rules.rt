// Hackenbush on a picture, as a ruleset.
ghost use Rattle.std.specs.Prelude.{◌≡◌, ℕ};
ghost use Rattle.bits.specs.Bits.{bit};
ghost use Rattle.hackenbush.specs.Hackenbush.{hackenbush, painted};
ghost use Rattle.hackenbush.specs.Pictures.{edges_of};
ghost use Rattle.hackenbush.specs.Lawful;

use super::{MOST_EDGES, Picture};
use bits::{count_bits, nth_bit};
use games::side::Side;
use rulesets::ruleset::Ruleset;

impl Picture {
    // The edges that the side may cut while they stand.
    fn coloured(&self, side: Side) -> u64
        ensures { (i : ℕ) → bit result i ≡ painted side (edges_of self.now) i }
    {
        match side {
            Side::Left => self.left,
            Side::Right => self.right,
        }
    }
}

impl Ruleset for Picture {
    ghost rules = { λ p. hackenbush (edges_of p) };

    ghost lawful = { λ p. Lawful.lawful (edges_of p) p.sized };

    fn limit(&self) -> u64 {
        1 << self.count
    }

    fn width(&self) -> usize {
        MOST_EDGES
    }

    fn depth(&self) -> usize {
        MOST_EDGES
    }

    // Nothing of a legal code falls; a code from the limit on has bits that no edge keeps up.
    fn is_legal(&self, code: u64) -> bool {
        self.fall(code) == code
    }

    fn rank(&self, code: u64) -> usize {
        if self.is_legal(code) {
            count_bits(code)
        } else {
            0
        }
    }

    fn count(&self, side: Side, code: u64) -> usize {
        if self.is_legal(code) {
            count_bits(code & self.coloured(side))
        } else {
            0
        }
    }

    fn successor(&self, side: Side, code: u64, index: usize) -> Option<u64> {
        let place = nth_bit(code & self.coloured(side), index)?;
        self.cut(code, place)
    }
}
