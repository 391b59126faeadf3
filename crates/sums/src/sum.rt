// The sum of two rulesets: a position of each, and a move is a move in one of the two.
ghost use Rattle.std.specs.Prelude.{◌≡◌, true, false, IfOk, MatchResult};
ghost use Rattle.games.specs.Laws.{SumReads};
ghost use Rattle.rulesets.specs.declared.fault.SumFault.TheVariants.{Large};
ghost use Rattle.sums.specs.Laws.{SumAdds};
ghost use Rattle.sums.specs.Sums.{fits, part_codes, plus, sum_bounds};
ghost use Rattle.sums.specs.Parts.{plus_lawful};

use games::side::Side;
use rulesets::fault::SumFault;
use rulesets::ruleset::Ruleset;

// The bounds of a ruleset.
const MOST_CODES: u64 = 1 << 60;

const MOST_MOVES: usize = 256;

const MOST_DEPTH: usize = 96;

#[derive(Clone, Copy, Debug, PartialEq, Eq)]
pub struct Sum<A, B> {
    first: A,
    second: B,
}

// The numbers that a ruleset keeps to.
#[derive(Clone, Copy, Debug, PartialEq, Eq)]
struct Bounds {
    limit: u64,
    width: usize,
    depth: usize,
}

// The numbers of the sum, where they keep to the bounds of a ruleset:
// limits multiply, widths and depths add.
fn sum_bounds<A: Ruleset, B: Ruleset>(first: &A, second: &B) -> Option<Bounds>
    ensures { result ≡ sum_bounds (A.Ruleset.rules first.now) (B.Ruleset.rules second.now) }
{
    let limit = first.limit().checked_mul(second.limit())?;
    let width = first.width() + second.width();
    let depth = first.depth() + second.depth();
    let fits = limit <= MOST_CODES && width <= MOST_MOVES && depth <= MOST_DEPTH;
    fits.then_some(Bounds {
        limit,
        width,
        depth,
    })
}

impl<A: Ruleset, B: Ruleset> Sum<A, B> {
    // Refuses parts whose sum would pass the bounds of a ruleset.
    pub fn new(first: A, second: B) -> Result<Sum<A, B>, SumFault>
    where
        A: Drop,
        B: Drop,
        ensures parts { MatchResult result
            (λ s. (fits (A.Ruleset.rules first) (B.Ruleset.rules second) ≡ true) × (s.first ≡ first)
            × (s.second ≡ second))
            (λ e. (fits (A.Ruleset.rules first) (B.Ruleset.rules second) ≡ false) × (e ≡ Large)) }
        ensures adds { IfOk result (λ s. SumAdds (A.Ruleset.rules s.first)
            (B.Ruleset.rules s.second)) }
        ensures forms { SumReads }
    {
        if sum_bounds(&first, &second).is_none() {
            return Err(SumFault::Large);
        }
        Ok(Sum { first, second })
    }

    // The numbers of this sum, where they keep to the bounds.
    fn bounds(&self) -> Option<Bounds>
        ensures { result ≡ sum_bounds (A.Ruleset.rules self.now.first)
            (B.Ruleset.rules self.now.second) }
    {
        sum_bounds(&self.first, &self.second)
    }

    // Whether this sum keeps to the bounds.
    fn fits(&self) -> bool
        ensures { result ≡ fits (A.Ruleset.rules self.now.first) (B.Ruleset.rules self.now.second) }
    {
        self.bounds().is_some()
    }

    // The parts' codes, where both are legal and the parts fit.
    fn parts(&self, code: u64) -> Option<(u64, u64)>
        ensures { result ≡ part_codes (A.Ruleset.rules self.now.first)
            (B.Ruleset.rules self.now.second) code }
    {
        let base = self.second.limit();
        let first = code / base;
        let second = code % base;
        let legal = self.fits() && self.first.is_legal(first) && self.second.is_legal(second);
        legal.then_some((first, second))
    }
}

impl<A: Ruleset, B: Ruleset> Ruleset for Sum<A, B> {
    ghost rules = { λ s. plus (A.Ruleset.rules s.first) (B.Ruleset.rules s.second) };

    ghost lawful = { λ s. plus_lawful _ _ (A.Ruleset.lawful s.first) (B.Ruleset.lawful s.second) };

    fn limit(&self) -> u64 {
        self.bounds().map_or(1, |bounds| bounds.limit)
    }

    fn width(&self) -> usize {
        self.bounds().map_or(0, |bounds| bounds.width)
    }

    fn depth(&self) -> usize {
        self.bounds().map_or(0, |bounds| bounds.depth)
    }

    fn is_legal(&self, code: u64) -> bool {
        self.parts(code).is_some()
    }

    fn rank(&self, code: u64) -> usize {
        self.parts(code)
            .map_or(0, |(a, b)| self.first.rank(a) + self.second.rank(b))
    }

    fn count(&self, side: Side, code: u64) -> usize {
        self.parts(code).map_or(0, |(a, b)| {
            self.first.count(side, a) + self.second.count(side, b)
        })
    }

    // The parts are asked for their moves first: one that has a move is legal,
    // so only the other is asked whether it is.
    fn successor(&self, side: Side, code: u64, index: usize) -> Option<u64> {
        if !self.fits() {
            return None;
        }
        let base = self.second.limit();
        let a = code / base;
        let b = code % base;
        if let Some(next) = self.first.successor(side, a, index) {
            if !self.second.is_legal(b) {
                return None;
            }
            return Some(next * base + b);
        }
        let past = index - self.first.count(side, a);
        let next = self.second.successor(side, b, past)?;
        if !self.first.is_legal(a) {
            return None;
        }
        Some(a * base + next)
    }
}
