// The minus of a ruleset: the same positions with the sides swapped.
ghost use Rattle.std.specs.Prelude.{◌≡◌};
ghost use Rattle.games.specs.Laws.{NegativeCancels};
ghost use Rattle.sums.specs.Laws.{MinusCancels, MinusIsNegative};
ghost use Rattle.sums.specs.Sums.{minus};
ghost use Rattle.std.proofs.Common.{rules};

use games::side::Side;
use rulesets::ruleset::Ruleset;

#[derive(Clone, Copy, Debug, PartialEq, Eq)]
pub struct Minus<R> {
    inner: R,
}

impl<R: Ruleset> Minus<R> {
    // The game of each position of the minus is the negative of its game in the ruleset.
    pub fn new(inner: R) -> Minus<R>
        ensures made { result.inner ≡ inner }
        ensures negative { MinusIsNegative (R.Ruleset.rules result.inner) }
        ensures cancels { MinusCancels (R.Ruleset.rules result.inner) }
        ensures forms { NegativeCancels }
    {
        Minus { inner }
    }
}

impl<R: Ruleset> Ruleset for Minus<R> {
    ghost rules = { λ s. minus (R.Ruleset.rules s.inner) };

    ghost lawful = { Prim.search rules };

    fn limit(&self) -> u64 {
        self.inner.limit()
    }

    fn width(&self) -> usize {
        self.inner.width()
    }

    fn depth(&self) -> usize {
        self.inner.depth()
    }

    fn is_legal(&self, code: u64) -> bool {
        self.inner.is_legal(code)
    }

    fn rank(&self, code: u64) -> usize {
        self.inner.rank(code)
    }

    fn count(&self, side: Side, code: u64) -> usize {
        self.inner.count(side.other(), code)
    }

    fn successor(&self, side: Side, code: u64, index: usize) -> Option<u64> {
        self.inner.successor(side.other(), code, index)
    }
}
