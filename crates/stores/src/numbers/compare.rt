// Such lists compare number by number, and what stands behind the last of them counts for nothing.
ghost use Rattle.std.specs.Prelude.{◌==◌};
ghost use Rattle.std.proofs.Common.{rules};
ghost use Rattle.std.specs.Cmp.{partial_order_from_own_ties};
ghost use Rattle.std.specs.Cmp.Rules.{comparing};
ghost use Rattle.std.specs.Cmp.Lexicographic.{pointwise, slice_cmp};
ghost use Rattle.std.specs.Ordering.{as_partial_cmp, nat_cmp, on};
ghost use Rattle.stores.specs.Reading.{numbers_of};

use super::Numbers;
use std::cmp::Ordering;

impl<const MOST: usize> PartialEq for Numbers<MOST> {
    ghost eq = { on numbers_of (pointwise ◌==◌) };

    ghost laws = { Prim.search (comparing, rules) };

    fn eq(&self, other: &Numbers<MOST>) -> bool {
        self.list() == other.list()
    }
}

impl<const MOST: usize> Eq for Numbers<MOST> {
    ghost laws = { Prim.search (comparing, rules) };
}

impl<const MOST: usize> PartialOrd for Numbers<MOST> {
    ghost partial_cmp = { as_partial_cmp (on numbers_of (slice_cmp nat_cmp)) };

    ghost laws = { partial_order_from_own_ties (Prim.search (comparing, rules))
        (Prim.search (comparing, rules)) };

    fn partial_cmp(&self, other: &Numbers<MOST>) -> Option<Ordering> {
        Some(self.cmp(other))
    }
}

impl<const MOST: usize> Ord for Numbers<MOST> {
    ghost cmp = { on numbers_of (slice_cmp nat_cmp) };

    ghost total = { Prim.search (comparing, rules) };

    ghost matches_partial_cmp = { Prim.search (comparing, rules) };

    ghost matches_eq = { Prim.search (comparing, rules) };

    fn cmp(&self, other: &Numbers<MOST>) -> Ordering {
        self.list().cmp(other.list())
    }
}
