// A set of nodes for each side.
ghost use Rattle.std.specs.Prelude.{◌≡◌, ℕ, false, ◌&&◌, ◌||◌, Decides, ◌==◌, nat_lt};
ghost use Rattle.games.specs.Sides.{other};
ghost use Rattle.games.specs.declared.side.Side.{Side};
ghost use Rattle.nodesets.specs.Sets.{has};
ghost use Rattle.std.specs.Borrow.{sem};
ghost use Rattle.nodesets.specs.Lending.{LendsSide};
ghost use Rattle.nodesets.specs.Pairs.{Within, by};

use crate::nodeset::NodeSet;
use games::side::Side;

#[derive(Clone, Copy, Debug, PartialEq, Eq, Hash)]
pub struct Pair {
    pub left: NodeSet,
    pub right: NodeSet,
}

impl Default for Pair {
    ghost is_default = { λ p. (s : Side) (k : ℕ) → by p s k ≡ false };

    // Two sets of no nodes.
    fn default() -> Pair {
        Pair {
            left: NodeSet::default(),
            right: NodeSet::default(),
        }
    }
}

impl Pair {
    // The set of a side.
    pub fn of(&self, side: Side) -> &NodeSet
        ensures { (k : ℕ) → has result.now k ≡ by self.now side k }
    {
        match side {
            Side::Left => &self.left,
            Side::Right => &self.right,
        }
    }

    fn of_mut(&mut self, side: Side) -> &mut NodeSet
        ensures* lends { sem 𝓛 (LendsSide self.entry side result) }
        ensures value { (k : ℕ) → has result.now k ≡ by self.old side k }
    {
        match side {
            Side::Left => &mut self.left,
            Side::Right => &mut self.right,
        }
    }

    // The node goes into the set of the side; a number from 384 on cannot.
    pub fn insert(&mut self, side: Side, node: usize)
        ensures own { (k : ℕ) → by self.new side k
            ≡ ((k == node && nat_lt k 384) || by self.old side k) }
        ensures theirs { (k : ℕ) → by self.new (other side) k ≡ by self.old (other side) k }
    {
        self.of_mut(side).insert(node);
    }

    // The pair with another set for the side.
    pub fn with(&self, side: Side, set: &NodeSet) -> Pair
        ensures own { (k : ℕ) → by result side k ≡ has set.now k }
        ensures theirs { (k : ℕ) → by result (other side) k ≡ by self.now (other side) k }
    {
        let mut pair = *self;
        *pair.of_mut(side) = *set;
        pair
    }

    // Whether every node of the pair is below n.
    pub fn is_below(&self, n: usize) -> bool
        ensures { Decides result (Within n (by self.now)) }
    {
        self.left.is_below(n) && self.right.is_below(n)
    }
}
