// What a set of nodes does.
ghost use Rattle.std.specs.Prelude.{◌≡◌, ℕ, ◌%◌, ◌<◌, true, false, cond, not, ◌&&◌, ◌||◌, Decides, MatchOption, ◌==◌, nat_lt};
ghost use Rattle.bits.specs.Bits.{bit};
ghost use Rattle.nodesets.specs.Sets.{Lowest, Meet, Next, TakesLowest, has, word};

use super::{NodeSet, WORDS};
use games::bounds::MOST_NODES;
use std::array;

impl Default for NodeSet {
    ghost is_default = { λ s. (j : ℕ) → has s j ≡ false };

    // The set of no nodes.
    fn default() -> NodeSet {
        NodeSet { words: [0; WORDS] }
    }
}

impl NodeSet {
    pub fn contains(&self, node: usize) -> bool
        ensures { result ≡ has self.now node }
    {
        node < MOST_NODES && (self.words[node / 64] >> (node % 64)) % 2 == 1
    }

    // The node goes in; a number from 384 on cannot.
    pub fn insert(&mut self, node: usize)
        ensures { (j : ℕ) → has self.new j ≡ ((j == node && nat_lt j 384) || has self.old j) }
    {
        if node < MOST_NODES {
            self.words[node / 64] |= 1 << (node % 64);
        }
    }

    // The node goes in if `on`.
    pub fn insert_if(&mut self, node: usize, on: bool)
        ensures { (j : ℕ) → has self.new j
            ≡ (((j == node && nat_lt j 384) && on) || has self.old j) }
    {
        if on {
            self.insert(node);
        }
    }

    pub fn remove(&mut self, node: usize)
        ensures { (j : ℕ) → has self.new j ≡ (has self.old j && not (j == node)) }
    {
        if node < MOST_NODES {
            self.words[node / 64] &= !(1 << (node % 64));
        }
    }

    // The set whose words are made of the words of two sets.
    fn by_words<F: Fn(u64, u64) -> u64>(&self, other: &NodeSet, f: F) -> NodeSet
        requires { F.IsAlwaysCallable f }
        ensures { (i : ℕ) → i < 6 → F.post f (word self.now i) (word other.now i) (word result i) }
    {
        NodeSet {
            words: array::from_fn(|i| f(self.words[i], other.words[i])),
        }
    }

    pub fn union(&mut self, other: &NodeSet)
        ensures { (j : ℕ) → has self.new j ≡ (has self.old j || has other.now j) }
    {
        *self = self.by_words(other, |own, theirs| own | theirs);
    }

    // What is in the other set goes.
    pub fn minus(&mut self, other: &NodeSet)
        ensures { (j : ℕ) → has self.new j ≡ (has self.old j && not (has other.now j)) }
    {
        *self = self.by_words(other, |own, theirs| own & !theirs);
    }

    // What is in both sets.
    fn intersection(&self, other: &NodeSet) -> NodeSet
        ensures { (j : ℕ) → has result j ≡ (has self.now j && has other.now j) }
    {
        self.by_words(other, |own, theirs| own & theirs)
    }

    // Whether a node is in both sets.
    pub fn meets(&self, other: &NodeSet) -> bool
        ensures { Decides result (Meet (has self.now) (has other.now)) }
    {
        self.words
            .iter()
            .zip(&other.words)
            .any(|(own, theirs)| own & theirs != 0)
    }

    // The lowest node that is in both sets.
    pub fn common(&self, other: &NodeSet) -> Option<usize>
        ensures { MatchOption result (Meet (has self.now) (has other.now) → ⊥)
            (λ k. Lowest (has self.now) (has other.now) k) }
    {
        self.intersection(other).next_inside(0)
    }

    // The lowest number that is not in both sets.
    pub fn missing(&self, other: &NodeSet) -> Option<usize>
        ensures { Next (λ k. not (has self.now k && has other.now k)) 0 result }
    {
        self.intersection(other).next_outside(0)
    }

    // The lowest number of the set leaves it.
    pub fn take_lowest(&mut self) -> Option<usize>
        ensures { TakesLowest (has self.old) (has self.new) result }
    {
        let lowest = self.next_inside(0)?;
        self.remove(lowest);
        Some(lowest)
    }

    // Whether every node of the set is below n.
    pub fn is_below(&self, n: usize) -> bool
        ensures { Decides result ((k : ℕ) → has self.now k ≡ true → k < n) }
    {
        self.next_inside(n).is_none()
    }

    // The lowest number from `from` on that is not in the set.
    pub fn next_outside(&self, from: usize) -> Option<usize>
        ensures { Next (λ k. not (has self.now k)) from result }
    {
        self.next(from, u64::MAX)
    }

    // The lowest number from `from` on that is in the set.
    pub fn next_inside(&self, from: usize) -> Option<usize>
        ensures { Next (has self.now) from result }
    {
        self.next(from, 0)
    }

    // The lowest number from `from` on whose bit is not that of the mask.
    fn next(&self, from: usize, mask: u64) -> Option<usize>
        ensures { Next (λ k. cond (has self.now k) (not (bit mask (k % 64))) (bit mask (k % 64)))
            from result }
    {
        let mut k = from;
        while k < MOST_NODES {
            let rest = (self.words[k / 64] ^ mask) >> (k % 64);
            if rest != 0 {
                return Some(k + rest.trailing_zeros() as usize);
            }
            k = (k / 64 + 1) * 64;
        }
        None
    }
}
