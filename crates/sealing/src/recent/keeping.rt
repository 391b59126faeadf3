// Noting what a pair of sets sealed to, and recalling it.
ghost use Rattle.std.specs.Prelude.{◌≡◌, ◌⊎◌, ◌<◌, ℕ, IfOk, IfSome};
ghost use Rattle.nodesets.specs.Pairs.{Sets, by};
ghost use Rattle.sealing.specs.Remembering.{Remembers, Same};

use super::{Entry, Recent};
use nodesets::pair::Pair;
use std::alloc::{AllocError, Global};
use std::hash::{BuildHasher, BuildHasherDefault, FoldHasher};

// How many pairs are remembered at most.
const PLACES: usize = 4096;

// The place of a pair. Its sets are hashed each by itself, which a processor does at the same time;
// one is turned, so that the sides count.
fn place(moves: &Pair) -> usize
    ensures { result < 4096 }
{
    let hasher = BuildHasherDefault::<FoldHasher>::default();
    let left = hasher.hash_one(&moves.left);
    let right = hasher.hash_one(&moves.right).rotate_left(32);
    ((left ^ right) % PLACES as u64) as usize
}

impl Recent {
    // Nothing is remembered. There may be no memory for it.
    pub fn new(heap: Global) -> Result<Recent, AllocError>
        ensures { IfOk result (λ r. (o : Sets) (n : ℕ) → Remembers r o n → ⊥) }
    {
        let entries = vec![in heap; None; PLACES]?;
        Ok(Recent { entries })
    }

    // The node that was noted with the pair, if it is remembered.
    pub fn recall(&self, moves: &Pair) -> Option<u16>
        ensures { IfSome result (λ n. Remembers self.now (by moves.now) n) }
    {
        let entry = self.entries[place(moves)]?;
        (entry.moves == *moves).then_some(entry.node)
    }

    // The node is noted with the pair; what stood at its place is forgotten.
    pub fn note(&mut self, moves: &Pair, node: u16)
        ensures noted { Remembers self.new (by moves.now) node }
        ensures others { (o : Sets) (n : ℕ) → Remembers self.new o n → (Same (by moves.now) o × (n ≡ node))
            ⊎ Remembers self.old o n }
    {
        let place = place(moves);
        self.entries[place] = Some(Entry {
            moves: *moves,
            node,
        });
    }
}
