// The nodes one after the other: none at first, and one more.
ghost use Rattle.std.specs.Prelude.{◌≡◌, ℕ, ◌<◌, [], ◌∷◌, ◌++◌, IfOk, vec_len, vec_capacity};
ghost use Rattle.games.specs.Canon.{Canonical};
ghost use Rattle.games.specs.Order.{◌≈◌};
ghost use Rattle.nodesets.specs.Pairs.{Within, by};
ghost use Rattle.sealing.specs.Forms.{game, node};
ghost use Rattle.sealing.specs.Ranking.{Ranking};
ghost use Rattle.sealing.specs.Views.{links};

use super::Nodes;
use crate::row::Row;
use games::bounds::MOST_NODES;
use games::side::Side;
use nodesets::pair::Pair;
use std::alloc::{AllocError, Global};

impl Nodes {
    // No node yet, with room for all.
    pub fn new(heap: Global) -> Result<Nodes, AllocError>
        ensures { IfOk result (λ t. links t ≡ []) }
    {
        let rows = Vec::with_capacity(heap, MOST_NODES)?;
        Ok(Nodes { rows })
    }

    pub fn count(&self) -> usize
        ensures { result ≡ vec_len self.now.rows }
    {
        self.rows.len()
    }

    // One more node: a canonical form that equals none.
    pub fn push(&mut self, form: &Pair)
        requires room { vec_len self.old.rows < 384 }
        requires within { Within (vec_len self.old.rows) (by form.now) }
        requires canonical { Canonical (game (links self.old) (by form.now)) }
        requires fresh { (k : ℕ) → k < vec_len self.old.rows
            → ¬ (game (links self.old) (by form.now) ≈ node (links self.old) k) }
        ensures { links self.new ≡ links self.old ++ (by form.now ∷ []) }
    {
        let number = self.rows.len();
        let mut own = self.compare(form).worse;
        rank_under(&mut self.rows, &own);
        own.insert(Side::Left, number);
        own.insert(Side::Right, number);
        self.rows.push_reserved(Row {
            options: *form,
            worse: own,
        });
    }
}

// Each node learns that it is as good as a new one where the new one is as good as it for the other
// side.
fn rank_under(rows: &mut Vec<Row>, worse: &Pair)
    ensures capacity { vec_capacity rows.new ≡ vec_capacity rows.old }
    ensures ranks { Ranking rows.old.items rows.new.items (by worse.now) (vec_len rows.old)
        (vec_len rows.old) }
{
    let number = rows.len();
    for i in 0..number {
        let row = &mut rows[i];
        row.worse.left.insert_if(number, worse.right.contains(i));
        row.worse.right.insert_if(number, worse.left.contains(i));
    }
}
