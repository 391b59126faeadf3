// Sealing: the node that equals the form of two sets of nodes, which is added where there is none.
ghost use Rattle.std.specs.Prelude.{◌≡◌, ◌<◌, IfOk};
ghost use Rattle.std.specs.Option.{option_map};
ghost use Rattle.games.specs.Numbered.{Lists};
ghost use Rattle.nodesets.specs.Pairs.{by};
ghost use Rattle.stores.specs.Reading.{lists_of};
ghost use Rattle.calls.specs.Sealing.{SealsNumbers};
ghost use Rattle.calls.specs.Sound.{Sound};
ghost use Rattle.dictionary.specs.Faults.{answer_of};
ghost use Rattle.dictionary.specs.Kept.{ListsOf, row_for};

use crate::dictionary::Dictionary;
use crate::fault::DictionaryFault;
use nodesets::pair::Pair;
use sealing::seal::Sealed;
use sealing::tables::Tables;
use stores::row::Row;
use stores::store::Store;

// The row of two sets of nodes, each in listing order, unless one has more than 16.
fn row(tables: &Tables, form: &Pair) -> Option<Row>
    ensures { option_map lists_of result ≡ row_for tables.now (by form.now) }
{
    let left = tables.options(&form.left)?;
    let right = tables.options(&form.right)?;
    Row::new(&left, &right)
}

impl<S: Store> Dictionary<S> {
    // The node that equals the form of the two sets; where there is none,
    // the row of its canonical form is added.
    // A pair that was sealed lately is not looked at again.
    pub fn seal(&mut self, moves: &Pair) -> Result<u16, DictionaryFault>
        ensures seals { (l : Lists) → ListsOf (by moves.now) l
            → SealsNumbers self.old.room self.old.rows l (answer_of result) self.new.rows }
        ensures room { self.new.room ≡ self.old.room }
        ensures small { IfOk result (λ node. node < 384) }
        ensures sound { Sound self.old.rows }
    {
        if let Some(node) = self.recent.recall(moves) {
            return Ok(node);
        }
        let node = self.seal_anew(moves)?;
        self.recent.note(moves, node);
        Ok(node)
    }

    // The same, whatever is remembered.
    fn seal_anew(&mut self, moves: &Pair) -> Result<u16, DictionaryFault>
        ensures seals { (l : Lists) → ListsOf (by moves.now) l
            → SealsNumbers self.old.room self.old.rows l (answer_of result) self.new.rows }
        ensures room { self.new.room ≡ self.old.room }
        ensures small { IfOk result (λ node. node < 384) }
        ensures sound { Sound self.old.rows }
    {
        match self.tables.find(moves)? {
            Sealed::Node(node) => Ok(node as u16),
            Sealed::New(form) => {
                let row = row(&self.tables, &form).ok_or(DictionaryFault::Wide)?;
                let node = self.store.append(row)?;
                let _ = self.tables.extend(moves);
                Ok(node)
            }
        }
    }
}
