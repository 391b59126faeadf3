// Sealing a draft in a dictionary.
ghost use Rattle.std.specs.Prelude.{◌≡◌};
ghost use Rattle.games.specs.Numbered.{Lists};
ghost use Rattle.calls.specs.Rows.{no_numbers};
ghost use Rattle.calls.specs.Sealing.{SealsNumbers};
ghost use Rattle.dictionary.specs.Faults.{answer_of};
ghost use Rattle.drafts.specs.Holding.{Holds};
ghost use Rattle.drafts.specs.Promise.{OneGameOneNumberOneText};
ghost use Rattle.drafts.specs.Steps.{SealSteps, SealingCallsStep};

use crate::draft::Draft;
use crate::slip::Slip;
use dictionary::dictionary::Dictionary;
use dictionary::fault::DictionaryFault;
use stores::store::Store;

// The node that equals the form of the numbers put; where there is none,
// the row of its canonical form is added.
// The slip is spent and the draft is emptied, refused or not.
pub fn seal<S: Store>(
    dictionary: &mut Dictionary<S>,
    draft: &mut Draft,
    slip: Slip,
) -> Result<u16, DictionaryFault>
    ensures seals { (l : Lists) → Holds draft.old l
        → SealsNumbers dictionary.old.room dictionary.old.rows l (answer_of result)
        dictionary.new.rows }
    ensures empty { Holds draft.new no_numbers }
    ensures step { SealSteps dictionary.old.room dictionary.old.rows draft.old (answer_of result)
        dictionary.new.rows draft.new }
    ensures room { dictionary.new.room ≡ dictionary.old.room }
    ensures others { SealingCallsStep }
    ensures law { OneGameOneNumberOneText }
{
    let answer = dictionary.seal(&draft.numbers);
    draft.abandon(slip);
    answer
}
