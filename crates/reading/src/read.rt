// Reading a text into a dictionary: each bracket is sealed as it closes.
ghost use Rattle.std.specs.Prelude.{◌≡◌};
ghost use Rattle.reading.specs.Faults.{read_answer};
ghost use Rattle.reading.specs.Sealed.{Closed};
ghost use Rattle.reading.specs.TextRead.{ReadSteps, ReadsBack, TextRead};

use crate::check::check;
use crate::fault::ReadFault;
use crate::frames::Frames;
use crate::walk::{Closing, walk};
use dictionary::dictionary::Dictionary;
use nodesets::pair::Pair;
use stores::store::Store;

// A bracket is sealed.
impl<S: Store> Closing<Pair, ReadFault> for Dictionary<S> {
    ghost closes = { Closed };

    fn close(&mut self, options: &Pair, place: usize) -> Result<u16, ReadFault> {
        self.seal(options)
            .map_err(|fault| ReadFault::Bracket { place, fault })
    }
}

// The node of a text's value. The text is checked first,
// and then each bracket is sealed as it closes.
pub fn read<S: Store>(dictionary: &mut Dictionary<S>, text: &[u8]) -> Result<u16, ReadFault>
    ensures reads { TextRead dictionary.old.room dictionary.old.rows text.now (read_answer result)
        dictionary.new.rows }
    ensures step { ReadSteps dictionary.old.room dictionary.old.rows text.now (read_answer result)
        dictionary.new.rows }
    ensures back { ReadsBack dictionary.old.rows text.now result dictionary.new.rows }
    ensures room { dictionary.new.room ≡ dictionary.old.room }
{
    check(text)?;
    walk(dictionary, &mut Frames::default(), text)
}
