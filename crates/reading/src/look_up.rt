// Looking a text up in a frozen dictionary: each bracket's lists, as written,
// are to be a row of the store.
ghost use Rattle.calls.specs.Reading.{LooksUp};
ghost use Rattle.reading.specs.Faults.{look_up_answer};
ghost use Rattle.reading.specs.Found.{Found, FindsNodes};

use crate::check::check;
use crate::fault::{LookUpFault, NoRow};
use crate::frames::Frames;
use crate::spelling::Spelling;
use crate::walk::{Closing, walk};
use dictionary::frozen::Frozen;
use games::side::Side;
use stores::store::Store;

// A bracket's row is looked for.
impl<'a, S: Store> Closing<Spelling, LookUpFault> for &'a Frozen<S> {
    ghost closes = { λ before l place r after. Found before.now.rows l place r after.now.rows };

    fn close(&mut self, options: &Spelling, place: usize) -> Result<u16, LookUpFault> {
        let fault = NoRow;
        self.find(options.list(Side::Left), options.list(Side::Right))
            .ok_or(LookUpFault::Bracket { place, fault })
    }
}

// The node whose text this is. A text with a fault is refused as in reading;
// else the first bracket that is no node's.
pub fn look_up<S: Store>(frozen: &Frozen<S>, text: &[u8]) -> Result<u16, LookUpFault>
    ensures looks { LooksUp frozen.now.rows text.now (look_up_answer result) }
    ensures nodes { FindsNodes frozen.now.rows text.now result }
{
    check(text)?;
    walk(&mut &*frozen, &mut Frames::default(), text)
}
