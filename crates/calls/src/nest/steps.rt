// Where each byte of a text leads.
ghost use Rattle.std.specs.Prelude.{◌≡◌, ◌+◌, ◌<◌, [], ◌∷◌, ◌++◌, length};
ghost use Rattle.std.specs.ControlFlow.{MatchControlFlow};
ghost use Rattle.games.specs.Form.{Form as Game};
ghost use Rattle.games.specs.Text.{close_mark};
ghost use Rattle.calls.specs.Nests.{Stands, StaysUnlessOn, Stepped, Unmoved};
ghost use Rattle.calls.specs.TextSpots.{open_at, side_at};
ghost use Rattle.calls.specs.declared.nest.TextSpot.TheVariants.{After, Form, Start};
ghost use Rattle.games.specs.declared.side.Side.TheVariants.{Left, Right};
ghost use Rattle.games.specs.Reader.{State, wants, done, next};

use super::{MOST_OPEN, Nest, TextSpot};
use crate::fault::TextFault;
use arrayvec::ArrayVec;
use games::side::Side;
use std::ops::ControlFlow;

impl Default for Nest {
    ghost is_default = { λ nest. Stands nest (wants []) };

    // Before a text.
    fn default() -> Nest {
        Nest {
            spot: TextSpot::Form,
            outside: ArrayVec::new(),
        }
    }
}

impl Nest {
    // Takes the byte at the place: goes on where a reader then stands,
    // or ends behind the last bracket.
    // Where it does not go on, it stands where it stood.
    // A reader asks it at each byte, so it stands in the loops of the crates above.
    #[inline]
    pub fn take(&mut self, byte: u8, place: usize) -> Result<ControlFlow<()>, TextFault>
        ensures steps { (q : State) → Stands self.old q → Stepped q self.new byte place result }
        ensures stays { StaysUnlessOn self.old self.new result }
    {
        match (self.spot, byte) {
            (TextSpot::Form | TextSpot::Start(_), b'{') if self.depth() == MOST_OPEN => {
                return Err(TextFault::TooDeep(place));
            }
            (TextSpot::Form, b'{') => self.open(),
            (TextSpot::Start(side), b'{') => {
                self.wait(side);
                self.open();
            }
            (TextSpot::After(side), b',') => self.wait(side),
            (TextSpot::Start(Side::Left) | TextSpot::After(Side::Left), b'|') => {
                self.spot = TextSpot::Start(Side::Right);
            }
            (TextSpot::Start(Side::Right) | TextSpot::After(Side::Right), b'}') => {
                return Ok(self.close());
            }
            _ => return Err(TextFault::WrongByte(place)),
        }
        Ok(ControlFlow::Continue(()))
    }

    // How many brackets are open.
    fn depth(&self) -> usize
        ensures { result ≡ open_at self.now.spot + length self.now.outside.items }
    {
        match self.spot {
            TextSpot::Form => self.outside.len(),
            TextSpot::Start(_) | TextSpot::After(_) => self.outside.len() + 1,
        }
    }

    // A bracket opens, where a form is to come.
    fn open(&mut self)
        requires spot { self.old.spot ≡ Form }
        requires room { length self.old.outside.items < 96 }
        ensures spot { self.new.spot ≡ Start Left }
        ensures outside { self.new.outside.items ≡ self.old.outside.items }
    {
        self.spot = TextSpot::Start(Side::Left);
    }

    // The bracket that is open waits for an option of the side.
    fn wait(&mut self, side: Side)
        requires { open_at self.old.spot ≡ 1 }
        ensures form { self.new.spot ≡ Form }
        ensures outside { self.new.outside.items ≡ self.old.outside.items ++ After side ∷ [] }
    {
        self.spot = TextSpot::Form;
        self.outside.push(TextSpot::After(side));
    }

    // The innermost bracket closes: its form is an option of the next one, or the whole.
    fn close(&mut self) -> ControlFlow<()>
        requires { side_at self.old.spot ≡ Some Right }
        ensures on { (q : State) → Stands self.old q
            → MatchControlFlow result (λ _. Stands self.new (next q close_mark))
            (λ _. (g : Game) × (next q close_mark ≡ done g)) }
        ensures stays { MatchControlFlow result (λ _. Unit {0}) (λ _. Unmoved self.old self.new) }
    {
        let Some(spot) = self.outside.pop() else {
            return ControlFlow::Break(());
        };
        self.spot = spot;
        ControlFlow::Continue(())
    }
}
