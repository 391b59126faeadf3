// How brackets are opened and closed.
ghost use Rattle.std.specs.Prelude.{◌≡◌, ℕ, ◌<◌, List, [], ◌∷◌, length};
ghost use Rattle.games.specs.Reader.{brackets, Bracket, finish};
ghost use Rattle.calls.specs.Brackets.{put_outside};
ghost use Rattle.games.specs.Form.{Form};
ghost use Rattle.games.specs.Numbered.{Lists};
ghost use Rattle.reading.specs.declared.frames.Frame.{Frame as FrameOf};
ghost use Rattle.reading.specs.Held.{Fresh, Holds, Popped, Turned, stack_of};

use super::{Frame, Frames};
use crate::options::Options;
use arrayvec::ArrayVec;
use games::side::Side;

impl<T: Options> Default for Frame<T> {
    ghost is_default = { Fresh T.Options.keeps };

    // A bracket without options.
    fn default() -> Frame<T> {
        Frame {
            side: Side::Left,
            options: T::default(),
        }
    }
}

impl<T: Options> Default for Frames<T> {
    ghost is_default = { λ frames. stack_of frames ≡ [] };

    // No bracket is open.
    fn default() -> Frames<T> {
        Frames {
            items: ArrayVec::new(),
        }
    }
}

impl<T: Options> Frames<T> {
    // A bracket more.
    pub(crate) fn open(&mut self)
        requires { length (stack_of self.old) < 96 }
        ensures { (f : FrameOf T) × Fresh T.Options.keeps f
            × (stack_of self.new ≡ f ∷ stack_of self.old) }
    {
        self.items.push(Frame::default());
    }

    // The innermost bracket, if one is open, goes over to its Right options.
    pub(crate) fn bar(&mut self)
        ensures { Turned (stack_of self.old) (stack_of self.new) }
    {
        let top = self.items.len().saturating_sub(1);
        if let Some(frame) = self.items.get_mut(top) {
            frame.side = Side::Right;
        }
    }

    // The innermost bracket, if one is open, goes: what it keeps of its options.
    pub(crate) fn close(&mut self) -> Option<T>
        ensures { Popped (stack_of self.old) result (stack_of self.new) }
    {
        Some(self.items.pop()?.options)
    }

    // A node is an option of the innermost bracket, if one is open.
    pub(crate) fn put(&mut self, node: u16)
        ensures { node < 384 → (g : Form) (bs : List Bracket) (ls : List Lists)
            → Holds T.Options.keeps (stack_of self.old) bs ls
            → Holds T.Options.keeps (stack_of self.new) (brackets (finish g bs))
            (put_outside node bs ls) }
    {
        let top = self.items.len().saturating_sub(1);
        if let Some(frame) = self.items.get_mut(top) {
            frame.options.put(frame.side, node);
        }
    }
}
