// A reader over a line, which hands out its parts.
ghost use Rattle.std.specs.Prelude.{◌≡◌, ◌-◌, ◌<◌, ◌≤◌, [], ◌∷◌, length, take, drop, MatchResult, slice_index};
ghost use Rattle.calls.specs.declared.fault.TextFault.TheVariants.{EarlyEnd, WrongByte};
ghost use Rattle.lines.specs.Machine.{letters};
ghost use Rattle.lines.specs.Reading.{Expects, Reads, Takes, Walked};

use crate::question::Part;
use crate::walk::Walk;
use crate::words::Keyword;
use calls::fault::TextFault;

mod asks;
mod pieces;
mod subjects;

#[derive(Clone, Copy, Debug, PartialEq, Eq)]
pub struct Reader<'a> {
    line: &'a [u8],
    at: usize,
}

impl<'a> Reader<'a> {
    pub fn new(line: &'a [u8]) -> Reader<'a>
        ensures line { result.line.now ≡ line.now }
        ensures at { result.at ≡ 0 }
    {
        Reader { line, at: 0 }
    }

    // The byte at the cursor.
    fn peek(&self) -> Result<u8, TextFault>
        ensures { MatchResult result (λ b. (self.now.at < length self.now.line.now)
            × (b ≡ slice_index self.now.line.now self.now.at))
            (λ f. (length self.now.line.now ≤ self.now.at) × (f ≡ EarlyEnd self.now.at)) }
    {
        self.line
            .get(self.at)
            .copied()
            .ok_or(TextFault::EarlyEnd(self.at))
    }

    // Refuses a byte behind the end.
    pub fn end(&self) -> Result<(), TextFault>
        ensures { MatchResult result (λ _. length self.now.line.now ≤ self.now.at)
            (λ f. (self.now.at < length self.now.line.now) × (f ≡ WrongByte self.now.at)) }
    {
        if self.at < self.line.len() {
            return Err(TextFault::WrongByte(self.at));
        }
        Ok(())
    }

    // The bytes from the place up to the end.
    fn part(&self, place: usize, end: usize) -> Part<'a>
        requires order { place ≤ end }
        requires within { end ≤ length self.now.line.now }
        ensures begins { result.place ≡ place }
        ensures holds { result.bytes.now ≡ take (end - place) (drop place self.now.line.now) }
    {
        Part {
            place,
            bytes: &self.line[place..end],
        }
    }

    // Takes one byte, which must be this one.
    fn expect(&mut self, byte: u8) -> Result<(), TextFault>
        ensures { Expects self.old self.new byte result }
    {
        if self.peek()? != byte {
            return Err(TextFault::WrongByte(self.at));
        }
        self.at += 1;
        Ok(())
    }

    // Takes these bytes.
    fn spell(&mut self, bytes: &[u8]) -> Result<(), TextFault>
        ensures { Reads self.old self.new (letters bytes.now) (λ _ w. w ≡ bytes.now) result }
    {
        for byte in bytes {
            self.expect(*byte)?;
        }
        Ok(())
    }

    // Takes one of the words, which its first letter tells.
    fn keyword<K: Keyword>(&mut self) -> Result<K, TextFault>
        ensures { Takes self.old self.new (K.symbol ∷ []) K.rest (λ keyword w. w ≡ K.spelt keyword)
            result }
    {
        let keyword = K::from_letter(self.peek()?).ok_or(TextFault::WrongByte(self.at))?;
        self.at += 1;
        self.spell(&keyword.word()[1..])?;
        Ok(keyword)
    }

    // Takes the bytes of a walk from its start, the last one too.
    fn walk<W: Walk>(&mut self, start: W) -> Result<(), TextFault>
        ensures { Reads self.old self.new (W.stack start) (λ _ w. Walked (W.stack start) W.last w)
            result }
    {
        let mut walk = start;
        while walk.step(self.peek()?, self.at)?.is_continue() {
            self.at += 1;
        }
        self.at += 1;
        Ok(())
    }
}
