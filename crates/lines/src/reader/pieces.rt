// The pieces of a line that stand in brackets, alone or two by two.
ghost use Rattle.std.specs.Prelude.{◌≡◌, ℕ, List, [], ◌∷◌, refl};
ghost use Rattle.lines.specs.Machine.{Symbol, just, side, text, weight};
ghost use Rattle.lines.specs.Reading.{ClosedRead, PairRead, Reads, SideRead, TextRead};

use super::Reader;
use crate::question::Part;
use calls::fault::TextFault;
use calls::nest::Nest;
use games::side::Side;

// What is read as a whole: a side, a board, a subject, or the text of a form.
pub trait Piece<'a>: Copy {
    // the symbol of the machine where it is to come, and what it tells of its text,
    // by the place where that begins
    ghost symbol: { Symbol };

    ghost tells: { ℕ → Self → List ℕ → Type 0 };

    // it begins outside a text
    ghost quiet: { weight symbol ≡ 0 };

    fn read(reader: &mut Reader<'a>) -> Result<Self, TextFault>
        ensures { Reads reader.old reader.new (symbol ∷ []) (tells reader.old.at) result };
}

impl<'a> Reader<'a> {
    // Takes a piece and the closing bracket.
    pub(super) fn closed<P: Piece<'a>>(&mut self) -> Result<P, TextFault>
        ensures { Reads self.old self.new (P.symbol ∷ just 41 ∷ []) (ClosedRead P.tells self.old.at)
            result }
    {
        let piece = P::read(self)?;
        self.expect(b')')?;
        Ok(piece)
    }

    // Takes two pieces with a blank between them, and the closing bracket.
    pub(super) fn pair<P: Piece<'a>, Q: Piece<'a>>(&mut self) -> Result<(P, Q), TextFault>
        ensures { Reads self.old self.new (P.symbol ∷ just 32 ∷ Q.symbol ∷ just 41 ∷ [])
            (PairRead P.tells Q.tells self.old.at) result }
    {
        let first = P::read(self)?;
        self.expect(b' ')?;
        let second = Q::read(self)?;
        self.expect(b')')?;
        Ok((first, second))
    }
}

impl<'a> Piece<'a> for Side {
    ghost symbol = { side };

    ghost tells = { SideRead };

    ghost quiet = { refl };

    fn read(reader: &mut Reader<'a>) -> Result<Side, TextFault> {
        reader.keyword()
    }
}

// The text of a form.
impl<'a> Piece<'a> for Part<'a> {
    ghost symbol = { text };

    ghost tells = { TextRead };

    ghost quiet = { refl };

    fn read(reader: &mut Reader<'a>) -> Result<Part<'a>, TextFault> {
        let place = reader.at;
        reader.walk(Nest::default())?;
        Ok(reader.part(place, reader.at))
    }
}
