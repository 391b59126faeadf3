// Boards, and what is valued or compared.
ghost use Rattle.std.specs.Prelude.{[], ◌∷◌, refl};
ghost use Rattle.lines.specs.Machine.{board, subject};
ghost use Rattle.lines.specs.Reading.{BoardRead, BoardRest, ContentRest, Reads, SubjectRead};
ghost use Rattle.lines.specs.Spots.{symbols};
ghost use Rattle.lines.specs.Words.{heading_rest, kind_spot};

use super::Reader;
use super::pieces::Piece;
use crate::question::{Board, Content, Kind, Subject};
use crate::words::Heading;
use calls::fault::TextFault;

impl<'a> Reader<'a> {
    // The items of a board of this kind, whose opening bracket stands at the place,
    // and the closing bracket.
    fn items(&mut self, place: usize, kind: Kind) -> Result<Board<'a>, TextFault>
        ensures { Reads self.old self.new (symbols (kind_spot kind))
            (BoardRest place kind self.old.at) result }
    {
        let start = self.at;
        self.walk(kind.first_spot())?;
        let items = self.part(start, self.at - 1);
        Ok(Board { place, kind, items })
    }

    // Behind the heading of a subject whose opening bracket stands at the place.
    fn content(&mut self, place: usize, heading: Heading) -> Result<Content<'a>, TextFault>
        ensures { Reads self.old self.new (heading_rest heading)
            (ContentRest place heading self.old.at) result }
    {
        match heading {
            Heading::Minus => Ok(Content::Minus(self.closed()?)),
            Heading::Sum => {
                let (first, second) = self.pair()?;
                Ok(Content::Sum(first, second))
            }
            Heading::Form => Ok(Content::Form(self.closed()?)),
            Heading::Board(kind) => Ok(Content::Plain(self.items(place, kind)?)),
        }
    }
}

impl<'a> Piece<'a> for Board<'a> {
    ghost symbol = { board };

    ghost tells = { BoardRead };

    ghost quiet = { refl };

    fn read(reader: &mut Reader<'a>) -> Result<Board<'a>, TextFault> {
        let place = reader.at;
        reader.expect(b'(')?;
        let kind = reader.keyword()?;
        reader.items(place, kind)
    }
}

impl<'a> Piece<'a> for Subject<'a> {
    ghost symbol = { subject };

    ghost tells = { SubjectRead };

    ghost quiet = { refl };

    fn read(reader: &mut Reader<'a>) -> Result<Subject<'a>, TextFault> {
        let place = reader.at;
        reader.expect(b'(')?;
        let heading = reader.keyword()?;
        let content = reader.content(place, heading)?;
        Ok(Subject { place, content })
    }
}
