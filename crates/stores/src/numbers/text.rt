// How such a list is written: its numbers, with commas between them.
ghost use Rattle.std.specs.Prelude.{Some};
ghost use Rattle.stores.specs.Reading.{numbers_of};
ghost use Rattle.stores.specs.Texts.{numbers_text};

use super::Numbers;
use std::fmt;

impl<const MOST: usize> fmt::Display for Numbers<MOST> {
    ghost output = { λ numbers. Some (numbers_text (numbers_of numbers)) };

    fn fmt<W: fmt::Write>(&self, f: &mut fmt::Formatter<W>) -> fmt::Result {
        if let [first, rest @ ..] = self.list() {
            write!(f, "{first}")?;
            for number in rest {
                write!(f, ",{number}")?;
            }
        }
        Ok(())
    }
}
