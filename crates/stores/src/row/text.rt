// How the numbers of both sides are written: {Left list|Right list}.
ghost use Rattle.std.specs.Prelude.{Some};
ghost use Rattle.stores.specs.Reading.{lists_of};
ghost use Rattle.stores.specs.Texts.{row_text};

use super::Sides;
use std::fmt;

impl<const MOST: usize> fmt::Display for Sides<MOST> {
    ghost output = { λ row. Some (row_text (lists_of row)) };

    fn fmt<W: fmt::Write>(&self, f: &mut fmt::Formatter<W>) -> fmt::Result {
        write!(f, "{{{}|{}}}", self.left, self.right)
    }
}
