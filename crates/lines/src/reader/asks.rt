// What a line asks.
ghost use Rattle.std.specs.Prelude.{[], ◌∷◌};
ghost use Rattle.lines.specs.Machine.{line};
ghost use Rattle.lines.specs.Reading.{QuestionRead, QuestionRest, Reads};
ghost use Rattle.lines.specs.Words.{ask_rest};

use super::Reader;
use crate::question::Question;
use crate::words::Ask;
use calls::fault::TextFault;

impl<'a> Reader<'a> {
    // Behind the word that says what is asked.
    fn asked(&mut self, ask: Ask) -> Result<Question<'a>, TextFault>
        ensures { Reads self.old self.new (ask_rest ask) (QuestionRest ask self.old.at) result }
    {
        match ask {
            Ask::Value => Ok(Question::Value(self.closed()?)),
            Ask::Compare => {
                let (first, second) = self.pair()?;
                Ok(Question::Compare(first, second))
            }
            Ask::Move => {
                let (side, board) = self.pair()?;
                Ok(Question::Move(side, board))
            }
        }
    }

    pub fn question(&mut self) -> Result<Question<'a>, TextFault>
        ensures { Reads self.old self.new (line ∷ []) (QuestionRead self.old.at) result }
    {
        self.expect(b'(')?;
        let ask = self.keyword()?;
        self.asked(ask)
    }
}
