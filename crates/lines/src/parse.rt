// A line taken apart.
ghost use Rattle.lines.specs.Questions.{Parsed};

use crate::question::Question;
use crate::reader::Reader;
use calls::fault::TextFault;

// The parts of a line of the calculator, or its fault.
pub fn parse(line: &[u8]) -> Result<Question<'_>, TextFault>
    ensures { Parsed line.now result }
{
    let mut reader = Reader::new(line);
    let question = reader.question()?;
    reader.end()?;
    Ok(question)
}
