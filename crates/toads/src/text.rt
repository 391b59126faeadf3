// A position read from a strip's characters.
ghost use Rattle.std.specs.Prelude.{◌≡◌, ◌≤◌, length, position};
ghost use Rattle.toads.specs.Laws.{CodeReads};
ghost use Rattle.toads.specs.Strips.{Read, code_of, first_wrong, no_cell, text_fault_number};
ghost use Rattle.toads.specs.declared.text.TextFault.TheVariants.{Size};

use crate::cell::Cell;
use crate::strip::Strip;
use rulesets::fault::BoardFault;

// Why a text is no strip: the place of a character that stands for no cell, or the number of cells.
#[derive(Clone, Copy, Debug, PartialEq, Eq)]
pub enum TextFault {
    Character(usize),
    Size,
}

impl TextFault {
    // The number by which the refusal is known.
    pub fn number(self) -> u8
        ensures { result ≡ text_fault_number self }
    {
        match self {
            TextFault::Character(_) => 6,
            TextFault::Size => 10,
        }
    }
}

impl From<BoardFault> for TextFault {
    ghost from_gives = { λ e r. r ≡ Size };

    fn from(value: BoardFault) -> TextFault {
        match value {
            BoardFault::Size => TextFault::Size,
        }
    }
}

// A strip and the code of a position on it.
#[derive(Clone, Copy, Debug, PartialEq, Eq)]
pub struct Position {
    pub strip: Strip,
    pub code: u64,
}

impl Position {
    // Reads a text of `T`, `F` and `.`, one for each cell.
    pub fn read(text: &[u8]) -> Result<Position, TextFault>
        ensures read { Read text.now result }
        ensures means { CodeReads text.now }
    {
        if let Some(place) = wrong_character(text) {
            return Err(TextFault::Character(place));
        }
        let strip = Strip::new(text.len())?;
        let code = code_of(text);
        Ok(Position { strip, code })
    }
}

// The place of the first character that stands for no cell.
fn wrong_character(text: &[u8]) -> Option<usize>
    ensures { result ≡ position no_cell text.now }
{
    text.iter()
        .position(|byte| Cell::try_from(char::from(*byte)).is_err())
}

// The code of at most 12 cells, the first of them the lowest digit.
fn code_of(text: &[u8]) -> u64
    requires few { length text.now ≤ 12 }
    requires cells { first_wrong text.now ≡ None }
    ensures { result ≡ code_of text.now }
{
    let mut code = 0;
    for (place, byte) in text.iter().enumerate() {
        let cell = Cell::try_from(char::from(*byte)).unwrap();
        code += u64::from(cell) << (2 * place);
    }
    code
}
