// The words of a line: the first letter tells which word comes.
ghost use Rattle.std.specs.Prelude.{◌≡◌, ℕ, List, []};
ghost use Rattle.lines.specs.Machine.{Symbol, board_word, line_word, side, subject_word};
ghost use Rattle.lines.specs.Spots.{symbols};
ghost use Rattle.lines.specs.Syntax.{spell_side};
ghost use Rattle.lines.specs.Words.{Begins, Word, ask_rest, ask_word, heading_rest, heading_word, kind_spot, kind_word};
ghost use Rattle.lines.specs.WordsLemmas.{ask_leads, heading_leads, kind_leads, side_leads};

use crate::question::Kind;
use crate::spot::{EdgeSpot, Spot};
use games::side::Side;

// What each word stands for, of a few words with different first letters.
pub trait Keyword: Copy {
    // the symbol of the machine where one of the words is to come
    ghost symbol: { Symbol };

    // the word, and what is to come behind it
    ghost spelt: { Self → List ℕ };

    ghost rest: { Self → List Symbol };

    fn from_letter(letter: u8) -> Option<Self>
        ensures { Begins symbol spelt letter result };

    fn word(self) -> &'static [u8]
        ensures { result.now ≡ spelt self };

    ghost leads: { (keyword : Self) → Word symbol (spelt keyword) (rest keyword) };
}

impl Keyword for Side {
    ghost symbol = { side };

    ghost spelt = { spell_side };

    ghost rest = { λ s. [] };

    ghost leads = { side_leads };

    fn from_letter(letter: u8) -> Option<Side> {
        match letter {
            b'L' => Some(Side::Left),
            b'R' => Some(Side::Right),
            _ => None,
        }
    }

    fn word(self) -> &'static [u8] {
        match self {
            Side::Left => b"L",
            Side::Right => b"R",
        }
    }
}

// What a line asks for.
#[derive(Clone, Copy, Debug, PartialEq, Eq)]
pub enum Ask {
    Value,
    Compare,
    Move,
}

impl Keyword for Ask {
    ghost symbol = { line_word };

    ghost spelt = { ask_word };

    ghost rest = { ask_rest };

    ghost leads = { ask_leads };

    fn from_letter(letter: u8) -> Option<Ask> {
        match letter {
            b'v' => Some(Ask::Value),
            b'c' => Some(Ask::Compare),
            b'm' => Some(Ask::Move),
            _ => None,
        }
    }

    fn word(self) -> &'static [u8] {
        match self {
            Ask::Value => b"value ",
            Ask::Compare => b"compare ",
            Ask::Move => b"move ",
        }
    }
}

// What a subject is.
#[derive(Clone, Copy, Debug, PartialEq, Eq)]
pub enum Heading {
    Minus,
    Sum,
    Form,
    Board(Kind),
}

impl Keyword for Heading {
    ghost symbol = { subject_word };

    ghost spelt = { heading_word };

    ghost rest = { heading_rest };

    ghost leads = { heading_leads };

    fn from_letter(letter: u8) -> Option<Heading> {
        match letter {
            b'm' => Some(Heading::Minus),
            b's' => Some(Heading::Sum),
            b'f' => Some(Heading::Form),
            _ => Some(Heading::Board(Kind::from_letter(letter)?)),
        }
    }

    fn word(self) -> &'static [u8] {
        match self {
            Heading::Minus => b"minus ",
            Heading::Sum => b"sum ",
            Heading::Form => b"form ",
            Heading::Board(kind) => kind.word(),
        }
    }
}

impl Keyword for Kind {
    ghost symbol = { board_word };

    ghost spelt = { kind_word };

    ghost rest = { λ kind. symbols (kind_spot kind) };

    ghost leads = { kind_leads };

    fn from_letter(letter: u8) -> Option<Kind> {
        Kind::from_letter(letter)
    }

    fn word(self) -> &'static [u8] {
        Kind::word(self)
    }
}

// The words of boards by name, since other crates do not see the trait.
impl Kind {
    pub fn from_letter(letter: u8) -> Option<Kind>
        ensures { Begins board_word kind_word letter result }
    {
        match letter {
            b'd' => Some(Kind::Domineering),
            b't' => Some(Kind::Toads),
            b'h' => Some(Kind::Hackenbush),
            _ => None,
        }
    }

    pub fn word(self) -> &'static [u8]
        ensures { result.now ≡ kind_word self }
    {
        match self {
            Kind::Domineering => b"domineering ",
            Kind::Toads => b"toads ",
            Kind::Hackenbush => b"hackenbush ",
        }
    }

    // Where a reader stands before the items.
    pub fn first_spot(self) -> Spot
        ensures { result ≡ kind_spot self }
    {
        match self {
            Kind::Domineering => Spot::Square,
            Kind::Toads => Spot::Cell,
            Kind::Hackenbush => Spot::Edge(EdgeSpot::From),
        }
    }
}
