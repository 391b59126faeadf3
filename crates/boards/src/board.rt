// A board of any kind; every question is handed to the board inside.
ghost use Rattle.boards.specs.AnyBoards.{any_rules};
ghost use Rattle.boards.specs.Fitting.{any_lawful};

use domineering::board::Board;
use games::side::Side;
use hackenbush::picture::Picture;
use rulesets::ruleset::Ruleset;
use toads::strip::Strip;

#[derive(Clone, Copy, Debug, PartialEq, Eq)]
pub enum AnyBoard {
    Domineering(Board),
    Toads(Strip),
    Hackenbush(Picture),
}

// The answer of the board inside.
macro_rules! ask {
    ($any:expr, $board:ident => $answer:expr) => {
        match $any {
            AnyBoard::Domineering($board) => $answer,
            AnyBoard::Toads($board) => $answer,
            AnyBoard::Hackenbush($board) => $answer,
        }
    };
}

impl Ruleset for AnyBoard {
    ghost rules = { any_rules };

    ghost lawful = { λ b. any_lawful b };

    fn limit(&self) -> u64 {
        ask!(self, board => board.limit())
    }

    fn width(&self) -> usize {
        ask!(self, board => board.width())
    }

    fn depth(&self) -> usize {
        ask!(self, board => board.depth())
    }

    fn is_legal(&self, code: u64) -> bool {
        ask!(self, board => board.is_legal(code))
    }

    fn rank(&self, code: u64) -> usize {
        ask!(self, board => board.rank(code))
    }

    fn count(&self, side: Side, code: u64) -> usize {
        ask!(self, board => board.count(side, code))
    }

    fn successor(&self, side: Side, code: u64, index: usize) -> Option<u64> {
        ask!(self, board => board.successor(side, code, index))
    }
}
