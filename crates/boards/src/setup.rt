// Setting up a board from the bytes of its items; bytes that spell no board are refused too.
ghost use Rattle.std.specs.Prelude.{◌≡◌, Err};
ghost use Rattle.rulesets.specs.declared.fault.BoardFault.TheVariants.{Size};
ghost use Rattle.lines.specs.Syntax.{Cell, Edge, Items, Square, domineering, hackenbush, items_of, toads};
ghost use Rattle.boards.specs.AnyBoards.{SetUp, SpellsNone};
ghost use Rattle.boards.specs.Laws.{CellsRead, EdgesStand, RowsRead, SquaresRead};

use crate::board::AnyBoard;
use domineering::board::Board;
use edges::Edges;
use hackenbush::picture::Picture;
use rows::Rows;
use rulesets::fault::BoardFault;
use toads::text::Position;

mod edges;
mod rows;

// A board and the code of the position on it.
#[derive(Clone, Copy, Debug, PartialEq, Eq)]
pub struct Setup {
    pub board: AnyBoard,
    pub code: u64,
}

// The rows have one length, so the squares tell how many they are.
pub fn set_up_domineering(items: &[u8]) -> Result<Setup, BoardFault>
    ensures set { (rows : Items (Items Square)) → items.now ≡ items_of (domineering rows)
        → SetUp (domineering rows) result }
    ensures others { SpellsNone domineering items.now → result ≡ Err Size }
    ensures squares { SquaresRead }
    ensures rowwise { RowsRead }
{
    let read = Rows::read(items).ok_or(BoardFault::Size)?;
    let board = Board::new(read.squares / read.columns, read.columns)?;
    Ok(Setup {
        board: AnyBoard::Domineering(board),
        code: read.code,
    })
}

pub fn set_up_toads(items: &[u8]) -> Result<Setup, BoardFault>
    ensures set { (cells : Items Cell) → items.now ≡ items_of (toads cells)
        → SetUp (toads cells) result }
    ensures others { SpellsNone toads items.now → result ≡ Err Size }
    ensures digits { CellsRead }
{
    let position = Position::read(items).map_err(|_| BoardFault::Size)?;
    Ok(Setup {
        board: AnyBoard::Toads(position.strip),
        code: position.code,
    })
}

// Every edge stands.
pub fn set_up_hackenbush(items: &[u8]) -> Result<Setup, BoardFault>
    ensures set { (edges : Items Edge) → items.now ≡ items_of (hackenbush edges)
        → SetUp (hackenbush edges) result }
    ensures others { SpellsNone hackenbush items.now → result ≡ Err Size }
    ensures standing { EdgesStand }
{
    let edges = Edges::read(items).ok_or(BoardFault::Size)?.edges;
    let picture = Picture::new(edges.as_slice())?;
    Ok(Setup {
        board: AnyBoard::Hackenbush(picture),
        code: (1 << edges.len()) - 1,
    })
}
