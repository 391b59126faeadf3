// Positions of every board, a minus and sums, valued in one dictionary.
use crate::samples::stalk;
use crate::shown::{Shown, begin_under};
use crate::told::{tell, text};
use dictionary::dictionary::Dictionary;
use domineering::board::Board;
use games::bounds::MOST_NODES;
use games::side::Side;
use hackenbush::edge::Colour;
use rulesets::ruleset::Ruleset;
use stores::store::Store;
use sums::minus::Minus;
use sums::sum::Sum;
use toads::text::Position;
use valuing::first_move::first_move_with;
use valuing::recall::Recall;
use valuing::value::value_with;

// How much is told of a node.
#[derive(Clone, Copy, Debug, PartialEq, Eq)]
pub enum Detail {
    Outcome,
    OutcomeAndText,
}

// A dictionary, what is lent to each call of valuing, and how much is told of a node.
#[derive(Drop)]
struct Desk<S: Store, M> {
    dictionary: Dictionary<S>,
    memory: M,
    detail: Detail,
}

// Values positions of every board over a store, and looks for first moves that win.
pub fn show_values<S: Shown, M: Recall + Drop>(
    rt: &HostRuntime,
    memory: M,
    detail: Detail,
) -> anyhow::Result<()> {
    let Some(dictionary) = begin_under::<S>(rt, MOST_NODES, "over ", "")? else {
        return Ok(());
    };
    let mut desk = Desk {
        dictionary,
        memory,
        detail,
    };
    desk.strip(rt, "T.F")?;
    desk.boards(rt)?;
    desk.strip(rt, "TF.")?;
    desk.pictures(rt)?;
    desk.first_moves(rt)
}

impl<S: Store, M: Recall> Desk<S, M> {
    fn strip(&mut self, rt: &HostRuntime, cells: &str) -> anyhow::Result<()> {
        if let Ok(position) = Position::read(cells.as_bytes()) {
            self.value(rt, cells, &position.strip, position.code)?;
        }
        Ok(())
    }

    fn boards(&mut self, rt: &HostRuntime) -> anyhow::Result<()> {
        let cell = Board::new(1, 1).unwrap();
        let square = Board::new(2, 2).unwrap();
        self.value(rt, ".", &cell, 0)?;
        self.value(rt, "#./..", &square, 1)?;
        self.value(rt, "../..", &square, 0)?;
        self.value(rt, "a code at the limit", &square, 16)
    }

    // Two pictures of two edges, a minus, and sums with it.
    fn pictures(&mut self, rt: &HostRuntime) -> anyhow::Result<()> {
        let half = stalk(Colour::Right);
        let minus = Minus::new(half);
        self.value(rt, "0-1L,1-2R", &half, 3)?;
        self.value(rt, "0-1L,1-2B", &stalk(Colour::Both), 3)?;
        self.value(rt, "minus 0-1L,1-2R", &minus, 3)?;
        if let Ok(zero) = Sum::new(half, minus) {
            self.value(rt, "0-1L,1-2R and its minus", &zero, 15)?;
            if let Ok(nested) = Sum::new(half, zero) {
                self.value(rt, "0-1L,1-2R and that sum", &nested, 63)?;
            }
        }
        self.value(rt, "0-1L,1-2R, the red edge floating", &half, 2)
    }

    // The value of a position.
    fn value<R: Ruleset>(
        &mut self,
        rt: &HostRuntime,
        name: &str,
        board: &R,
        code: u64,
    ) -> anyhow::Result<()> {
        match value_with(&mut self.dictionary, &mut self.memory, board, code) {
            Ok(node) => self.node(rt, name, node)?,
            Err(fault) => println!(rt; "{name}: refused with {}", fault.number())?,
        }
        Ok(())
    }

    fn node(&self, rt: &HostRuntime, name: &str, node: u16) -> anyhow::Result<()> {
        tell(rt, &self.dictionary, name, node)?;
        if self.detail == Detail::OutcomeAndText
            && let Ok(text) = text(&self.dictionary, node, &mut [0; 64])
        {
            println!(rt; "  {}", std::str::from_utf8(text)?)?;
        }
        Ok(())
    }

    // First moves on a strip, and on two cells one above the other.
    fn first_moves(&mut self, rt: &HostRuntime) -> anyhow::Result<()> {
        if let Ok(position) = Position::read(b"T.F") {
            let Position { strip, code } = position;
            self.first_move(rt, "Left on T.F", &strip, Side::Left, code)?;
        }
        let column = Board::new(2, 1).unwrap();
        self.first_move(rt, "Left on ./.", &column, Side::Left, 0)?;
        self.first_move(rt, "Right on ./.", &column, Side::Right, 0)?;
        self.first_move(rt, "Right on a code at the limit", &column, Side::Right, 4)
    }

    // The earliest first move that wins for the side.
    fn first_move<R: Ruleset>(
        &mut self,
        rt: &HostRuntime,
        name: &str,
        board: &R,
        side: Side,
        code: u64,
    ) -> anyhow::Result<()> {
        match first_move_with(&mut self.dictionary, &mut self.memory, board, side, code) {
            Ok(Some(index)) => println!(rt; "{name}: wins with move {index}")?,
            Ok(None) => println!(rt; "{name}: no move wins")?,
            Err(fault) => println!(rt; "{name}: refused with {}", fault.number())?,
        }
        Ok(())
    }
}
