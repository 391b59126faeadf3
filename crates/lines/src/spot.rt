// Where a reader stands in the items of a board: which bytes may come, and where each leads.
ghost use Rattle.lines.specs.Spots.{edge_symbols, symbols};
ghost use Rattle.lines.specs.Walks.{Stepped};
ghost use Rattle.lines.specs.WalksLemmas.{spot_ongoing};

use crate::walk::Walk;
use calls::fault::TextFault;
use std::ops::ControlFlow;

// In an edge; behind a vertex 0 there is no further digit.
#[derive(Clone, Copy, Debug, PartialEq, Eq)]
pub enum EdgeSpot {
    From,
    Dash,
    FromDigits,
    To,
    Colour,
    ToDigits,
    MoreEdges,
}

#[derive(Clone, Copy, Debug, PartialEq, Eq)]
pub enum Spot {
    Square,
    MoreSquares,
    Cell,
    MoreCells,
    Edge(EdgeSpot),
}

impl Walk for Spot {
    ghost stack = { symbols };

    ghost last = { 41 };

    ghost ongoing = { spot_ongoing };

    fn step(&mut self, byte: u8, place: usize) -> Result<ControlFlow<()>, TextFault> {
        if let Spot::Edge(spot) = self {
            return spot.step(byte, place);
        }
        *self = match (*self, byte) {
            (Spot::Square | Spot::MoreSquares, b'.' | b'#') => Spot::MoreSquares,
            (Spot::MoreSquares, b'/') => Spot::Square,
            (Spot::Cell | Spot::MoreCells, b'T' | b'F' | b'.') => Spot::MoreCells,
            (Spot::MoreSquares | Spot::MoreCells, b')') => return Ok(ControlFlow::Break(())),
            _ => return Err(TextFault::WrongByte(place)),
        };
        Ok(ControlFlow::Continue(()))
    }
}

impl EdgeSpot {
    fn step(&mut self, byte: u8, place: usize) -> Result<ControlFlow<()>, TextFault>
        ensures { Stepped 41 (edge_symbols self.old) (edge_symbols self.new) byte place result }
    {
        *self = match (*self, byte) {
            (EdgeSpot::From, b'0') => EdgeSpot::Dash,
            (EdgeSpot::From, b'1'..=b'9') => EdgeSpot::FromDigits,
            (EdgeSpot::FromDigits, b'0'..=b'9') => EdgeSpot::FromDigits,
            (EdgeSpot::FromDigits | EdgeSpot::Dash, b'-') => EdgeSpot::To,
            (EdgeSpot::To, b'0') => EdgeSpot::Colour,
            (EdgeSpot::To, b'1'..=b'9') => EdgeSpot::ToDigits,
            (EdgeSpot::ToDigits, b'0'..=b'9') => EdgeSpot::ToDigits,
            (EdgeSpot::ToDigits | EdgeSpot::Colour, b'L' | b'R' | b'B') => EdgeSpot::MoreEdges,
            (EdgeSpot::MoreEdges, b',') => EdgeSpot::From,
            (EdgeSpot::MoreEdges, b')') => return Ok(ControlFlow::Break(())),
            _ => return Err(TextFault::WrongByte(place)),
        };
        Ok(ControlFlow::Continue(()))
    }
}
