// The edges of a Hackenbush picture, read byte by byte.
ghost use Rattle.std.specs.Prelude.{◌≡◌};
ghost use Rattle.boards.specs.EdgesRead.{closed, colour_read, comma_read, dash_read, digit_read, edge_step, edges_read, longer, part_read};

use arrayvec::ArrayVec;
use hackenbush::edge::{Colour, Edge, LAST_VERTEX};
use hackenbush::picture::MOST_EDGES;

#[derive(Debug, Default, Drop, PartialEq, Eq)]
pub struct Edges {
    // what was read of the edge that is being read
    part: Part,
    // the edges that were read
    pub edges: ArrayVec<Edge, MOST_EDGES>,
}

// How far an edge was read, with the vertices that were read of it.
#[derive(Clone, Copy, Debug, Default, PartialEq, Eq)]
enum Part {
    #[default]
    Nothing,
    // digits of the first vertex
    First(u8),
    // the dash behind it
    Dash(u8),
    // digits of the second vertex too
    Second(u8, u8),
    Whole,
}

impl Part {
    // One digit more of a vertex.
    fn digit(self, digit: u8) -> Option<Part>
        ensures { result ≡ part_read self digit }
    {
        match self {
            Part::Nothing => Some(Part::First(digit)),
            Part::First(from) => Some(Part::First(longer(from, digit)?)),
            Part::Dash(from) => Some(Part::Second(from, digit)),
            Part::Second(from, to) => Some(Part::Second(from, longer(to, digit)?)),
            Part::Whole => None,
        }
    }
}

// A vertex with one digit more; none follows a zero.
fn longer(vertex: u8, digit: u8) -> Option<u8>
    ensures { result ≡ longer vertex digit }
{
    let number = vertex.checked_mul(10)?.checked_add(digit)?;
    (vertex > 0 && number <= LAST_VERTEX).then_some(number)
}

impl Edges {
    // The edges that the bytes spell; `None` where they spell none,
    // are too many or have a vertex that is too high.
    pub fn read(items: &[u8]) -> Option<Edges>
        ensures { result ≡ edges_read items.now }
    {
        items
            .iter()
            .try_fold(Edges::default(), |edges, byte| edges.step(*byte))?
            .close()
    }

    fn step(self, byte: u8) -> Option<Edges>
        ensures { result ≡ edge_step self byte }
    {
        match byte {
            b'0'..=b'9' => self.digit(byte - b'0'),
            b'-' => self.dash(),
            b'L' => self.colour(Colour::Left),
            b'R' => self.colour(Colour::Right),
            b'B' => self.colour(Colour::Both),
            b',' => self.comma(),
            _ => None,
        }
    }

    // One digit more of a vertex.
    fn digit(self, digit: u8) -> Option<Edges>
        ensures { result ≡ digit_read self digit }
    {
        let part = self.part.digit(digit)?;
        Some(Edges { part, ..self })
    }

    // The end of an edge's first vertex.
    fn dash(self) -> Option<Edges>
        ensures { result ≡ dash_read self }
    {
        match self.part {
            Part::First(from) => Some(Edges {
                part: Part::Dash(from),
                ..self
            }),
            _ => None,
        }
    }

    // The end of an edge.
    fn colour(mut self, colour: Colour) -> Option<Edges>
        ensures { result ≡ colour_read self colour }
    {
        let Part::Second(from, to) = self.part else {
            return None;
        };
        self.edges.try_push(Edge { from, to, colour }).ok()?;
        Some(Edges {
            part: Part::Whole,
            ..self
        })
    }

    // The comma before another edge.
    fn comma(self) -> Option<Edges>
        ensures { result ≡ comma_read self }
    {
        match self.part {
            Part::Whole => Some(Edges {
                part: Part::Nothing,
                ..self
            }),
            _ => None,
        }
    }

    // The end of the bytes.
    fn close(self) -> Option<Edges>
        ensures { result ≡ closed self }
    {
        match self.part {
            Part::Whole => Some(self),
            _ => None,
        }
    }
}
