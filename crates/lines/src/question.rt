// What a line asks, as parts of the line.
use games::side::Side;

// Some bytes of the line, and the place where they begin.
#[derive(Clone, Copy, Debug, PartialEq, Eq)]
pub struct Part<'a> {
    pub place: usize,
    pub bytes: &'a [u8],
}

#[derive(Clone, Copy, Debug, PartialEq, Eq)]
pub enum Kind {
    Domineering,
    Toads,
    Hackenbush,
}

// A board: the place of its opening bracket, and its items.
#[derive(Clone, Copy, Debug, PartialEq, Eq)]
pub struct Board<'a> {
    pub place: usize,
    pub kind: Kind,
    pub items: Part<'a>,
}

#[derive(Clone, Copy, Debug, PartialEq, Eq)]
pub enum Content<'a> {
    Plain(Board<'a>),
    Minus(Board<'a>),
    Sum(Board<'a>, Board<'a>),
    Form(Part<'a>),
}

// What is valued or compared, and the place of its opening bracket.
#[derive(Clone, Copy, Debug, PartialEq, Eq)]
pub struct Subject<'a> {
    pub place: usize,
    pub content: Content<'a>,
}

#[derive(Clone, Copy, Debug, PartialEq, Eq)]
pub enum Question<'a> {
    Value(Subject<'a>),
    Compare(Subject<'a>, Subject<'a>),
    Move(Side, Board<'a>),
}
