// An edge of a picture: its two ends and who may cut it.
ghost use Rattle.std.specs.Prelude.{◌≡◌, ℕ, true, ◌||◌, ◌==◌};
ghost use Rattle.bits.specs.Bits.{bit};
ghost use Rattle.hackenbush.specs.Hackenbush.{cuts, near_edge};

use games::side::Side;

// Vertices go from 0 to this.
pub const LAST_VERTEX: u8 = 15;

#[derive(Clone, Copy, Debug, Default, PartialEq, Eq)]
pub enum Colour {
    Left,
    Right,
    #[default]
    Both,
}

impl Colour {
    // Whether the side may cut an edge of this colour.
    pub fn is_cut_by(self, side: Side) -> bool
        ensures { result ≡ cuts side self }
    {
        matches!(
            (self, side),
            (Colour::Both, _) | (Colour::Left, Side::Left) | (Colour::Right, Side::Right)
        )
    }
}

// A loop has one vertex at both ends; the order of the ends does not matter.
// What `Default` makes fills places that no count reaches.
#[derive(Clone, Copy, Debug, Default, PartialEq, Eq)]
pub struct Edge {
    pub from: u8,
    pub to: u8,
    pub colour: Colour,
}

impl Edge {
    // Whether both its ends are vertices of a picture.
    pub(crate) fn is_near(&self) -> bool
        ensures { result ≡ near_edge self.now }
    {
        self.from <= LAST_VERTEX && self.to <= LAST_VERTEX
    }

    // Its two ends, as a set of vertices.
    pub(crate) fn ends(&self) -> u64
        requires { near_edge self.now ≡ true }
        ensures { (v : ℕ) → bit result v ≡ (v == self.now.from || v == self.now.to) }
    {
        (1 << self.from) | (1 << self.to)
    }
}
