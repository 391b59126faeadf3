// The two players.
ghost use Rattle.std.specs.Prelude.{◌≡◌};
ghost use Rattle.games.specs.Sides.{other};

#[derive(Clone, Copy, Debug, PartialEq, Eq)]
pub enum Side {
    Left,
    Right,
}

impl Side {
    // The other player.
    pub fn other(self) -> Side
        ensures { result ≡ other self }
    {
        match self {
            Side::Left => Side::Right,
            Side::Right => Side::Left,
        }
    }
}
