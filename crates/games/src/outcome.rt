// How two games compare, and the outcome of one.
ghost use Rattle.std.specs.Prelude.{◌≡◌, not, Some, [], ◌∷◌};
ghost use Rattle.games.specs.Form.{Form, 𝟎};
ghost use Rattle.games.specs.Laws.{PlayTellsTheOrder};
ghost use Rattle.games.specs.Outcomes.{against_zero, compare, comparison, letter, outcome, sign};
ghost use Rattle.games.specs.Play.{wins};
ghost use Rattle.games.specs.declared.side.Side.TheVariants.{Left, Right};

use std::fmt;

// How G and H compare: < is `Less`, > is `Greater`, = is `Equal`, and || is `Confused`.
#[derive(Clone, Copy, Debug, PartialEq, Eq)]
pub enum Comparison {
    Less,
    Greater,
    Equal,
    Confused,
}

// The four outcome classes: P, N, L and R.
#[derive(Clone, Copy, Debug, PartialEq, Eq)]
pub enum Outcome {
    Zero,
    Fuzzy,
    Positive,
    Negative,
}

impl Comparison {
    // How two games compare, told by who can win when starting their difference.
    pub fn by_play(left_can_win: bool, right_can_win: bool) -> Comparison
        ensures value { result ≡ comparison (not right_can_win) (not left_can_win) }
        ensures compares { (g h : Form) → wins Left g h ≡ left_can_win
            → wins Right g h ≡ right_can_win → result ≡ compare g h }
        ensures theory { PlayTellsTheOrder }
    {
        match (left_can_win, right_can_win) {
            (false, false) => Comparison::Equal,
            (true, false) => Comparison::Greater,
            (false, true) => Comparison::Less,
            (true, true) => Comparison::Confused,
        }
    }

    // The sign by which a comparison is written.
    pub fn sign(self) -> &'static str
        ensures { result.now ≡ sign self }
    {
        match self {
            Comparison::Less => "<",
            Comparison::Greater => ">",
            Comparison::Equal => "=",
            Comparison::Confused => "||",
        }
    }
}

// The outcome of a game that compares so with 0.
impl From<Comparison> for Outcome {
    ghost from_gives = { λ comparison r. r ≡ against_zero comparison };

    fn from(value: Comparison) -> Outcome {
        match value {
            Comparison::Equal => Outcome::Zero,
            Comparison::Confused => Outcome::Fuzzy,
            Comparison::Greater => Outcome::Positive,
            Comparison::Less => Outcome::Negative,
        }
    }
}

impl Outcome {
    // The outcome of a game, told by who can win when starting it.
    pub fn by_play(left_can_win: bool, right_can_win: bool) -> Outcome
        ensures value { result ≡ against_zero (comparison (not right_can_win) (not left_can_win)) }
        ensures classes { (g : Form) → wins Left g 𝟎 ≡ left_can_win → wins Right g 𝟎 ≡ right_can_win
            → result ≡ outcome g }
    {
        Outcome::from(Comparison::by_play(left_can_win, right_can_win))
    }

    // The letter by which an outcome is written.
    pub fn letter(self) -> char
        ensures { result ≡ letter self }
    {
        match self {
            Outcome::Zero => 'P',
            Outcome::Fuzzy => 'N',
            Outcome::Positive => 'L',
            Outcome::Negative => 'R',
        }
    }
}

impl fmt::Display for Comparison {
    ghost output = { λ comparison. Some (sign comparison) };

    fn fmt<W: fmt::Write>(&self, f: &mut fmt::Formatter<W>) -> fmt::Result {
        f.write_str(self.sign())
    }
}

impl fmt::Display for Outcome {
    ghost output = { λ outcome. Some (letter outcome ∷ []) };

    fn fmt<W: fmt::Write>(&self, f: &mut fmt::Formatter<W>) -> fmt::Result {
        f.write_char(self.letter())
    }
}
