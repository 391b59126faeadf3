// Domineering as a ruleset: masks of cells, so that no question walks over the board.
ghost use Rattle.std.specs.Prelude.{◌≡◌, ℕ, ◌*◌, ◌||◌, ◌==◌};
ghost use Rattle.bits.specs.Bits.{bit};
ghost use Rattle.domineering.specs.Domineering.{fits, free, legal, reach};
ghost use Rattle.domineering.specs.Told.{Told};
ghost use Rattle.domineering.specs.Making.{board_rules};
ghost use Rattle.domineering.specs.Lawful.{domineering_lawful};

use super::{Board, MOST_CELLS};
use bits::{count_bits, nth_bit};
use games::side::Side;
use rulesets::ruleset::Ruleset;

impl Board {
    // The empty cells, when the code is legal.
    fn empty(&self, code: u64) -> Option<u64>
        ensures { Told (legal self.now.rows self.now.columns code)
            (free (self.now.rows * self.now.columns) code) result }
    {
        self.is_legal(code).then_some(self.full & !code)
    }

    // The first cells of the dominoes that the side can put, when the code is legal.
    fn openings(&self, side: Side, code: u64) -> Option<u64>
        ensures { Told (legal self.now.rows self.now.columns code)
            (fits side self.now.rows self.now.columns code) result }
    {
        let empty = self.empty(code)?;
        let openings = match side {
            Side::Left => empty & (empty >> self.columns),
            Side::Right => empty & (empty >> 1) & self.inner,
        };
        Some(openings)
    }

    // The side's domino at cell 0.
    fn domino(&self, side: Side) -> u64
        ensures { (i : ℕ) → bit result i ≡ (i == 0 || i == reach side self.now.columns) }
    {
        match side {
            Side::Left => 1 | (1 << self.columns),
            Side::Right => 3,
        }
    }
}

impl Ruleset for Board {
    ghost rules = { board_rules };

    ghost lawful = { λ b. domineering_lawful b.rows b.columns b.small };

    fn limit(&self) -> u64 {
        self.full + 1
    }

    fn width(&self) -> usize {
        MOST_CELLS
    }

    // Every domino covers two cells.
    fn depth(&self) -> usize {
        MOST_CELLS / 2
    }

    fn is_legal(&self, code: u64) -> bool {
        code <= self.full
    }

    #[tactic(auto, using(crate::specs::Moves::rank_is))]
    fn rank(&self, code: u64) -> usize {
        self.empty(code).map_or(0, |empty| count_bits(empty) / 2)
    }

    #[tactic(auto, using(crate::specs::Moves::count_is))]
    fn count(&self, side: Side, code: u64) -> usize {
        self.openings(side, code).map_or(0, count_bits)
    }

    fn successor(&self, side: Side, code: u64, index: usize) -> Option<u64> {
        let openings = self.openings(side, code)?;
        let first = nth_bit(openings, index)?;
        Some(code | (self.domino(side) << first))
    }
}
