// The rules of Toads-and-Frogs: making a strip, and the questions of a ruleset.
ghost use Rattle.std.specs.Prelude.{◌≡◌, false, MatchOption};
ghost use Rattle.toads.specs.Making.{Made, strip_rules};
ghost use Rattle.toads.specs.Laws.{MoveReads};
ghost use Rattle.toads.specs.LawsLemmas.{toads_lawful};
ghost use Rattle.toads.specs.Toads.{legal};

use super::lineup::Lineup;
use super::masks::EVEN;
use crate::strip::Strip;
use bits::{count_bits, nth_bit};
use games::side::Side;
use rulesets::fault::BoardFault;
use rulesets::ruleset::Ruleset;

impl Strip {
    // A strip of 1 to 12 cells.
    #[tactic(auto, using(crate::specs::LawsLemmas::move_reads))]
    pub fn new(cells: usize) -> Result<Strip, BoardFault>
        ensures made { Made cells result }
        ensures moves { MoveReads cells }
    {
        match u32::try_from(cells) {
            Ok(cells @ 1..=12) => Ok(Strip { cells }),
            _ => Err(BoardFault::Size),
        }
    }

    // What the cells hold, when the code is legal.
    fn lineup(&self, code: u64) -> Option<Lineup>
        ensures { MatchOption result (legal self.now.cells code ≡ false)
            (λ l. (l.cells ≡ self.now.cells) × (l.code ≡ code)) }
    {
        if !self.is_legal(code) {
            return None;
        }
        Some(Lineup {
            cells: self.cells,
            code,
        })
    }
}

impl Ruleset for Strip {
    ghost rules = { strip_rules };

    ghost lawful = { λ s. toads_lawful s.cells s.few };

    fn limit(&self) -> u64 {
        1 << (2 * self.cells)
    }

    fn width(&self) -> usize {
        12
    }

    fn depth(&self) -> usize {
        48
    }

    // No digit is 3: no cell has both its bits.
    fn is_legal(&self, code: u64) -> bool {
        code < self.limit() && code & (code >> 1) & EVEN == 0
    }

    fn rank(&self, code: u64) -> usize {
        self.lineup(code).map_or(0, |lineup| lineup.pairs())
    }

    #[tactic(auto, using(crate::proofs::Holding::mover_count))]
    fn count(&self, side: Side, code: u64) -> usize {
        self.lineup(code)
            .map_or(0, |lineup| count_bits(lineup.movers(side)))
    }

    fn successor(&self, side: Side, code: u64, index: usize) -> Option<u64> {
        let lineup = self.lineup(code)?;
        let place = nth_bit(lineup.movers(side), index)?;
        Some(lineup.moved(side, place / 2))
    }
}
