// A ruleset: positions as codes, each with its successors for Left and for Right.
ghost use Rattle.std.specs.Prelude.{◌≡◌, length};
ghost use Rattle.std.specs.List.{slice_get};
ghost use Rattle.rulesets.specs.Rules.{Rules, Lawful};

use games::side::Side;

// Every question is total: for a code that is not legal,
// counts and rank are 0 and every successor is absent.
pub trait Ruleset {
    // what the ruleset means, fixed for as long as it lives
    ghost rules: { Self → Rules };

    // Codes are below this.
    fn limit(&self) -> u64
        ensures { result ≡ (rules self.now).limit };

    // No position has more successors for one side.
    fn width(&self) -> usize
        ensures { result ≡ (rules self.now).width };

    // No rank is above this.
    fn depth(&self) -> usize
        ensures { result ≡ (rules self.now).depth };

    fn is_legal(&self, code: u64) -> bool
        ensures { result ≡ (rules self.now).legal code };

    // A number that falls with every move.
    fn rank(&self, code: u64) -> usize
        ensures { result ≡ (rules self.now).rank code };

    // How many successors the side has.
    fn count(&self, side: Side, code: u64) -> usize
        ensures { result ≡ length ((rules self.now).moves side code) };

    // The side's successor at an index, absent when the index is not below the count.
    fn successor(&self, side: Side, code: u64, index: usize) -> Option<u64>
        ensures { result ≡ slice_get ((rules self.now).moves side code) index };

    ghost lawful: { (s : Self) → Lawful (rules s) };
}
