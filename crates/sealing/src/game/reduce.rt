// The canonical form of a game: reversible options are bypassed, then the dominated ones go.
ghost use Rattle.std.specs.Prelude.{◌≡◌, ℕ, ◌<◌, true, vec_len};
ghost use Rattle.nodesets.specs.Pairs.{by};
ghost use Rattle.sealing.specs.Games.{SameValue};
ghost use Rattle.sealing.specs.Steps.{Cleared, EqualAt, Reduced, Settled, Stays, Undominated};
ghost use Rattle.sealing.specs.Views.{links};

use super::Game;
use games::side::Side;
use nodesets::pair::Pair;

impl Game<'_> {
    // The node that equals the game, where there is one.
    pub fn equal(&self) -> Option<usize>
        ensures { EqualAt result (links self.now.nodes.now) (vec_len self.now.nodes.now.rows)
            (by self.now.moves) }
    {
        self.worse.left.common(&self.worse.right)
    }

    // The side's option a, if it is reversible, gives way to the side's options of a reply.
    fn bypass_at(&mut self, side: Side, a: usize)
        requires { a < vec_len self.old.nodes.now.rows }
        ensures same { SameValue self.old self.new }
        ensures reduced { Reduced (links self.old.nodes.now) side (by self.old.moves)
            (by self.new.moves) }
        ensures above { (k : ℕ) → a < k → by self.new.moves side k ≡ by self.old.moves side k }
        ensures stays { by self.new.moves side a ≡ true
            → Stays (links self.old.nodes.now) side (by self.old.worse) a }
    {
        if !self.moves.of(side).contains(a) {
            return;
        }
        if let Some(b) = self.nodes.rows[a]
            .options
            .of(side.other())
            .common(self.worse.of(side))
        {
            let mut own = *self.moves.of(side);
            own.remove(a);
            own.union(self.nodes.rows[b].options.of(side));
            self.moves = self.moves.with(side, &own);
        }
    }

    // Each reversible option of the side gives way, from the highest node down.
    fn bypass(&mut self, side: Side)
        ensures same { SameValue self.old self.new }
        ensures reduced { Reduced (links self.old.nodes.now) side (by self.old.moves)
            (by self.new.moves) }
        ensures stays { (k : ℕ) → by self.new.moves side k ≡ true
            → Stays (links self.old.nodes.now) side (by self.old.worse) k }
    {
        for a in (0..self.nodes.rows.len()).rev() {
            self.bypass_at(side, a);
        }
    }

    // The side's options go that its option a is as good as.
    fn undominate_at(&mut self, side: Side, a: usize)
        requires { a < vec_len self.old.nodes.now.rows }
        ensures same { SameValue self.old self.new }
        ensures cleared { Cleared (links self.old.nodes.now) side a (by self.old.moves)
            (by self.new.moves) }
    {
        let mut own = *self.moves.of(side);
        if own.contains(a) {
            own.minus(self.nodes.rows[a].worse.of(side));
            own.insert(a);
            self.moves = self.moves.with(side, &own);
        }
    }

    // The dominated options of the side go.
    fn undominate(&mut self, side: Side)
        ensures same { SameValue self.old self.new }
        ensures undominated { Undominated (links self.old.nodes.now) side
            (vec_len self.old.nodes.now.rows) (by self.old.moves) (by self.new.moves) }
    {
        for a in 0..self.nodes.rows.len() {
            self.undominate_at(side, a);
        }
    }

    // The options of the game's canonical form.
    pub fn settle(mut self) -> Pair
        ensures { Settled (links self.entry.nodes.now) (by self.entry.moves) (by result) }
    {
        self.bypass(Side::Left);
        self.bypass(Side::Right);
        self.undominate(Side::Left);
        self.undominate(Side::Right);
        self.moves
    }
}
