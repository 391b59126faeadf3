// What an open bracket keeps of its options.
ghost use Rattle.std.specs.Prelude.{◌<◌};
ghost use Rattle.games.specs.Numbered.{Lists};
ghost use Rattle.calls.specs.Rows.{no_numbers};
ghost use Rattle.dictionary.specs.Kept.{ListsOf};
ghost use Rattle.nodesets.specs.Pairs.{by};
ghost use Rattle.reading.specs.OptionsLemmas.{no_lists};
ghost use Rattle.reading.specs.Sided.{with_number};

use games::side::Side;
use nodesets::pair::Pair;

// The numbers of the nodes that are a bracket's options so far, or as much of them as is needed.
pub(crate) trait Options: Copy + Default {
    ghost keeps: { Self → Lists → Type 0 };

    // A node is an option of the side.
    fn put(&mut self, side: Side, node: u16)
        ensures { node < 384 → (l : Lists) → keeps self.old l
            → keeps self.new (with_number side node l) };

    // No options are kept at first.
    ghost blank: { (options : Self) → Self.is_default options → keeps options no_numbers };
}

// The nodes as two sets: neither their order nor repeats matter to a seal.
impl Options for Pair {
    ghost keeps = { λ p l. ListsOf (by p) l };

    ghost blank = { no_lists };

    fn put(&mut self, side: Side, node: u16) {
        self.insert(side, usize::from(node));
    }
}
