// A side's options of a node, one after another.
ghost use Rattle.std.specs.Prelude.{◌≡◌};
ghost use Rattle.std.specs.Iterator.{YieldsFirst, item_count};
ghost use Rattle.games.specs.Numbered.{list_of};
ghost use Rattle.stores.specs.Remaining.{options_left};
ghost use Rattle.stores.specs.Rows.{row_at};

use crate::store::Store;
use games::side::Side;

// The options from an index on.
#[derive(Drop)]
pub struct Options<'a, S> {
    store: &'a S,
    side: Side,
    node: u16,
    index: usize,
}

impl<'a, S: Store> Iterator for Options<'a, S> {
    type Item = u16;

    ghost next_gives = { YieldsFirst (options_left S.Store.rows) };

    ghost remaining = { item_count (options_left S.Store.rows) };

    fn next(&mut self) -> Option<u16> {
        let next = self.store.option(self.side, self.node, self.index)?;
        self.index += 1;
        Some(next)
    }
}

// The side's options of a node, in order.
pub fn options_of<'a, S: Store>(store: &'a S, side: Side, node: u16) -> Options<'a, S>
    ensures { options_left S.Store.rows result ≡ list_of side
        (row_at (S.Store.rows store.now) node) }
{
    Options {
        store,
        side,
        node,
        index: 0,
    }
}
