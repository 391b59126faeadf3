// How the ordered list is made, and where a row belongs in it.
ghost use Rattle.std.specs.Prelude.{◌≡◌};
ghost use Rattle.std.specs.Ordering.{is_lt};
ghost use Rattle.stores.specs.Kept.{room_of, rows_in};
ghost use Rattle.ordered_store.specs.Rising.{Belongs, entry_order};
ghost use Rattle.stores.specs.Reading.{lists_of};
ghost use Rattle.stores.specs.Rows.{Made, row_at};

use super::OrderedList;
use std::alloc::Global;
use stores::fault::MakeFault;
use stores::row::Row;
use stores::row_list::RowList;

impl OrderedList {
    // An empty list, with memory for `capacity` rows.
    pub fn new(heap: Global, capacity: usize) -> Result<OrderedList, MakeFault>
        ensures { Made (λ l. rows_in l.list) (λ l. room_of l.list) capacity result }
    {
        let list = RowList::new(heap, capacity)?;
        let order = Vec::with_capacity(heap, capacity)?;
        Ok(OrderedList { list, order })
    }

    // Whether the row of `node` comes before a row with a number.
    fn comes_first(&self, node: u16, row: &Row, number: usize) -> bool
        ensures { result ≡ is_lt (entry_order (row_at (rows_in self.now.list) node) node
            (lists_of row.now) number) }
    {
        self.list
            .order(node, row)
            .then(usize::from(node).cmp(&number))
            .is_lt()
    }

    // The place in the order where a row with a number belongs.
    pub(super) fn place(&self, row: &Row, number: usize) -> usize
        ensures { Belongs (rows_in self.now.list) self.now.order.items (lists_of row.now) number
            result }
    {
        self.order
            .partition_point(|node| self.comes_first(*node, row, number))
    }
}
