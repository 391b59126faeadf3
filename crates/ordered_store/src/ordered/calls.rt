// The ordered list as a store.
ghost use Rattle.stores.specs.Kept.{room_of, rows_in};
ghost use Rattle.stores.proofs.Lawful.{list_lawful};

use super::OrderedList;
use games::side::Side;
use stores::fault::StoreFault;
use stores::row::Row;
use stores::store::Store;

impl Store for OrderedList {
    ghost rows = { λ l. rows_in l.list };

    ghost room = { λ l. room_of l.list };

    ghost lawful = { λ l. list_lawful l.list };

    fn capacity(&self) -> usize {
        self.list.capacity()
    }

    fn count(&self) -> usize {
        self.list.count()
    }

    fn list_len(&self, side: Side, node: u16) -> usize {
        self.list.list_len(side, node)
    }

    fn option(&self, side: Side, node: u16, index: usize) -> Option<u16> {
        self.list.option(side, node, index)
    }

    // No number is below 0, so the place of the row with 0 is that of the lowest number with the
    // same row.
    fn find(&self, row: &Row) -> Option<u16> {
        let place = self.place(row, 0);
        let node = *self.order.get(place)?;
        self.list.same(node, row).then_some(node)
    }

    // The memory for the number is reserved, so `insert` never refuses it.
    fn append(&mut self, row: Row) -> Result<u16, StoreFault> {
        let place = self.place(&row, self.list.count());
        let number = self.list.append(row)?;
        let _ = self.order.insert(place, number);
        Ok(number)
    }

    fn clear(&mut self) {
        self.list.clear();
        self.order.clear();
    }
}
