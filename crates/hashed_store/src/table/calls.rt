// The table as a store.
ghost use Rattle.stores.specs.Kept.{room_of, rows_in};
ghost use Rattle.stores.proofs.Lawful.{list_lawful};

use super::chains::chain_of;
use super::{CHAINS, HashTable};
use games::side::Side;
use stores::fault::StoreFault;
use stores::row::Row;
use stores::store::Store;

impl Store for HashTable {
    ghost rows = { λ t. rows_in t.list };

    ghost room = { λ t. room_of t.list };

    ghost lawful = { λ t. list_lawful t.list };

    fn capacity(&self) -> usize {
        self.list.capacity()
    }

    fn count(&self) -> usize {
        self.list.count()
    }

    fn list_len(&self, side: Side, node: u16) -> usize {
        self.list.list_len(side, node)
    }

    fn option(&self, side: Side, node: u16, index: usize) -> Option<u16> {
        self.list.option(side, node, index)
    }

    // Walks the row's chain from its highest number down, so that the last match is the lowest.
    fn find(&self, row: &Row) -> Option<u16> {
        let mut found = None;
        let mut next = self.firsts[chain_of(row)];
        while let Some(node) = next {
            if self.list.same(node, row) {
                found = Some(node);
            }
            next = self.lowers[usize::from(node)];
        }
        found
    }

    fn append(&mut self, row: Row) -> Result<u16, StoreFault> {
        let number = self.list.append(row)?;
        let chain = chain_of(&row);
        self.lowers.push_reserved(self.firsts[chain]);
        self.firsts[chain] = Some(number);
        Ok(number)
    }

    fn clear(&mut self) {
        self.list.clear();
        self.lowers.clear();
        self.firsts = [None; CHAINS];
    }
}
