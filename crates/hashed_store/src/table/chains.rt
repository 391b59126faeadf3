// How the table is made, and its chains.
ghost use Rattle.std.specs.Prelude.{◌≡◌, ◌*◌, ◌<◌, ◌≤◌, length, sum};
ghost use Rattle.hashed_store.specs.Chains.{OneChain, chain_of};
ghost use Rattle.stores.specs.Kept.{room_of, rows_in};
ghost use Rattle.stores.specs.Reading.{lists_of};
ghost use Rattle.stores.specs.Rows.{Made};

use super::{CHAINS, HashTable};
use games::side::Side;
use std::alloc::Global;
use stores::fault::MakeFault;
use stores::row::Row;
use stores::row_list::RowList;

impl HashTable {
    // An empty table, with memory for `capacity` rows.
    pub fn new(heap: Global, capacity: usize) -> Result<HashTable, MakeFault>
        ensures made { Made (λ t. rows_in t.list) (λ t. room_of t.list) capacity result }
        ensures chains { OneChain }
    {
        let list = RowList::new(heap, capacity)?;
        let firsts = [None; CHAINS];
        let lowers = Vec::with_capacity(heap, capacity)?;
        Ok(HashTable {
            list,
            firsts,
            lowers,
        })
    }
}

// The chain of a row: the sum of its options modulo 128.
pub(super) fn chain_of(row: &Row) -> usize
    ensures chain { result ≡ chain_of (lists_of row.now) }
    ensures below { result < 128 }
{
    (total(row.list(Side::Left)) + total(row.list(Side::Right))) % CHAINS
}

fn total(numbers: &[u16]) -> usize
    requires { length numbers.now ≤ 16 }
    ensures value { result ≡ sum numbers.now }
    ensures bound { result ≤ 65535 * 16 }
{
    numbers.iter().map(|number| usize::from(*number)).sum()
}
