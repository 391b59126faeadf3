// What is shown over each of the two stores.
ghost use Rattle.std.specs.Prelude.{◌≡◌, [], IfOk, IfSome};
ghost use Rattle.stores.specs.Rows.{Made};

use dictionary::dictionary::Dictionary;
use hashed_store::table::HashTable;
use ordered_store::ordered::OrderedList;
use std::alloc::Global;
use stores::fault::MakeFault;
use stores::store::Store;

// A store that is shown: what it is called, and how one is made.
pub trait Shown: Store + Drop + Sized {
    const NAME: &'static str;

    // An empty store with memory for so many rows.
    fn make(heap: Global, capacity: usize) -> Result<Self, MakeFault>
        ensures { Made Self.rows Self.room capacity result };
}

impl Shown for OrderedList {
    const NAME: &'static str = "an ordered list";

    fn make(heap: Global, capacity: usize) -> Result<OrderedList, MakeFault> {
        OrderedList::new(heap, capacity)
    }
}

impl Shown for HashTable {
    const NAME: &'static str = "a hash-consed table";

    fn make(heap: Global, capacity: usize) -> Result<HashTable, MakeFault> {
        HashTable::new(heap, capacity)
    }
}

// What a program shows over a store of any kind.
pub trait Demo {
    fn over<S: Shown>(&self, rt: &HostRuntime) -> anyhow::Result<()>;
}

// Shows it over an ordered list, and then over a hash-consed table.
pub fn over_both<D: Demo>(rt: &HostRuntime, demo: &D) -> anyhow::Result<()> {
    demo.over::<OrderedList>(rt)?;
    demo.over::<HashTable>(rt)
}

// A dictionary without nodes, over a store with memory for so many rows.
pub fn begin<S: Shown>(heap: Global, capacity: usize) -> Result<Dictionary<S>, MakeFault>
    ensures { Made (λ d. d.rows) (λ d. d.room) capacity result }
{
    let store = S::make(heap, capacity)?;
    Ok(Dictionary::begin(heap, store)?)
}

// The same under a heading, which has the store's name between two texts.
// Where there is no memory for the store there is neither, and a program shows what comes next.
pub fn begin_under<S: Shown>(
    rt: &HostRuntime,
    rows: usize,
    before: &str,
    behind: &str,
) -> anyhow::Result<Option<Dictionary<S>>>
    ensures { IfOk result (λ begun. IfSome begun (λ d. (d.rows ≡ []) × (d.room ≡ rows))) }
{
    let Ok(store) = S::make(rt.alloc(), rows) else {
        return Ok(None);
    };
    println!(rt; "{before}{}{behind}", S::NAME)?;
    Ok(Some(Dictionary::begin(rt.alloc(), store)?))
}
