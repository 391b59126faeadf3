// A calculator: one dictionary, and the memory that is lent for valuing.
ghost use Rattle.std.specs.Prelude.{◌≡◌, [], IfOk};

use dictionary::dictionary::Dictionary;
use memory::memory::Memory;
use std::alloc::{AllocError, Global};
use stores::store::Store;

#[derive(Drop)]
pub struct Calculator<S: Store> {
    pub(crate) dictionary: Dictionary<S>,
    pub(crate) memory: Memory,
}

impl<S: Store + Drop> Calculator<S> {
    // A calculator with a new dictionary over the store, whose rows go.
    // There may be no memory for it.
    pub fn begin(heap: Global, store: S) -> Result<Calculator<S>, AllocError>
        ensures { IfOk result (λ c. (c.dictionary.rows ≡ [])
            × (c.dictionary.room ≡ S.Store.room store)) }
    {
        let dictionary = Dictionary::begin(heap, store)?;
        Ok(Calculator {
            dictionary,
            memory: Memory::new(heap),
        })
    }
}
