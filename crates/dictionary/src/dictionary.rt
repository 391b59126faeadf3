// A dictionary: a store of rows, and the tables that the rows make.
ghost use Rattle.std.specs.Prelude.{◌≡◌, [], IfOk};

use sealing::recent::Recent;
use sealing::tables::Tables;
use std::alloc::{AllocError, Global};
use std::marker::Model;
use stores::store::Store;

#[derive(Drop)]
pub struct Dictionary<S: Store> {
    pub(crate) store: S,
    pub(crate) tables: Tables,
    pub(crate) recent: Recent,
}

// To a caller a dictionary is its rows and the room for them;
// the tables are those that the rows make, and what is remembered of seals is right.
impl<S: Store> Model for Dictionary<S> {
    ghost use Rattle.dictionary.specs.Holding.{Holding};
    ghost use Rattle.dictionary.specs.Kept.{Kept};
    ghost use Rattle.dictionary.specs.Settled.{Sure};

    ghost Value = { Holding };

    ghost view = { λ d. record { rows = S.Store.rows d.store; room = S.Store.room d.store } };

    ghost invariant = { λ d. Kept (S.Store.rows d.store) d.tables
        × Sure (S.Store.rows d.store) d.recent };
}

impl<S: Store + Drop> Dictionary<S> {
    // A dictionary without nodes over the store, whose rows go.
    // There may be no memory for its tables.
    pub fn begin(heap: Global, store: S) -> Result<Dictionary<S>, AllocError>
        ensures { IfOk result (λ d. (d.rows ≡ []) × (d.room ≡ S.Store.room store)) }
    {
        let tables = Tables::new(heap)?;
        let recent = Recent::new(heap)?;
        let mut store = store;
        store.clear();
        Ok(Dictionary {
            store,
            tables,
            recent,
        })
    }
}
