// Why a store refuses.
ghost use Rattle.std.specs.Prelude.{◌≡◌};
ghost use Rattle.stores.specs.Faults.{number_of};

use std::alloc::AllocError;

mod text;

// Why a store does not take a row.
#[derive(Clone, Copy, Debug, PartialEq, Eq)]
pub enum StoreFault {
    // The row names a number that no row of the store has.
    Unknown,
    // The store has as many rows as it can hold.
    Full,
}

impl StoreFault {
    // The number by which the fault is reported.
    pub fn number(self) -> u8
        ensures { result ≡ number_of self }
    {
        match self {
            StoreFault::Unknown => 12,
            StoreFault::Full => 3,
        }
    }
}

// Why a store cannot be made.
#[derive(Clone, Copy, Debug, PartialEq, Eq)]
pub enum MakeFault {
    // The capacity is not from 1 to 384.
    Capacity,
    // There is no memory for that many rows.
    Memory,
}

impl From<AllocError> for MakeFault {
    ghost use Rattle.stores.specs.declared.fault.MakeFault.TheVariants.{Memory};

    ghost from_gives = { λ _ e. e ≡ Memory };

    fn from(_: AllocError) -> MakeFault {
        MakeFault::Memory
    }
}
