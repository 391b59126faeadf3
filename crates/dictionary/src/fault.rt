// Why a dictionary refuses.
ghost use Rattle.std.specs.Prelude.{◌≡◌};
ghost use Rattle.dictionary.specs.Faults.{number_of, print_fault_number, seal_fault};
ghost use Rattle.dictionary.specs.declared.fault.DictionaryFault.TheVariants.{Store};

use sealing::seal::SealFault;
use stores::fault::StoreFault;

// Why a dictionary refuses a call.
#[derive(Clone, Copy, Debug, PartialEq, Eq)]
pub enum DictionaryFault {
    // A number is not a node's.
    Unknown,
    // A canonical form has more than 16 options on a side.
    Wide,
    // The store does not take a row.
    Store(StoreFault),
}

impl DictionaryFault {
    // The number by which the fault is reported.
    pub fn number(self) -> u8
        ensures { result ≡ number_of self }
    {
        match self {
            DictionaryFault::Unknown => 1,
            DictionaryFault::Wide => 2,
            DictionaryFault::Store(fault) => fault.number(),
        }
    }
}

impl From<SealFault> for DictionaryFault {
    ghost from_gives = { λ fault r. r ≡ seal_fault fault };

    fn from(value: SealFault) -> DictionaryFault {
        match value {
            SealFault::Unknown => DictionaryFault::Unknown,
            SealFault::Wide => DictionaryFault::Wide,
        }
    }
}

impl From<StoreFault> for DictionaryFault {
    ghost from_gives = { λ fault r. r ≡ Store fault };

    fn from(value: StoreFault) -> DictionaryFault {
        DictionaryFault::Store(value)
    }
}

// Why a node is not printed.
#[derive(Clone, Copy, Debug, PartialEq, Eq)]
pub enum PrintFault {
    // The number is not a node's.
    Unknown,
    // The text is longer than the buffer, or than may be printed.
    Long,
}

impl PrintFault {
    // The number by which the fault is reported.
    pub fn number(self) -> u8
        ensures { result ≡ print_fault_number self }
    {
        match self {
            PrintFault::Unknown => 1,
            PrintFault::Long => 5,
        }
    }
}
