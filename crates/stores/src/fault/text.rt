// Why a store cannot be made, in words.
ghost use Rattle.std.specs.Prelude.{Some};
ghost use Rattle.stores.specs.Faults.{make_text};

use super::MakeFault;
use std::error::Error;
use std::fmt;

impl fmt::Display for MakeFault {
    ghost output = { λ fault. Some (make_text fault) };

    fn fmt<W: fmt::Write>(&self, f: &mut fmt::Formatter<W>) -> fmt::Result {
        f.write_str(match self {
            MakeFault::Capacity => "a store has room for 1 to 384 rows",
            MakeFault::Memory => "there is no memory for that many rows",
        })
    }
}

impl Error for MakeFault {}
