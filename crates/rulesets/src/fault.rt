// Why a board or a sum is not made, and the number of each refusal.
ghost use Rattle.std.specs.Prelude.{◌≡◌};
ghost use Rattle.rulesets.specs.Faults.{fault_number, sum_fault_number};

// A board of a size beyond its rules.
#[derive(Clone, Copy, Debug, PartialEq, Eq)]
pub enum BoardFault {
    Size,
}

impl BoardFault {
    // The number by which the refusal is known.
    pub fn number(self) -> u8
        ensures { result ≡ fault_number self }
    {
        match self {
            BoardFault::Size => 10,
        }
    }
}

// A sum whose limit, width or depth passes the bounds of a ruleset.
#[derive(Clone, Copy, Debug, PartialEq, Eq)]
pub enum SumFault {
    Large,
}

impl SumFault {
    // The number by which the refusal is known.
    pub fn number(self) -> u8
        ensures { result ≡ sum_fault_number self }
    {
        match self {
            SumFault::Large => 11,
        }
    }
}
