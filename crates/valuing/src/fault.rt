// Why a position is not valued.
ghost use Rattle.std.specs.Prelude.{◌≡◌};
ghost use Rattle.valuing.specs.Answers.{number_of};

use dictionary::fault::DictionaryFault;

#[derive(Clone, Copy, Debug, PartialEq, Eq)]
pub enum ValueFault {
    // The code is not legal.
    Illegal,
    // The game of this position is not sealed.
    Position { code: u64, fault: DictionaryFault },
}

impl ValueFault {
    // The number by which the fault is reported.
    pub fn number(self) -> u8
        ensures { result ≡ number_of self }
    {
        match self {
            ValueFault::Illegal => 4,
            ValueFault::Position { fault, .. } => fault.number(),
        }
    }
}
