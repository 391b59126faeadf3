// Why a text or a line is not read.
ghost use Rattle.std.specs.Prelude.{◌≡◌};
ghost use Rattle.calls.specs.Faults.{number_of, place_of};

// The fault of a text or of a line, with its place, counted in bytes from 0.
#[derive(Clone, Copy, Debug, PartialEq, Eq)]
pub enum TextFault {
    // A byte with which no form, or no line, goes on.
    WrongByte(usize),
    // It ends before it is whole; the place is its length.
    EarlyEnd(usize),
    // The 97th nested bracket.
    TooDeep(usize),
}

impl TextFault {
    // The number by which the fault is reported.
    pub fn number(self) -> u8
        ensures { result ≡ number_of self }
    {
        match self {
            TextFault::WrongByte(_) => 6,
            TextFault::EarlyEnd(_) => 7,
            TextFault::TooDeep(_) => 8,
        }
    }

    // The place of the fault: all before it is in order.
    pub fn place(self) -> usize
        ensures { result ≡ place_of self }
    {
        match self {
            TextFault::WrongByte(place) | TextFault::EarlyEnd(place) | TextFault::TooDeep(place) =>
                place,
        }
    }
}
