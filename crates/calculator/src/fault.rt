// Why a line is answered by a fault.
ghost use Rattle.std.specs.Prelude.{◌≡◌};
ghost use Rattle.calculator.specs.Faults.{buffer_fault_number, number_of, place_of};
ghost use Rattle.calculator.specs.declared.fault.CalculatorFault.TheVariants.{Dictionary, Line, Print};

use calls::fault::TextFault;
use dictionary::fault::{DictionaryFault, PrintFault};
use reading::fault::ReadFault;
use rulesets::fault::BoardFault;
use valuing::fault::ValueFault;

// Why a line is answered by a fault, each fault below carried whole, and where in the line.
#[derive(Clone, Copy, Debug, PartialEq, Eq)]
pub enum CalculatorFault {
    // The line has more than 1,000 bytes.
    LongLine,
    // The line is not right.
    Line(TextFault),
    // The size of the board at this place is beyond its rules.
    Board { place: usize, fault: BoardFault },
    // The position of the board at this place is not legal.
    Illegal { place: usize },
    // What stands at this place is not valued.
    Position { place: usize, fault: ValueFault },
    // The text is not read, for a fault at this place.
    Text { place: usize, fault: ReadFault },
    // The dictionary refuses to tell a node.
    Dictionary(DictionaryFault),
    // The dictionary refuses to print a node: the answer would have more than 4,096 bytes.
    Print(PrintFault),
}

impl CalculatorFault {
    // The number by which the fault is reported.
    pub fn number(self) -> u8
        ensures { result ≡ number_of self }
    {
        match self {
            CalculatorFault::LongLine => 13,
            CalculatorFault::Line(fault) => fault.number(),
            CalculatorFault::Board { place: _, fault } => fault.number(),
            CalculatorFault::Illegal { place: _ } => 4,
            CalculatorFault::Position { place: _, fault } => fault.number(),
            CalculatorFault::Text { place: _, fault } => fault.number(),
            CalculatorFault::Dictionary(fault) => fault.number(),
            CalculatorFault::Print(fault) => fault.number(),
        }
    }

    // The place in the line, counted in bytes from 0.
    pub fn place(self) -> usize
        ensures { result ≡ place_of self }
    {
        match self {
            CalculatorFault::LongLine => 1000,
            CalculatorFault::Line(fault) => fault.place(),
            CalculatorFault::Board { place, fault: _ }
            | CalculatorFault::Illegal { place }
            | CalculatorFault::Position { place, fault: _ }
            | CalculatorFault::Text { place, fault: _ } => place,
            CalculatorFault::Dictionary(_) | CalculatorFault::Print(_) => 0,
        }
    }
}

impl From<TextFault> for CalculatorFault {
    ghost from_gives = { λ fault r. r ≡ Line fault };

    fn from(value: TextFault) -> CalculatorFault {
        CalculatorFault::Line(value)
    }
}

impl From<DictionaryFault> for CalculatorFault {
    ghost from_gives = { λ fault r. r ≡ Dictionary fault };

    fn from(value: DictionaryFault) -> CalculatorFault {
        CalculatorFault::Dictionary(value)
    }
}

impl From<PrintFault> for CalculatorFault {
    ghost from_gives = { λ fault r. r ≡ Print fault };

    fn from(value: PrintFault) -> CalculatorFault {
        CalculatorFault::Print(value)
    }
}

// Why a line is not answered at all.
#[derive(Clone, Copy, Debug, PartialEq, Eq)]
pub enum BufferFault {
    // The buffer has fewer than 4,096 bytes.
    Short,
}

impl BufferFault {
    // The number by which the refusal is known.
    pub fn number(self) -> u8
        ensures { result ≡ buffer_fault_number self }
    {
        match self {
            BufferFault::Short => 14,
        }
    }
}
