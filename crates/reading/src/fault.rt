// Why a text is not read or not found.
ghost use Rattle.std.specs.Prelude.{◌≡◌};
ghost use Rattle.reading.specs.Faults.{fault_place, look_up_number, read_number};
ghost use Rattle.reading.specs.declared.fault.FormFault.TheVariants.{Text};

pub use calls::fault::TextFault;
use dictionary::fault::DictionaryFault;

// Why a text names no node, by why a bracket is refused one.
#[derive(Clone, Copy, Debug, PartialEq, Eq)]
pub enum FormFault<E> {
    // The text is not a form's, or is nested too deep.
    Text(TextFault),
    // The form that the bracket at this place closes has no node.
    Bracket { place: usize, fault: E },
}

// A bracket's form, as written, is no node's.
#[derive(Clone, Copy, Debug, PartialEq, Eq)]
pub struct NoRow;

// Why a text is not read into a dictionary: a form is not sealed.
pub type ReadFault = FormFault<DictionaryFault>;

// Why a text is not found in a frozen dictionary: a form is no node's.
pub type LookUpFault = FormFault<NoRow>;

impl FormFault<DictionaryFault> {
    // The number by which the fault is reported.
    pub fn number(self) -> u8
        ensures { result ≡ read_number self }
    {
        match self {
            FormFault::Text(fault) => fault.number(),
            FormFault::Bracket { place: _, fault } => fault.number(),
        }
    }
}

impl FormFault<NoRow> {
    // The number by which the fault is reported.
    pub fn number(self) -> u8
        ensures { result ≡ look_up_number self }
    {
        match self {
            FormFault::Text(fault) => fault.number(),
            FormFault::Bracket { place: _, fault: _ } => 9,
        }
    }
}

impl<E: Copy> FormFault<E> {
    // The place of the fault.
    pub fn place(self) -> usize
        ensures { result ≡ fault_place self }
    {
        match self {
            FormFault::Text(fault) => fault.place(),
            FormFault::Bracket { place, fault: _ } => place,
        }
    }
}

impl<E> From<TextFault> for FormFault<E> {
    ghost from_gives = { λ fault r. r ≡ Text fault };

    fn from(value: TextFault) -> FormFault<E> {
        FormFault::Text(value)
    }
}
