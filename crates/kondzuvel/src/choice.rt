// What the words ask for that the program is called with.
use std::fmt;

// A way to keep the rows of the dictionary.
#[derive(Clone, Copy, Debug, PartialEq, Eq)]
pub(crate) enum Kind {
    Ordered,
    Hashed,
}

// What the program does.
#[derive(Clone, Copy, Debug, PartialEq, Eq)]
pub(crate) enum Choice {
    Help,
    Serve(Kind),
}

// Why the words ask for nothing.
#[derive(Clone, Copy, Debug, PartialEq, Eq)]
pub(crate) enum UsageFault<'a> {
    // No such word is known.
    Unknown(&'a str),
    // No store has this name.
    NoStore(&'a str),
    // The name of a store is missing.
    Missing,
}

impl<'a> fmt::Display for UsageFault<'a> {
    fn fmt<W: fmt::Write>(&self, f: &mut fmt::Formatter<W>) -> fmt::Result {
        match self {
            UsageFault::Unknown(word) => write!(f, "unknown word {word:?}"),
            UsageFault::NoStore(name) => write!(
                f,
                "no store is called {name:?}: it is ordered or hashed"
            ),
            UsageFault::Missing => write!(f, "which store? --store ordered, or --store hashed"),
        }
    }
}

// The store with this name.
impl<'a> TryFrom<&'a str> for Kind {
    type Error = UsageFault<'a>;

    fn try_from(name: &'a str) -> Result<Kind, UsageFault<'a>> {
        match name {
            "ordered" => Ok(Kind::Ordered),
            "hashed" => Ok(Kind::Hashed),
            _ => Err(UsageFault::NoStore(name)),
        }
    }
}

// What the words ask for: without any, lines are answered over the hashed store.
pub(crate) fn choose<'a>(words: &[&'a str]) -> Result<Choice, UsageFault<'a>> {
    let mut chosen = Kind::Hashed;
    let mut rest = words.iter();
    while let Some(word) = rest.next() {
        match *word {
            "--help" => return Ok(Choice::Help),
            "--store" => chosen = Kind::try_from(*rest.next().ok_or(UsageFault::Missing)?)?,
            _ => return Err(UsageFault::Unknown(word)),
        }
    }
    Ok(Choice::Serve(chosen))
}

#[cfg(test)]
mod tests {
    use super::{Choice, Kind, UsageFault, choose};

    #[test]
    fn words(rt: HostRuntime) {
        assert!(rt; choose(&[]) == Ok(Choice::Serve(Kind::Hashed)));
        assert!(rt; choose(&["--help"]) == Ok(Choice::Help));
        assert!(rt; choose(&["--store", "ordered"]) == Ok(Choice::Serve(Kind::Ordered)));
        assert!(rt; choose(&["--store", "hashed"]) == Ok(Choice::Serve(Kind::Hashed)));
        assert!(rt; choose(&["--store", "ordered", "--help"]) == Ok(Choice::Help));
    }

    #[test]
    fn faults(rt: HostRuntime) {
        assert!(rt; choose(&["--store"]) == Err(UsageFault::Missing));
        assert!(rt; choose(&["--store", "sorted"]) == Err(UsageFault::NoStore("sorted")));
        assert!(rt; choose(&["help"]) == Err(UsageFault::Unknown("help")));
    }
}
