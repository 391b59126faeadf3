// How a call and an answer are printed.
use crate::call::{StoreAnswer, StoreCall};
use std::fmt;

impl fmt::Display for StoreCall {
    fn fmt<W: fmt::Write>(&self, f: &mut fmt::Formatter<W>) -> fmt::Result {
        match self {
            StoreCall::Capacity => write!(f, "capacity"),
            StoreCall::Count => write!(f, "count"),
            StoreCall::ListLen(side, node) => write!(f, "{side:?} options of {node}"),
            StoreCall::OptionAt(side, node, index) => {
                write!(f, "{side:?} option of {node} at {index}")
            }
            StoreCall::Find(row) => write!(f, "find {row}"),
            StoreCall::Append(row) => write!(f, "append {row}"),
            StoreCall::Clear => write!(f, "clear"),
        }
    }
}

impl fmt::Display for StoreAnswer {
    fn fmt<W: fmt::Write>(&self, f: &mut fmt::Formatter<W>) -> fmt::Result {
        match self {
            StoreAnswer::Size(size) => write!(f, "{size}"),
            StoreAnswer::Number(Some(number)) => write!(f, "{number}"),
            StoreAnswer::Number(None) => write!(f, "none"),
            StoreAnswer::Appended(Ok(number)) => write!(f, "{number}"),
            StoreAnswer::Appended(Err(fault)) => write!(f, "refused with {}", fault.number()),
            StoreAnswer::Done => write!(f, "done"),
        }
    }
}
