// A place of a hashed table.

// A code and its number; a free place has none. The code stands beside the `Option`,
// which keeps a place at 16 bytes.
#[derive(Clone, Copy, Debug, PartialEq, Eq)]
pub struct Slot {
    pub code: u64,
    pub number: Option<u16>,
}

impl Slot {
    // Whether the number of the code may stand here.
    pub fn suits(self, code: u64) -> bool {
        self.number.is_none() || self.code == code
    }
}
