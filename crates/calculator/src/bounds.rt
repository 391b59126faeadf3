// How long a line and an answer may be.

// The longest line that is answered, in bytes.
pub const LONGEST_LINE: usize = 1000;

// The longest answer, in bytes.
pub const LONGEST_ANSWER: usize = 4096;
