// What is kept of a line while its end is looked for.
ghost use Rattle.std.specs.Prelude.{◌≡◌, [], ◌++◌, ◌≤◌, length, OnOk};
ghost use Rattle.console.specs.Serving.{kept};

use calculator::bounds::LONGEST_LINE;
use std::alloc::{AllocError, Global};

// What is kept of a line: of a line that is too long one byte more than a line may have,
// which shows it.
#[derive(Drop)]
pub(crate) struct Line {
    bytes: Vec<u8>,
    ghost few: { length bytes.items ≤ 1001 },
}

impl Line {
    // An empty line, with the memory for all that is ever kept.
    pub(crate) fn new(heap: Global) -> Result<Line, AllocError> {
        let bytes = Vec::with_capacity(heap, LONGEST_LINE + 1)?;
        Ok(Line { bytes })
    }

    pub(crate) fn bytes(&self) -> &[u8]
        ensures { result.now ≡ self.now.bytes.items }
    {
        &self.bytes
    }

    pub(crate) fn clear(&mut self)
        ensures { self.new.bytes.items ≡ [] }
    {
        self.bytes.clear();
    }

    // Puts a part of the line behind what is kept of it.
    pub(crate) fn keep(&mut self, part: &[u8]) -> Result<(), AllocError>
        ensures { OnOk result (self.new.bytes.items ≡ kept (self.old.bytes.items ++ part.now)) }
    {
        let room = LONGEST_LINE + 1 - self.bytes.len();
        self.bytes.extend_from_slice(&part[..part.len().min(room)])
    }
}
