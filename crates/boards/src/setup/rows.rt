// The rows of a Domineering board, read byte by byte.
ghost use Rattle.std.specs.Prelude.{◌≡◌};
ghost use Rattle.boards.specs.RowsRead.{closed, ended, put, row_length, row_step, rows_read};

use domineering::board::MOST_CELLS;

// Rows of one length, read to their end.
#[derive(Clone, Copy, Debug, PartialEq, Eq)]
pub struct Rows {
    // how many squares each row has
    pub columns: usize,
    // how many squares there are
    pub squares: usize,
    // bit i is 1 where square i is filled
    pub code: u64,
}

impl Rows {
    // The rows that the bytes spell; `None` where they spell none,
    // are uneven or have too many squares.
    pub fn read(items: &[u8]) -> Option<Rows>
        ensures { result ≡ rows_read items.now }
    {
        items
            .iter()
            .try_fold(Begun::default(), |rows, byte| rows.step(*byte))?
            .close()
    }
}

// Rows that are being read.
#[derive(Clone, Copy, Debug, Default, PartialEq, Eq)]
struct Begun {
    // how many squares each row has that has ended, once one has
    columns: Option<usize>,
    // how many squares the rows that have ended have
    start: usize,
    // how many squares were read
    squares: usize,
    // bit i is 1 where square i is filled
    code: u64,
}

impl Begun {
    fn step(self, byte: u8) -> Option<Begun>
        ensures { result ≡ row_step self byte }
    {
        match byte {
            b'.' => self.put(0),
            b'#' => self.put(1),
            b'/' => self.end(),
            _ => None,
        }
    }

    // One square more, with its bit of the code.
    fn put(self, bit: u8) -> Option<Begun>
        ensures { result ≡ put self bit }
    {
        if self.squares >= MOST_CELLS {
            return None;
        }
        Some(Begun {
            squares: self.squares + 1,
            code: self.code | (u64::from(bit) << self.squares),
            ..self
        })
    }

    // The end of a row that another follows.
    fn end(self) -> Option<Begun>
        ensures { result ≡ ended self }
    {
        Some(Begun {
            columns: Some(self.length()?),
            start: self.squares,
            ..self
        })
    }

    // The end of the last row.
    fn close(self) -> Option<Rows>
        ensures { result ≡ closed self }
    {
        Some(Rows {
            columns: self.length()?,
            squares: self.squares,
            code: self.code,
        })
    }

    // How many squares the row has that ends: some, and as many as the row before it,
    // if there is one.
    fn length(self) -> Option<usize>
        ensures { result ≡ row_length self }
    {
        let length = self.squares.checked_sub(self.start)?;
        let as_long = self.columns.is_none_or(|columns| columns == length);
        (length > 0 && as_long).then_some(length)
    }
}
