// The marks of a text.
ghost use Rattle.reading.specs.Marks.{Marks};

// What a text is made of: `{`, `|`, `}` and `,`.
#[derive(Clone, Copy, Debug, PartialEq, Eq)]
pub enum Mark {
    Open,
    Bar,
    Close,
    Comma,
}

// A byte is no mark's.
#[derive(Clone, Copy, Debug, PartialEq, Eq)]
pub struct NoMark;

impl TryFrom<u8> for Mark {
    type Error = NoMark;

    ghost try_from_gives = { Marks };

    fn try_from(byte: u8) -> Result<Mark, NoMark> {
        match byte {
            b'{' => Ok(Mark::Open),
            b'|' => Ok(Mark::Bar),
            b'}' => Ok(Mark::Close),
            b',' => Ok(Mark::Comma),
            _ => Err(NoMark),
        }
    }
}
