// A buffer that is written from its front on.
ghost use Rattle.std.specs.Prelude.{◌<◌, [], ◌∷◌, length};
ghost use Rattle.dictionary.specs.Writing.{Wrote};

// The buffer, and the place behind what is written.
#[derive(Drop)]
pub(crate) struct Writer<'a> {
    pub(crate) out: &'a mut [u8],
    pub(crate) place: usize,
}

impl Writer<'_> {
    // One byte more.
    pub(crate) fn put(&mut self, byte: u8)
        requires { self.old.place < length self.old.out.now }
        ensures { Wrote self.old self.new (byte ∷ []) }
    {
        self.out[self.place] = byte;
        self.place += 1;
    }
}
