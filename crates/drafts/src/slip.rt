// A slip: whoever has one has a draft open, and has to seal or abandon it.
ghost use Rattle.std.specs.Prelude.{IsTrue};
ghost use Rattle.drafts.specs.Holding.{Unspent};

// Handed out when a draft is opened. It is never let go unspent: seal or abandon takes it.
pub struct Slip {
    spent: bool,
}

impl Drop for Slip {
    // Nobody who was handed a slip can meet this: one that goes out of use is refused by the check.
    fn drop(self)
        requires { IsTrue self.spent }
    {
        let Slip { spent: _ } = self;
    }
}

impl Slip {
    pub(crate) fn new() -> Slip
        ensures { Unspent result }
    {
        Slip { spent: false }
    }

    pub(crate) fn spend(self) {
        let Slip { spent: _ } = self;
    }
}
