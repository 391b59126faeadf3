// What a strip's cells hold: a code that is known to be legal.
ghost use Rattle.std.specs.Prelude.{◌≡◌, ◌≤◌, true};
ghost use Rattle.toads.specs.Toads.{legal};

#[derive(Clone, Copy, Debug, PartialEq, Eq)]
pub(super) struct Lineup {
    pub(super) cells: u32,
    pub(super) code: u64,
    ghost few: { cells ≤ 12 },
    ghost legal: { legal cells code ≡ true },
}
