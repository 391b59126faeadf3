// A strip of cells; the files below this one have what it can do.
ghost use Rattle.std.specs.Prelude.{◌≤◌};

mod lineup;
mod masks;
mod pairs;
mod rules;

#[derive(Clone, Copy, Debug, PartialEq, Eq)]
pub struct Strip {
    cells: u32,
    ghost some: { 1 ≤ cells },
    ghost few: { cells ≤ 12 },
}
