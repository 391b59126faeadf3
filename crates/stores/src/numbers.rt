// A short list of numbers of nodes, kept in place.
ghost use Rattle.std.specs.Prelude.{◌≡◌, ◌≤◌, length};

mod compare;
mod lists;
mod text;

// At most `MOST` numbers: the first `count` of `items`.
#[derive(Clone, Copy, Debug)]
pub struct Numbers<const MOST: usize> {
    items: [u16; MOST],
    count: usize,
    ghost few: { count ≤ MOST },
    ghost room: { length items ≡ MOST },
}
