// The rows of a store by number, which every store keeps beside what it finds them by.
ghost use Rattle.std.specs.Prelude.{◌≤◌, map, vec_len, vec_capacity};
ghost use Rattle.stores.specs.Reading.{lists_of};
ghost use Rattle.stores.specs.Rows.{NamesLower};

use super::row::Row;

mod compare;
mod methods;

// At most `capacity` rows, for which there is memory; each names only lower numbers than its own.
#[derive(Drop)]
pub struct RowList {
    rows: Vec<Row>,
    capacity: usize,
    ghost reserved: { capacity ≤ vec_capacity rows },
    ghost fits: { vec_len rows ≤ capacity },
    ghost some_room: { 1 ≤ capacity },
    ghost most_room: { capacity ≤ 384 },
    ghost lower: { NamesLower (map lists_of rows.items) },
}
