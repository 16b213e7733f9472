// The table and its invariant.
ghost use Rattle.table.specs.Table.{Passes};

mod making;
mod questions;

/// One level for each vector, lent as bytes in number order. It passes the check of a table: `Table::new` is its only maker.
#[derive(Clone, Copy)]
pub struct Table<'a> {
    tops: &'a [u8],
    best: u8,
    tags: &'a [u32],
    levels: &'a [u8],
    ghost passes: { Passes tops.now best tags.now levels.now },
}
