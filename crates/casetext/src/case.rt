// A case.

/// A component's shares in billionths, for the ranks from 1 to its top: those that stay at the rank or higher, and
/// those that stay below it.
#[derive(Debug, Drop)]
pub struct Shares {
    pub up: Vec<u64>,
    pub down: Vec<u64>,
}

/// A table of levels, with the tops and tags of its components, and each component's shares.
// Lists side by side, since a table borrows the tops, the tags and the levels as slices.
#[derive(Debug, Drop)]
pub struct Case {
    pub tops: Vec<u8>,
    pub best: u8,
    pub tags: Vec<u32>,
    pub levels: Vec<u8>,
    pub rows: Vec<Shares>,
}
