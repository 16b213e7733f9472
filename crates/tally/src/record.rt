// A record of a list: a vector with the levels that it is minimal for.

/// A vector, of which as many ranks count as the structure has components, and its first and last level.
// A fixed array, since no call of a study after its open asks for memory; how many ranks count the ledger says once, for all records.
#[derive(Clone, Copy)]
pub struct Record {
    pub vector: [u8; 12],
    pub first: u8,
    pub last: u8,
}
