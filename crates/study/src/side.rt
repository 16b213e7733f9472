// The two lists of a study.

/// The list of path records, or of cut records.
#[derive(Clone, Copy, Debug, PartialEq, Eq)]
pub enum Side {
    Paths,
    Cuts,
}
