// The pair: two structures and how they are joined.
use crate::join::Join;

mod making;
mod questions;
mod split;

/// Two structures joined. Where they fit it answers from both, the first's components before the second's; where they do
/// not, as its first alone.
#[derive(Drop)]
pub struct Pair<A, B> {
    join: Join,
    first: A,
    second: B,
}
