// Which share a product takes of a component.

/// The up or the down share at the rank that a vector gives the component, or one rank over that.
// An enum and no closure: a contract on a closure would have to speak of every share that it may give, where this names the share.
#[derive(Clone, Copy, Debug, PartialEq, Eq)]
pub enum Reading {
    UpAt,
    UpOver,
    DownAt,
    DownOver,
}
