// The radio, and its making. This file imports no definition of specs/Radio.antt, since those speak of the type.
ghost use Rattle.std.specs.Prelude.{◌≡◌, length};

mod questions;

/// A radio: two transmitters, the components 1 and 2, and a relay chain of three parts, 3 to 5. It holds what differs from
/// radio to radio, and borrows nothing.
#[derive(Clone, Copy)]
pub struct Radio {
    tags: [u32; 5],
    // The interface asks for one tag to each component, and in proofs an array is a list whose length nobody knows.
    ghost tagged: { length tags ≡ 5 },
}

impl Radio {
    /// The radio whose components have these tags, in order. The shape is the same for all radios.
    pub fn new(tags: [u32; 5]) -> Radio
        ensures { result.tags ≡ tags }
    {
        Radio { tags }
    }
}
