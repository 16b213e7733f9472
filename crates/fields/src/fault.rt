// Why reading stops.
ghost use Rattle.std.specs.Prelude.{◌≡◌, alloc_error};
ghost use Rattle.fields.specs.declared.fault.ReadError.TheVariants.{Memory};

use std::alloc::{AllocError, AllocFailed};
use structure::Refusal;

/// What is wrong with a text, and the line where reading stopped; line 0 is the text as a whole.
#[derive(Clone, Copy, Debug, PartialEq, Eq)]
pub struct Fault {
    pub refusal: Refusal,
    pub line: usize,
}

/// Why no case was read: a fault of the text, or no memory for the case.
#[derive(Clone, Copy, Debug, PartialEq, Eq)]
pub enum ReadError {
    Fault(Fault),
    Memory(AllocError),
}

impl ReadError {
    /// The fault of a line.
    pub fn at(line: usize, refusal: Refusal) -> ReadError
        ensures { result ≡ ReadError.Fault (record { refusal = refusal; line = line }) }
    {
        ReadError::Fault(Fault { refusal, line })
    }
}

impl From<AllocError> for ReadError {
    ghost from_gives = { λ error r. r ≡ Memory error };

    fn from(error: AllocError) -> ReadError {
        ReadError::Memory(error)
    }
}

impl<T: Drop> From<AllocFailed<T>> for ReadError {
    ghost from_gives = { λ _ r. r ≡ Memory alloc_error };

    fn from(failed: AllocFailed<T>) -> ReadError {
        ReadError::Memory(AllocError::from(failed))
    }
}
