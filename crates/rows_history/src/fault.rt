//! Why a script can't be told.

use qccd_base::NoMemory;
use std::alloc::{AllocError, AllocFailed};
use std::io;

/// Why a script can't be told.
#[derive(Debug, Drop)]
pub enum Fault {
    NoMemory,
    /// Reading or writing failed.
    Stream,
    /// A section's circuit is refused, or can't be compiled.
    Circuit,
    /// Events that were allowed are not allowed a second time.
    Forgotten,
    /// The least operation that is not finished is not enabled, or at the end there is one.
    Stuck,
    /// The committed operations can't be run in their order.
    Illegal,
}

impl From<NoMemory> for Fault {
    fn from(_refused: NoMemory) -> Fault {
        Fault::NoMemory
    }
}

impl From<AllocError> for Fault {
    fn from(_refused: AllocError) -> Fault {
        Fault::NoMemory
    }
}

impl<T: Drop> From<AllocFailed<T>> for Fault {
    fn from(_refused: AllocFailed<T>) -> Fault {
        Fault::NoMemory
    }
}

impl From<io::Error> for Fault {
    fn from(_refused: io::Error) -> Fault {
        Fault::Stream
    }
}
