//! Why the rows can't be told.

use qccd_base::NoMemory;
use qccd_io::Failed;
use std::alloc::{AllocError, AllocFailed};
use std::io;

/// Why the rows can't be told.
#[derive(Debug, Drop)]
pub enum Fault {
    NoMemory,
    /// Reading or writing failed.
    Stream,
    /// A row's braces can't be read, or its text is longer than any that is read.
    Row,
}

impl From<NoMemory> for Fault {
    fn from(_refused: NoMemory) -> Fault {
        Fault::NoMemory
    }
}

impl From<AllocError> for Fault {
    fn from(_refused: AllocError) -> Fault {
        Fault::NoMemory
    }
}

impl<T: Drop> From<AllocFailed<T>> for Fault {
    fn from(_refused: AllocFailed<T>) -> Fault {
        Fault::NoMemory
    }
}

impl From<Failed> for Fault {
    fn from(_failed: Failed) -> Fault {
        Fault::Stream
    }
}

impl From<io::Error> for Fault {
    fn from(_refused: io::Error) -> Fault {
        Fault::Stream
    }
}
