//! Why a text has no list of tokens.

use std::alloc::AllocFailed;
use thiserror::Error;

/// Why a text has no list of tokens. Of several faults in a text the first one is told.
#[derive(Clone, Copy, Debug, PartialEq, Eq, Hash, Error)]
pub enum LexFault {
    /// No token begins at this byte, counted from 0.
    #[error("no token begins at byte {at}")]
    BadByte { at: u32 },
    /// A string begins at this byte, counted from 0, and is not closed on its line.
    #[error("the string at byte {at} is not closed on its line")]
    OpenString { at: u32 },
    /// Memory ran out.
    #[error("no memory")]
    NoMemory,
}

impl<T: Drop> From<AllocFailed<T>> for LexFault {
    ghost use Rattle.std.specs.Prelude.{◌≡◌};
    ghost use Rattle.qasm_lex.specs.declared.fault.LexFault.TheVariants.{NoMemory};

    ghost from_gives = { λ _ e. e ≡ NoMemory };

    fn from(_refused: AllocFailed<T>) -> LexFault {
        LexFault::NoMemory
    }
}
