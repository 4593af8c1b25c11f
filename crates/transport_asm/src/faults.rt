//! Why a text is refused.

use op_text::AsmKind;
use qccd_base::NoMemory;
use std::alloc::{AllocError, AllocFailed};

/// Why no operation was read.
#[derive(Clone, Copy, Debug, PartialEq, Eq)]
pub enum OpFault {
    /// The text is no operation's: the kind of the first offending word.
    Refused { kind: AsmKind },
    /// Memory ran out.
    NoMemory,
}

impl From<AllocError> for OpFault {
    ghost use Rattle.std.specs.Prelude.{◌≡◌};
    ghost use Rattle.transport_asm.specs.declared.faults.OpFault.TheVariants.{NoMemory};

    ghost from_gives = { λ _ e. e ≡ NoMemory };

    fn from(_refused: AllocError) -> OpFault {
        OpFault::NoMemory
    }
}

impl<T: Drop> From<AllocFailed<T>> for OpFault {
    ghost use Rattle.std.specs.Prelude.{◌≡◌};
    ghost use Rattle.transport_asm.specs.declared.faults.OpFault.TheVariants.{NoMemory};

    ghost from_gives = { λ _ e. e ≡ NoMemory };

    fn from(_refused: AllocFailed<T>) -> OpFault {
        OpFault::NoMemory
    }
}

impl From<NoMemory> for OpFault {
    ghost use Rattle.std.specs.Prelude.{◌≡◌};
    ghost use Rattle.transport_asm.specs.declared.faults.OpFault.TheVariants.{NoMemory};

    ghost from_gives = { λ _ e. e ≡ NoMemory };

    fn from(_refused: NoMemory) -> OpFault {
        OpFault::NoMemory
    }
}

impl From<AsmKind> for OpFault {
    ghost use Rattle.std.specs.Prelude.{◌≡◌};
    ghost use Rattle.transport_asm.specs.declared.faults.OpFault.TheVariants.{Refused};

    ghost from_gives = { λ kind e. e ≡ Refused kind };

    fn from(kind: AsmKind) -> OpFault {
        OpFault::Refused { kind }
    }
}

/// Why no program was read.
#[derive(Clone, Copy, Debug, PartialEq, Eq)]
pub enum AsmFault {
    /// The text is no program's: the first offending line, from 1, and the kind of its first offending
    /// word.
    Refused { line: u32, kind: AsmKind },
    /// Memory ran out.
    NoMemory,
}

impl From<AllocError> for AsmFault {
    ghost use Rattle.std.specs.Prelude.{◌≡◌};
    ghost use Rattle.transport_asm.specs.declared.faults.AsmFault.TheVariants.{NoMemory};

    ghost from_gives = { λ _ e. e ≡ NoMemory };

    fn from(_refused: AllocError) -> AsmFault {
        AsmFault::NoMemory
    }
}

impl<T: Drop> From<AllocFailed<T>> for AsmFault {
    ghost use Rattle.std.specs.Prelude.{◌≡◌};
    ghost use Rattle.transport_asm.specs.declared.faults.AsmFault.TheVariants.{NoMemory};

    ghost from_gives = { λ _ e. e ≡ NoMemory };

    fn from(_refused: AllocFailed<T>) -> AsmFault {
        AsmFault::NoMemory
    }
}

impl From<NoMemory> for AsmFault {
    ghost use Rattle.std.specs.Prelude.{◌≡◌};
    ghost use Rattle.transport_asm.specs.declared.faults.AsmFault.TheVariants.{NoMemory};

    ghost from_gives = { λ _ e. e ≡ NoMemory };

    fn from(_refused: NoMemory) -> AsmFault {
        AsmFault::NoMemory
    }
}
