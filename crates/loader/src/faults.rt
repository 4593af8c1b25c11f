//! Why a raw program is no program of a machine.

use op_table::Why;
use qccd_base::{Ion, NoMemory, TrapId};
use std::alloc::{AllocError, AllocFailed};

/// Why a raw program is no program of a machine. Of several reasons the first is told: they stand here in
/// their order, but for the three of operations, which are gone through one after another.
#[derive(Clone, Copy, Debug, PartialEq, Eq)]
pub enum LoadFault {
    /// Not as many chains were given as the machine has traps.
    TrapCount { given: u32, traps: u32 },
    /// The first ion, in reading order, that is not below the number of qubits or stands a second time.
    /// Where there is none, the least ion that is missing.
    BadStart { ion: Ion },
    /// The first chain above its trap's capacity.
    StartOverfull { trap: TrapId },
    /// The first operation that has no step, and why. It repeats no item.
    Illegal { op: u32, why: Why },
    /// The first operation that does an item once more, by its number.
    ItemTwice { op: u32 },
    /// The first operation that a program of the named mode may not have. It repeats no item, and has a step.
    WrongMode { op: u32 },
    /// Memory ran out.
    NoMemory,
}

impl From<AllocError> for LoadFault {
    ghost use Rattle.std.specs.Prelude.{◌≡◌};
    ghost use Rattle.loader.specs.declared.faults.LoadFault.TheVariants.{NoMemory};

    ghost from_gives = { λ _ e. e ≡ NoMemory };

    fn from(_refused: AllocError) -> LoadFault {
        LoadFault::NoMemory
    }
}

impl<T: Drop> From<AllocFailed<T>> for LoadFault {
    ghost use Rattle.std.specs.Prelude.{◌≡◌};
    ghost use Rattle.loader.specs.declared.faults.LoadFault.TheVariants.{NoMemory};

    ghost from_gives = { λ _ e. e ≡ NoMemory };

    fn from(_refused: AllocFailed<T>) -> LoadFault {
        LoadFault::NoMemory
    }
}

impl From<NoMemory> for LoadFault {
    ghost use Rattle.std.specs.Prelude.{◌≡◌};
    ghost use Rattle.loader.specs.declared.faults.LoadFault.TheVariants.{NoMemory};

    ghost from_gives = { λ _ e. e ≡ NoMemory };

    fn from(_refused: NoMemory) -> LoadFault {
        LoadFault::NoMemory
    }
}
