//! Why a circuit is not placed on a machine.

use qccd_base::NoMemory;
use thiserror::Error;

/// Why a circuit is not placed on a machine.
#[derive(Clone, Copy, Debug, PartialEq, Eq, Error)]
pub enum MapFault {
    /// The circuit has more qubits than the machine takes.
    #[error("{qubits} qubits, {slots} slots")]
    Shortage { qubits: u32, slots: u32 },
    /// Memory ran out.
    #[error("no memory")]
    NoMemory,
}

impl From<NoMemory> for MapFault {
    ghost use Rattle.std.specs.Prelude.{◌≡◌};
    ghost use Rattle.ion_mapping.specs.declared.fault.MapFault.TheVariants.{NoMemory};

    ghost from_gives = { λ _ e. e ≡ NoMemory };

    fn from(_refused: NoMemory) -> MapFault {
        MapFault::NoMemory
    }
}
