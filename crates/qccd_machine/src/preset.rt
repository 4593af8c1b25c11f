//! The machines that are known by name.

ghost use Rattle.std.specs.Prelude.{◌≡◌, ◌≤◌, IfOk};
ghost use Rattle.qccd_machine.specs.Machine.{IsValid};
ghost use Rattle.qccd_machine.specs.Preset.{preset_of, wired};

use crate::machine::Machine;
use crate::place::Place::{self, Junction, TrapEnd};
use crate::place::Preset;
use qccd_base::End::{Left, Right};
use qccd_base::{JuncId, NoMemory, Times, TrapId};
use std::alloc::Global;

/// Six traps in a line: the two ends of each segment, end A first.
const LINE_OF_SIX: [(Place, Place); 5] = [
    (TrapEnd(TrapId(0), Right), TrapEnd(TrapId(1), Left)),
    (TrapEnd(TrapId(1), Right), TrapEnd(TrapId(2), Left)),
    (TrapEnd(TrapId(2), Right), TrapEnd(TrapId(3), Left)),
    (TrapEnd(TrapId(3), Right), TrapEnd(TrapId(4), Left)),
    (TrapEnd(TrapId(4), Right), TrapEnd(TrapId(5), Left)),
];

/// Six traps in two rows of three, with two junctions in each row that are joined to those of the
/// other.
const TWO_ROWS: [(Place, Place); 10] = [
    (TrapEnd(TrapId(0), Right), Junction(JuncId(0))),
    (Junction(JuncId(0)), TrapEnd(TrapId(1), Left)),
    (TrapEnd(TrapId(1), Right), Junction(JuncId(1))),
    (Junction(JuncId(1)), TrapEnd(TrapId(2), Left)),
    (TrapEnd(TrapId(3), Right), Junction(JuncId(2))),
    (Junction(JuncId(2)), TrapEnd(TrapId(4), Left)),
    (TrapEnd(TrapId(4), Right), Junction(JuncId(3))),
    (Junction(JuncId(3)), TrapEnd(TrapId(5), Left)),
    (Junction(JuncId(0)), Junction(JuncId(2))),
    (Junction(JuncId(1)), Junction(JuncId(3))),
];

/// The named machine, with traps of this capacity and the usual times, or `NoMemory` where memory
/// ran out. It is valid by its table, so nothing else is refused.
pub fn preset_machine(alloc: Global, which: Preset, capacity: u8) -> Result<Machine, NoMemory>
    requires least { 2 ≤ capacity }
    requires most { capacity ≤ 32 }
    ensures { IfOk result (λ m. m ≡ preset_of which capacity) }
{
    match which {
        Preset::L6 => machine_of(alloc, 6, capacity, 0, &LINE_OF_SIX),
        Preset::G2x3 => machine_of(alloc, 6, capacity, 4, &TWO_ROWS),
        Preset::Single => machine_of(alloc, 1, capacity, 0, &[]),
    }
}

/// The machine of so many traps of one capacity and so many junctions, joined by these segments,
/// with the usual times.
fn machine_of(
    alloc: Global,
    traps: u8,
    capacity: u8,
    junctions: u8,
    segments: &[(Place, Place)],
) -> Result<Machine, NoMemory>
    requires { IsValid (wired traps capacity junctions segments.now) }
    ensures { IfOk result (λ m. m ≡ wired traps capacity junctions segments.now) }
{
    let capacities = vec![in alloc; capacity; usize::from(traps)]?;
    let segments = Vec::from_slice(alloc, segments)?;
    Ok(Machine::of_valid(capacities, junctions, segments, Times::usual()))
}
