//! The resources of a machine, numbered in their order.

ghost use Rattle.std.specs.Prelude.{◌≡◌, ◌≤◌, ◌+◌};
ghost use Rattle.op_cells.specs.Numbering.{count_of, index_of};

use qccd_base::Res;
use qccd_machine::Machine;

/// How many resources there are: a machine has no more than 224 besides the bits.
pub fn count_of(machine: &Machine, bits: u16) -> usize
    ensures count { result ≡ count_of machine.now bits }
    ensures few { result ≤ 224 + bits }
{
    usize::from(machine.traps())
        + usize::from(machine.segments())
        + usize::from(machine.junctions())
        + usize::from(bits)
}

/// The number of a resource: traps come first, then segments, junctions and bits.
#[inline(always)]
pub fn index_of(machine: &Machine, res: Res) -> usize
    ensures { result ≡ index_of machine.now res }
{
    let traps = usize::from(machine.traps());
    let segments = usize::from(machine.segments());
    let junctions = usize::from(machine.junctions());
    match res {
        Res::Trap(trap) => usize::from(trap.0),
        Res::Seg(seg) => traps + usize::from(seg.0),
        Res::Junc(junc) => traps + segments + usize::from(junc.0),
        Res::Bit(bit) => traps + segments + junctions + usize::from(bit.0),
    }
}
