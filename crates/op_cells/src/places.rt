//! Whether what an operation names is there.

ghost use Rattle.std.specs.Prelude.{◌≡◌, ◌<◌, length, nat_lt};
ghost use Rattle.std.specs.List.{list_all};
ghost use Rattle.qccd_circuit.specs.Item.{cond_bits};
ghost use Rattle.op_table.specs.Step.{has_trap, has_segment, has_junction};
ghost use Rattle.op_cells.specs.Placed.{bits_below, names_parts_there};

use op_table::{Op, OpKind};
use qccd_base::{Bit, JuncId, SegId, TrapId};
use qccd_circuit::{Cond, Item};
use qccd_machine::Machine;

/// Whether the traps, segments and junctions that the operation names are there, and its bits are below
/// so many.
pub(crate) fn is_placed(machine: &Machine, bits: usize, op: &Op) -> bool
    ensures { result ≡ names_parts_there machine.now bits op.now }
{
    match op.kind() {
        OpKind::Split { trap, end: _, seg } => {
            has_trap(machine, *trap) && has_segment(machine, *seg)
        }
        OpKind::Move { seg } => has_segment(machine, *seg),
        OpKind::Enter { seg, junc } => has_segment(machine, *seg) && has_junction(machine, *junc),
        OpKind::Leave { junc, seg } => has_segment(machine, *seg) && has_junction(machine, *junc),
        OpKind::Merge { seg, trap, end: _ } => {
            has_trap(machine, *trap) && has_segment(machine, *seg)
        }
        OpKind::Rot { trap, at: _ } => has_trap(machine, *trap),
        OpKind::GSwap {
            trap,
            low: _,
            high: _,
        } => has_trap(machine, *trap),
        OpKind::Item {
            number: _,
            trap,
            item,
            at: _,
        } => has_trap(machine, *trap) && bits_below(bits, item),
        OpKind::Fence {
            number: _,
            item,
            traps,
        } => have_traps(machine, traps.as_slice()) && bits_below(bits, item),
    }
}

fn has_trap(machine: &Machine, trap: TrapId) -> bool
    ensures { result ≡ has_trap machine.now trap.0 }
{
    trap.0 < machine.traps()
}

fn have_traps(machine: &Machine, traps: &[TrapId]) -> bool
    ensures { result ≡ list_all (λ t. has_trap machine.now t.0) traps.now }
{
    traps.iter().all(|trap| has_trap(machine, *trap))
}

fn has_segment(machine: &Machine, seg: SegId) -> bool
    ensures { result ≡ has_segment machine.now seg.0 }
{
    seg.0 < machine.segments()
}

fn has_junction(machine: &Machine, junc: JuncId) -> bool
    ensures { result ≡ has_junction machine.now junc.0 }
{
    junc.0 < machine.junctions()
}

// Whether each bit that the item writes or its condition reads is below so many.
fn bits_below(bits: usize, item: &Item) -> bool
    ensures { result ≡ bits_below bits item.now }
{
    written_below(bits, item.bits().as_slice()) && read_below(bits, item.cond())
}

fn written_below(bits: usize, written: &[Bit]) -> bool
    ensures { result ≡ list_all (λ b. nat_lt b.0 bits) written.now }
{
    written.iter().all(|bit| usize::from(bit.0) < bits)
}

fn read_below(bits: usize, cond: &Option<Cond>) -> bool
    ensures { result ≡ list_all (λ b. nat_lt b.0 bits) (cond_bits cond.now) }
{
    match cond {
        None => true,
        Some(cond) => {
            let end = usize::from(cond.first.0) + usize::from(cond.count);
            cond.count == 0 || end <= bits
        }
    }
}
