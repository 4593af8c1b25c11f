//! When an operation is legal on the cells of a machine, and why not.

ghost use Rattle.std.specs.Prelude.{◌≡◌, ◌-◌, ◌<◌, ◌≤◌, ◌&&◌, ◌==◌, ◌∷◌, [], length, map, get_or, nat_lt, is_none, is_some, Option, IfNone, option_map, slice_get};
ghost use Rattle.std.specs.List.{list_any, list_all};
ghost use Rattle.std.specs.Result.{result_err};
ghost use Rattle.qccd_base.specs.FirstFailing.{first_failing};
ghost use Rattle.qccd_base.specs.declared.names.Res.TheVariants as res;
ghost use Rattle.op_table.specs.declared.kinds.OpKind.TheVariants as kind;
ghost use Rattle.op_table.specs.Act.{chain_in, chain_carries, chain_holds, carry_in, rider_in, rides_at, why_on};
ghost use Rattle.op_table.specs.State.{State, IsSafe};
ghost use Rattle.op_table.specs.Step.{is_qubit, why as why_in};
ghost use Rattle.op_table.specs.Touch.{touches};
ghost use Rattle.op_table.specs.declared.kinds.Why.TheVariants as why;
ghost use Rattle.op_cells.specs.Placed.{IsPlaced, bits_start, needs_there, names_parts_there};
ghost use Rattle.op_cells.specs.Places.{content_at};
ghost use Rattle.op_cells.specs.Settled.{IsLegalOn};
ghost use Rattle.op_cells.specs.Shows.{AreOf, Shows};

use crate::cells::{Cell, Cells};
use crate::effects::{carry_in, chain_in, rider_in};
use crate::ends::{end_at, same_end};
use crate::numbering::index_of;
use crate::places::is_placed;
use op_table::{Carry, Entry, Op, OpKind, Rider, Why};
use qccd_base::{Bit, End, JuncId, Qubit, Res, SegEnd, SegId, TrapId};
use qccd_machine::{Machine, Place};

/// Whether the operation is legal on the cells, and if not, why: the cause that stands first in `Why`.
/// It looks at what the operation touches alone. It takes no memory.
pub fn legal(machine: &Machine, op: &Op, cells: &Cells) -> Result<(), Why>
    requires { AreOf machine.now cells.now }
    ensures { (s : State) → IsSafe machine.now s → Shows machine.now s cells.now → result_err result ≡ why_in machine.now s op.now }
{
    // The operation keeps to its form, as the contract of its kind tells.
    let _kind = op.kind();
    match cause(machine, op, cells.as_slice()) {
        None => Ok(()),
        Some(why) => Err(why),
    }
}

/// Why the operation is not legal on these cells, whatever they show.
pub(crate) fn told(machine: &Machine, op: &Op, cells: &[Cell]) -> Option<Why>
    ensures { IfNone result (IsLegalOn machine.now op.now (map (content_at machine.now cells.now) (touches op.now))) }
{
    if cells.len() < index_of(machine, Res::Bit(Bit(0))) {
        return Some(Why::NoPlace);
    }
    cause(machine, op, cells)
}

// Why the operation is not legal on the cells.
fn cause(machine: &Machine, op: &Op, cells: &[Cell]) -> Option<Why>
    requires { bits_start machine.now ≤ length cells.now }
    ensures { result ≡ why_on machine.now (length cells.now - bits_start machine.now) op.now (map (content_at machine.now cells.now) (touches op.now)) }
{
    let bits = cells.len() - index_of(machine, Res::Bit(Bit(0)));
    if is_placed(machine, bits, op) {
        cause_there(machine, op, cells)
    } else {
        Some(Why::NoPlace)
    }
}

// The same, where what the operation names is there.
fn cause_there(machine: &Machine, op: &Op, cells: &[Cell]) -> Option<Why>
    requires { IsPlaced machine.now op.now }
    ensures { result ≡ first_failing (needs_there machine.now op.now (map (content_at machine.now cells.now) (touches op.now))) }
{
    match op.kind() {
        OpKind::Split { trap, end, seg } => split_cause(machine, cells, *trap, *end, *seg),
        OpKind::Move { seg } => move_cause(machine, cells, *seg),
        OpKind::Enter { seg, junc } => enter_cause(machine, cells, *seg, *junc),
        OpKind::Leave { junc, seg } => leave_cause(machine, cells, *junc, *seg),
        OpKind::Merge { seg, trap, end } => merge_cause(machine, cells, *seg, *trap, *end),
        OpKind::Rot { trap, at } => rot_cause(machine, cells, *trap, *at),
        OpKind::GSwap { trap, low, high } => gswap_cause(machine, cells, *trap, *low, *high),
        OpKind::Item {
            number: _,
            trap,
            item,
            at,
        } => {
            let chain = chain_at(machine, cells, Res::Trap(*trap));
            item_cause(chain, at.as_slice(), item.qubits().as_slice())
        }
        OpKind::Fence {
            number: _,
            item,
            traps: _,
        } => fence_cause(machine, cells, op.touches(), item.qubits().as_slice()),
    }
}

fn split_cause(machine: &Machine, cells: &[Cell], trap: TrapId, end: End, seg: SegId) -> Option<Why>
    requires { seg.0 < length machine.now.segments }
    ensures { result ≡ first_failing (needs_there machine.now (kind.Split trap end seg) (content_at machine.now cells.now (res.Trap trap) ∷ content_at machine.now cells.now (res.Seg seg) ∷ [])) }
{
    let chain = chain_at(machine, cells, Res::Trap(trap));
    let rider = rider_at(machine, cells, Res::Seg(seg));
    let joined = end_at(machine, seg, Place::TrapEnd(trap, end));
    first_failing(&[
        (Why::NoIon, 0 < chain.len()),
        (Why::Occupied, rider.is_none()),
        (Why::NotJoined, joined.is_some()),
    ])
}

fn move_cause(machine: &Machine, cells: &[Cell], seg: SegId) -> Option<Why>
    ensures { result ≡ first_failing (needs_there machine.now (kind.Move seg) (content_at machine.now cells.now (res.Seg seg) ∷ [])) }
{
    let rider = rider_at(machine, cells, Res::Seg(seg));
    first_failing(&[(Why::NoIon, rider.is_some())])
}

fn enter_cause(machine: &Machine, cells: &[Cell], seg: SegId, junc: JuncId) -> Option<Why>
    requires { seg.0 < length machine.now.segments }
    ensures { result ≡ first_failing (needs_there machine.now (kind.Enter seg junc) (content_at machine.now cells.now (res.Seg seg) ∷ content_at machine.now cells.now (res.Junc junc) ∷ [])) }
{
    let rider = rider_at(machine, cells, Res::Seg(seg));
    let carry = carry_at(machine, cells, Res::Junc(junc));
    let joined = end_at(machine, seg, Place::Junction(junc));
    first_failing(&[
        (Why::NoIon, rider.is_some()),
        (Why::Occupied, carry.is_none()),
        (Why::NotJoined, joined.is_some()),
        (Why::WrongEnd, rides_at(joined, rider)),
    ])
}

fn leave_cause(machine: &Machine, cells: &[Cell], junc: JuncId, seg: SegId) -> Option<Why>
    requires { seg.0 < length machine.now.segments }
    ensures { result ≡ first_failing (needs_there machine.now (kind.Leave junc seg) (content_at machine.now cells.now (res.Seg seg) ∷ content_at machine.now cells.now (res.Junc junc) ∷ [])) }
{
    let rider = rider_at(machine, cells, Res::Seg(seg));
    let carry = carry_at(machine, cells, Res::Junc(junc));
    let joined = end_at(machine, seg, Place::Junction(junc));
    first_failing(&[
        (Why::NoIon, carry.is_some()),
        (Why::Occupied, rider.is_none()),
        (Why::NotJoined, joined.is_some()),
    ])
}

fn merge_cause(machine: &Machine, cells: &[Cell], seg: SegId, trap: TrapId, end: End) -> Option<Why>
    requires seg_there { seg.0 < length machine.now.segments }
    requires trap_there { trap.0 < length machine.now.capacities }
    ensures { result ≡ first_failing (needs_there machine.now (kind.Merge seg trap end) (content_at machine.now cells.now (res.Trap trap) ∷ content_at machine.now cells.now (res.Seg seg) ∷ [])) }
{
    let chain = chain_at(machine, cells, Res::Trap(trap));
    let rider = rider_at(machine, cells, Res::Seg(seg));
    let joined = end_at(machine, seg, Place::TrapEnd(trap, end));
    first_failing(&[
        (Why::NoIon, rider.is_some()),
        (Why::Full, chain.len() < capacity(machine, trap)),
        (Why::NotJoined, joined.is_some()),
        (Why::WrongEnd, rides_at(joined, rider)),
    ])
}

fn rot_cause(machine: &Machine, cells: &[Cell], trap: TrapId, at: u8) -> Option<Why>
    ensures { result ≡ first_failing (needs_there machine.now (kind.Rot trap at) (content_at machine.now cells.now (res.Trap trap) ∷ [])) }
{
    let chain = chain_at(machine, cells, Res::Trap(trap));
    first_failing(&[(Why::Position, usize::from(at) + 1 < chain.len())])
}

fn gswap_cause(machine: &Machine, cells: &[Cell], trap: TrapId, low: u8, high: u8) -> Option<Why>
    ensures { result ≡ first_failing (needs_there machine.now (kind.GSwap trap low high) (content_at machine.now cells.now (res.Trap trap) ∷ [])) }
{
    let chain = chain_at(machine, cells, Res::Trap(trap));
    first_failing(&[(Why::Position, usize::from(high) < chain.len())])
}

// Of an item on these qubits at these positions of the chain.
fn item_cause(chain: &[Entry], at: &[u8], qubits: &[Qubit]) -> Option<Why>
    requires { length at.now ≡ length qubits.now }
    ensures { result ≡ first_failing ((why.Position, list_all (λ k. nat_lt k (length chain.now)) at.now) ∷ (why.WrongQubit, chain_carries chain.now at.now qubits.now) ∷ []) }
{
    first_failing(&[
        (Why::Position, are_within(chain, at)),
        (Why::WrongQubit, chain_carries(chain, at, qubits)),
    ])
}

fn are_within(chain: &[Entry], at: &[u8]) -> bool
    ensures { result ≡ list_all (λ k. nat_lt k (length chain.now)) at.now }
{
    at.iter()
        .all(|position| usize::from(*position) < chain.len())
}

// Whether the qubits stand at the positions, one for one.
fn chain_carries(chain: &[Entry], at: &[u8], qubits: &[Qubit]) -> bool
    requires { length at.now ≡ length qubits.now }
    ensures { result ≡ chain_carries chain.now at.now qubits.now }
{
    for i in 0..at.len() {
        if !stands_at(chain, at[i], qubits[i]) {
            return false;
        }
    }
    true
}

fn stands_at(chain: &[Entry], position: u8, qubit: Qubit) -> bool
    ensures { result ≡ is_qubit qubit (option_map (λ e. e.qubit) (slice_get chain.now position)) }
{
    match chain.get(usize::from(position)) {
        None => false,
        Some(entry) => entry.qubit.0 == qubit.0,
    }
}

// Of a fence on these qubits over these traps.
fn fence_cause(machine: &Machine, cells: &[Cell], traps: &[Res], qubits: &[Qubit]) -> Option<Why>
    ensures { result ≡ first_failing ((why.WrongTraps, list_all (λ q. list_any (λ r. chain_holds (content_at machine.now cells.now r) q) traps.now) qubits.now && list_all (λ r. list_any (chain_holds (content_at machine.now cells.now r)) qubits.now) traps.now) ∷ []) }
{
    let held = are_held(machine, cells, traps, qubits);
    first_failing(&[(
        Why::WrongTraps,
        held && hold_some(machine, cells, traps, qubits),
    )])
}

// Whether each qubit stands in one of the traps.
fn are_held(machine: &Machine, cells: &[Cell], traps: &[Res], qubits: &[Qubit]) -> bool
    ensures { result ≡ list_all (λ q. list_any (λ r. chain_holds (content_at machine.now cells.now r) q) traps.now) qubits.now }
{
    qubits
        .iter()
        .all(|qubit| is_held(machine, cells, traps, *qubit))
}

fn is_held(machine: &Machine, cells: &[Cell], traps: &[Res], qubit: Qubit) -> bool
    ensures { result ≡ list_any (λ r. chain_holds (content_at machine.now cells.now r) qubit) traps.now }
{
    traps
        .iter()
        .any(|trap| holds(chain_at(machine, cells, *trap), qubit))
}

// Whether each trap holds one of the qubits.
fn hold_some(machine: &Machine, cells: &[Cell], traps: &[Res], qubits: &[Qubit]) -> bool
    ensures { result ≡ list_all (λ r. list_any (chain_holds (content_at machine.now cells.now r)) qubits.now) traps.now }
{
    traps
        .iter()
        .all(|trap| holds_some(chain_at(machine, cells, *trap), qubits))
}

fn holds_some(chain: &[Entry], qubits: &[Qubit]) -> bool
    ensures { result ≡ list_any (λ q. list_any (λ e. e.qubit.0 == q.0) chain.now) qubits.now }
{
    qubits.iter().any(|qubit| holds(chain, *qubit))
}

fn holds(chain: &[Entry], qubit: Qubit) -> bool
    ensures { result ≡ list_any (λ e. e.qubit.0 == qubit.0) chain.now }
{
    chain.iter().any(|entry| entry.qubit.0 == qubit.0)
}

// Whether the ion stands at that end of its segment.
fn rides_at(end: Option<SegEnd>, rider: Option<Rider>) -> bool
    ensures { result ≡ rides_at end rider }
{
    match end {
        None => false,
        Some(end) => match rider {
            None => false,
            Some(rider) => same_end(end, rider.end),
        },
    }
}

// How many ions the trap takes.
fn capacity(machine: &Machine, trap: TrapId) -> usize
    requires { trap.0 < length machine.now.capacities }
    ensures { result ≡ get_or machine.now.capacities trap.0 0 }
{
    usize::from(machine.capacity(trap))
}

// The chain in the cell of a resource; where no cell is, there is none.
fn chain_at<'a>(machine: &Machine, cells: &'a [Cell], res: Res) -> &'a [Entry]
    ensures { result.now ≡ chain_in (content_at machine.now cells.now res) }
{
    match cells.get(index_of(machine, res)) {
        None => &[],
        Some(cell) => chain_in(&cell.content),
    }
}

fn rider_at(machine: &Machine, cells: &[Cell], res: Res) -> Option<Rider>
    ensures { result ≡ rider_in (content_at machine.now cells.now res) }
{
    match cells.get(index_of(machine, res)) {
        None => None,
        Some(cell) => rider_in(&cell.content),
    }
}

fn carry_at(machine: &Machine, cells: &[Cell], res: Res) -> Option<Carry>
    ensures { result ≡ carry_in (content_at machine.now cells.now res) }
{
    match cells.get(index_of(machine, res)) {
        None => None,
        Some(cell) => carry_in(&cell.content),
    }
}

// The first cause whose test fails.
fn first_failing(needs: &[(Why, bool)]) -> Option<Why>
    ensures { result ≡ first_failing needs.now }
{
    for need in needs {
        if !need.1 {
            return Some(need.0);
        }
    }
    None
}
