//! A qubit goes to an end of its chain.

ghost use Rattle.std.specs.Prelude.{◌≡◌, ◌≤◌, ◌<◌, ◌+◌, ◌-◌, ◌∷◌, [], ℕ, length, get_or, None, Some, OnErr, OnOk};
ghost use Rattle.op_table.specs.declared.kinds.OpKind.TheVariants as kind;
ghost use Rattle.op_table.specs.Run.{IsRun};
ghost use Rattle.op_plan.specs.Place.{home};
ghost use Rattle.op_plan.specs.Plan.{state_of, wired, with_ops, Agrees, Continues};
ghost use Rattle.chain_reorder.specs.Reorder.{reorder_ops, rots_down, rots_up, swap_ops};

use op_plan::Plan;
use op_table::OpKind;
use qccd_base::{End, Mode, NoMemory, Qubit, TrapId};
use qccd_machine::Machine;
use std::alloc::Global;

/// Appends the operations that bring the qubit to that end of its chain: exchanges of neighbours, fewer
/// than the trap takes ions, or one exchange of two qubits, or none where it stands there. Where memory
/// runs out the plan may have some of them.
pub fn to_end(
    alloc: Global,
    machine: &Machine,
    plan: &mut Plan,
    trap: TrapId,
    qubit: Qubit,
    end: End,
    mode: Mode,
) -> Result<(), NoMemory>
    requires machine { Agrees machine.now plan.old }
    requires there { qubit.0 < plan.old.qubits }
    requires stands { home (state_of plan.old) qubit ≡ Some trap }
    requires room { length plan.old.ops + (get_or plan.old.capacities trap.0 0 - 1) ≤ 4194304 }
    ensures done { OnOk result (plan.new ≡ with_ops plan.old (reorder_ops (state_of plan.old) qubit end mode)) }
    ensures few { length (reorder_ops (state_of plan.old) qubit end mode) ≤ get_or plan.old.capacities trap.0 0 - 1 }
    ensures refused { OnErr result (Continues plan.old plan.new) }
{
    // The machine's traps take few ions, and the plan is a run, as the contracts of these tell.
    let _traps = machine.traps();
    let _ops = plan.ops();
    match plan.place_of(qubit) {
        None => Ok(()),
        Some((_, at)) => {
            let last = plan.chain(trap).len() as u8 - 1;
            match (mode, end) {
                (Mode::IonSwap, End::Left) => go_down(alloc, machine, plan, trap, at),
                (Mode::IonSwap, End::Right) => go_up(alloc, machine, plan, trap, at, last),
                (Mode::GateSwap, End::Left) => exchange(alloc, machine, plan, trap, 0, at),
                (Mode::GateSwap, End::Right) => exchange(alloc, machine, plan, trap, at, last),
            }
        }
    }
}

// Exchanges of neighbours from a position down to the left end.
fn go_down(
    alloc: Global,
    machine: &Machine,
    plan: &mut Plan,
    trap: TrapId,
    at: u8,
) -> Result<(), NoMemory>
    requires machine { Agrees machine.now plan.old }
    requires room { length plan.old.ops + at ≤ 4194304 }
    requires run { IsRun (wired plan.old) (state_of plan.old) (rots_down trap.0 at) }
    ensures done { OnOk result (plan.new ≡ with_ops plan.old (rots_down trap.0 at)) }
    ensures refused { OnErr result (Continues plan.old plan.new) }
{
    let mut position = at;
    while position > 0 {
        position -= 1;
        rotate(alloc, machine, plan, trap, position)?;
    }
    Ok(())
}

// Exchanges of neighbours from a position up to the last.
fn go_up(
    alloc: Global,
    machine: &Machine,
    plan: &mut Plan,
    trap: TrapId,
    at: u8,
    last: u8,
) -> Result<(), NoMemory>
    requires machine { Agrees machine.now plan.old }
    requires room { length plan.old.ops + (last - at) ≤ 4194304 }
    requires run { IsRun (wired plan.old) (state_of plan.old) (rots_up trap.0 at (last - at)) }
    ensures done { OnOk result (plan.new ≡ with_ops plan.old (rots_up trap.0 at (last - at))) }
    ensures refused { OnErr result (Continues plan.old plan.new) }
{
    let mut position = at;
    while position < last {
        rotate(alloc, machine, plan, trap, position)?;
        position += 1;
    }
    Ok(())
}

// The ions at a position and at the next one exchange places. Where memory runs out the plan stays.
fn rotate(
    alloc: Global,
    machine: &Machine,
    plan: &mut Plan,
    trap: TrapId,
    at: u8,
) -> Result<(), NoMemory>
    requires machine { Agrees machine.now plan.old }
    requires few { length plan.old.ops < 4194304 }
    requires run { IsRun (wired plan.old) (state_of plan.old) (kind.Rot trap at ∷ []) }
    ensures done { OnOk result (plan.new ≡ with_ops plan.old (kind.Rot trap at ∷ [])) }
    ensures refused { OnErr result (plan.new ≡ plan.old) }
{
    plan.append(alloc, machine, OpKind::Rot { trap, at })
}

// The ions at two positions exchange qubits, where these are two. Where memory runs out the plan stays.
fn exchange(
    alloc: Global,
    machine: &Machine,
    plan: &mut Plan,
    trap: TrapId,
    low: u8,
    high: u8,
) -> Result<(), NoMemory>
    requires machine { Agrees machine.now plan.old }
    requires order { low ≤ high }
    requires few { low < high → length plan.old.ops < 4194304 }
    requires run { IsRun (wired plan.old) (state_of plan.old) (swap_ops trap.0 low high) }
    ensures done { OnOk result (plan.new ≡ with_ops plan.old (swap_ops trap.0 low high)) }
    ensures refused { OnErr result (plan.new ≡ plan.old) }
{
    if low == high {
        return Ok(());
    }
    plan.append(alloc, machine, OpKind::GSwap { trap, low, high })
}
