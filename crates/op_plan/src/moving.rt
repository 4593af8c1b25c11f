//! What a plan keeps, after one operation more.

ghost use Rattle.std.specs.Prelude.{◌≡◌, ◌<◌, ◌∷◌, [], ℕ, IfSome, length, map, None, Some, option_map, slice_get};
ghost use Rattle.std.specs.List.{AllByRecursion};
ghost use Rattle.qccd_machine.specs.Machine.{MachineData};
ghost use Rattle.op_table.specs.Act.{end_index};
ghost use Rattle.op_table.specs.Contents.{content};
ghost use Rattle.op_table.specs.State.{State};
ghost use Rattle.op_table.specs.Step.{why};
ghost use Rattle.op_table.specs.Touch.{touches};
ghost use Rattle.op_cells.specs.Numbering.{IsThere};
ghost use Rattle.op_cells.specs.Shows.{Shows};
ghost use Rattle.op_plan.specs.Kept.{mover, rehomed, Keeps};
ghost use Rattle.op_plan.specs.Plan.{state_of, with_ops, Agrees, PlanData};

use op_cells::{Cells, chain_in, rider_in, run_cold};
use op_table::{Content, Entry, Op, OpKind, Rider};
use qccd_base::{End, Qubit, Res, TrapId};
use qccd_machine::Machine;

/// Does a legal operation on what the resources hold, and notes where the qubit is that it moves.
#[inline(always)]
pub(crate) fn follow(machine: &Machine, op: &Op, cells: &mut Cells, homes: &mut Vec<Option<TrapId>>)
    requires { (p : PlanData) × Keeps p cells.old homes.old.items × Agrees machine.now p × (length p.ops < 4194304) × (why machine.now (state_of p) op.now ≡ None) }
    ensures { (p : PlanData) → Keeps p cells.old homes.old.items → Agrees machine.now p → length p.ops < 4194304 → why machine.now (state_of p) op.now ≡ None → Keeps (with_ops p (op.now ∷ [])) cells.new homes.new.items }
{
    let _kind = op.kind();
    let moving = mover(op, cells);
    run_cold(machine, op, cells);
    rehome(homes, moving);
}

// The qubit that the operation takes out of its trap or brings into one, with the trap in which it then
// is.
#[inline(always)]
fn mover(op: &Op, cells: &Cells) -> Option<(Qubit, Option<TrapId>)>
    requires { (m : MachineData) × (s : State) × Shows m s cells.now × AllByRecursion (IsThere m s.bits) (touches op.now) }
    ensures { (m : MachineData) (s : State) → Shows m s cells.now → AllByRecursion (IsThere m s.bits) (touches op.now) → result ≡ mover op.now (map (content s) (touches op.now)) }
{
    match op.kind() {
        OpKind::Split { trap, end, seg: _ } => {
            leaving(chain_in(held(cells, Res::Trap(*trap))), *end)
        }
        OpKind::Merge { seg, trap, end: _ } => {
            arriving(rider_in(held(cells, Res::Seg(*seg))), *trap)
        }
        OpKind::Move { seg: _ } => None,
        OpKind::Enter { seg: _, junc: _ } => None,
        OpKind::Leave { junc: _, seg: _ } => None,
        OpKind::Rot { trap: _, at: _ } => None,
        OpKind::GSwap {
            trap: _,
            low: _,
            high: _,
        } => None,
        OpKind::Item {
            number: _,
            trap: _,
            item: _,
            at: _,
        } => None,
        OpKind::Fence {
            number: _,
            item: _,
            traps: _,
        } => None,
    }
}

/// What the resource holds.
pub(crate) fn held(cells: &Cells, res: Res) -> &Content
    requires { (m : MachineData) × (s : State) × Shows m s cells.now × IsThere m s.bits res }
    ensures { (m : MachineData) (s : State) → Shows m s cells.now → IsThere m s.bits res → result.now ≡ content s res }
{
    &cells.at(res).content
}

fn leaving(chain: &[Entry], end: End) -> Option<(Qubit, Option<TrapId>)>
    ensures { result ≡ option_map (λ x. (x.qubit, None)) (slice_get chain.now (end_index end chain.now)) }
{
    let last = match end {
        End::Left => chain.first(),
        End::Right => chain.last(),
    };
    match last {
        None => None,
        Some(entry) => Some((entry.qubit, None)),
    }
}

fn arriving(rider: Option<Rider>, trap: TrapId) -> Option<(Qubit, Option<TrapId>)>
    ensures { result ≡ option_map (λ r. (r.entry.qubit, Some trap)) rider }
{
    match rider {
        None => None,
        Some(rider) => Some((rider.entry.qubit, Some(trap))),
    }
}

// Notes where that qubit is.
fn rehome(homes: &mut Vec<Option<TrapId>>, moving: Option<(Qubit, Option<TrapId>)>)
    requires { IfSome moving (λ x. x.0.0 < length homes.old.items) }
    ensures { homes.new.items ≡ rehomed moving homes.old.items }
{
    match moving {
        None => {}
        Some((qubit, home)) => homes[usize::from(qubit.0)] = home,
    }
}
