//! The operations of a raw program, one after another.

ghost use Rattle.std.specs.Prelude.{◌≡◌, ◌≤◌, ◌++◌, ◌∷◌, [], List, length, IfOk, IsTrue, OnOk, option_map};
ghost use Rattle.std.specs.List.{AllByRecursion};
ghost use Rattle.op_table.specs.Op.{IsOp, KeepsItemRule};
ghost use Rattle.op_table.specs.Run.{item_in};
ghost use Rattle.op_table.specs.Start.{IsStart};
ghost use Rattle.op_table.specs.State.{State, IsSafe, opening};
ghost use Rattle.op_table.specs.Step.{effect};
ghost use Rattle.op_table.specs.declared.kinds.OpKind.{OpKind};
ghost use Rattle.op_cells.specs.Shows.{Shows};
ghost use Rattle.op_plan.specs.Cold.{cold};
ghost use Rattle.qccd_program.specs.Mode.{is_of_mode};
ghost use Rattle.loader.specs.Refusal.{does_again, fault_behind, first_fault, Answers};
ghost use Rattle.loader.specs.Marked.{AreDone};

use crate::faults::LoadFault;
use op_cells::{Cells, legal, run_cold};
use op_plan::opening_cells;
use op_table::{Op, OpKind};
use qccd_base::{IonList, Mode, NoMemory};
use qccd_machine::Machine;
use std::alloc::Global;
use std::collections::BTreeSet;

// The number of the item that the operation does.
fn item_of(op: &Op) -> Option<u32>
    ensures { result ≡ option_map (λ e. e.0) (item_in op.now) }
{
    match op.kind() {
        OpKind::Item { number, .. } => Some(*number),
        OpKind::Fence { number, .. } => Some(*number),
        OpKind::Split { .. } => None,
        OpKind::Move { .. } => None,
        OpKind::Enter { .. } => None,
        OpKind::Leave { .. } => None,
        OpKind::Merge { .. } => None,
        OpKind::Rot { .. } => None,
        OpKind::GSwap { .. } => None,
    }
}

// Notes the item that the operation does, and tells whether it was done before.
fn is_again(op: &Op, done: &mut BTreeSet<u32>) -> Result<bool, NoMemory>
    ensures again { IfOk result (λ again. (earlier : List OpKind) → AreDone earlier done.old → again ≡ does_again earlier (item_in op.now)) }
    ensures done { OnOk result ((earlier : List OpKind) → AreDone earlier done.old → AreDone (earlier ++ op.now ∷ []) done.new) }
{
    match item_of(op) {
        None => Ok(false),
        Some(number) => Ok(!done.insert(number)?),
    }
}

// Whether a program of this mode may have the operation.
fn is_of_mode(mode: Option<Mode>, op: &Op) -> bool
    ensures { result ≡ is_of_mode mode op.now }
{
    match op.kind() {
        OpKind::Rot { .. } => mode != Some(Mode::GateSwap),
        OpKind::GSwap { .. } => mode != Some(Mode::IonSwap),
        OpKind::Split { .. } => true,
        OpKind::Move { .. } => true,
        OpKind::Enter { .. } => true,
        OpKind::Leave { .. } => true,
        OpKind::Merge { .. } => true,
        OpKind::Item { .. } => true,
        OpKind::Fence { .. } => true,
    }
}

// Does an operation on what the cells hold, where nothing is wrong with it.
fn step(
    machine: &Machine,
    mode: Option<Mode>,
    number: u32,
    op: &Op,
    cells: &mut Cells,
    done: &mut BTreeSet<u32>,
) -> Result<(), LoadFault>
    requires { (s : State) × IsSafe machine.now s × Shows machine.now (cold s) cells.old }
    ensures told { (s : State) (earlier : List OpKind) → IsSafe machine.now s → Shows machine.now (cold s) cells.old → AreDone earlier done.old
        → Answers result (fault_behind machine.now mode s earlier number op.now) }
    ensures next { OnOk result ((s : State) (earlier : List OpKind) → IsSafe machine.now s → Shows machine.now (cold s) cells.old → AreDone earlier done.old
        → Shows machine.now (cold (effect machine.now s op.now)) cells.new × AreDone (earlier ++ op.now ∷ []) done.new) }
    ensures is_op { IsOp op.now }
    ensures item_rule { KeepsItemRule op.now }
    ensures of_mode { OnOk result (IsTrue (is_of_mode mode op.now)) }
{
    let _kind = op.kind();
    if is_again(op, done)? {
        return Err(LoadFault::ItemTwice { op: number });
    }
    if let Err(why) = legal(machine, op, cells) {
        return Err(LoadFault::Illegal { op: number, why });
    }
    if !is_of_mode(mode, op) {
        return Err(LoadFault::WrongMode { op: number });
    }
    run_cold(machine, op, cells);
    Ok(())
}

/// Whether the operations are a run from the start chains in which no item stands twice, all of the mode, and if
/// not, why.
pub fn operations(
    alloc: Global,
    machine: &Machine,
    qubits: u16,
    bits: u16,
    mode: Option<Mode>,
    chains: &[IonList],
    ops: &[Op],
) -> Result<(), LoadFault>
    requires few { length ops.now ≤ 4194304 }
    requires start { IsStart machine.now qubits chains.now }
    ensures told { Answers result (first_fault machine.now mode (opening qubits bits chains.now) [] 0 ops.now) }
    ensures kinds { OnOk result (AllByRecursion IsOp ops.now) }
    ensures items { OnOk result (AllByRecursion KeepsItemRule ops.now) }
    ensures of_mode { OnOk result (AllByRecursion (λ op. IsTrue (is_of_mode mode op)) ops.now) }
{
    let mut cells = opening_cells(alloc, machine, bits, chains)?;
    let mut done = BTreeSet::new(alloc);
    for k in 0..ops.len() {
        step(machine, mode, k as u32, &ops[k], &mut cells, &mut done)?;
    }
    Ok(())
}
