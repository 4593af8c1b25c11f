//! Finds the operations that cancel, in one pass over all of them.

ghost use Rattle.std.specs.Prelude.{◌≡◌, ◌≤◌, ◌∷◌, ◌++◌, ℕ, IfOk, [], OnOk, Some, slice_get, length, replicate, set, true, drop, get_or};
ghost use Rattle.std.specs.List.{enumerate_from, list_all};
ghost use Rattle.qccd_base.specs.Resource.{among};
ghost use Rattle.qccd_base.specs.declared.names.Res.{Res};
ghost use Rattle.op_cells.specs.Numbering.{IsThere};
ghost use Rattle.op_table.specs.declared.kinds.OpKind.{OpKind};
ghost use Rattle.op_table.specs.Touch.{touches};
ghost use Rattle.passes.specs.Stacks.{first_top, is_number, kept_in, partner_of, popped, pushed, stacks_with, marks_with, top_at, undone_by};
ghost use Rattle.passes.specs.Tidy.{staying};

use crate::stack::Stack;
use crate::undoing::undoes;
use op_cells::{count_of, index_of};
use op_table::Op;
use qccd_base::{NoMemory, Res};
use qccd_machine::Machine;
use qccd_program::Program;
use std::alloc::Global;

// So many stacks with nothing on them.
fn empty_stacks(alloc: Global, count: usize) -> Result<Vec<Stack>, NoMemory>
    ensures { IfOk result (λ stacks. stacks.items ≡ replicate count []) }
{
    let mut stacks = Vec::with_capacity(alloc, count)?;
    for _ in 0..count {
        stacks.push(Stack::empty(alloc))?;
    }
    Ok(stacks)
}

// The number on top of a resource's stack.
fn top_at(machine: &Machine, stacks: &[Stack], r: Res) -> Option<u32>
    ensures { result ≡ top_at machine.now stacks.now r }
{
    match stacks.get(index_of(machine, r)) {
        None => None,
        Some(stack) => stack.top(),
    }
}

// The number on top of the first resource's stack.
fn first_top(machine: &Machine, stacks: &[Stack], touched: &[Res]) -> Option<u32>
    ensures { result ≡ first_top machine.now stacks.now touched.now }
{
    match touched {
        [] => None,
        [first, ..] => top_at(machine, stacks, *first),
    }
}

// Whether it is this number.
fn is_number(i: u32, top: Option<u32>) -> bool
    ensures { result ≡ is_number i top }
{
    match top {
        None => false,
        Some(j) => j == i,
    }
}

// Whether this number is on top of each of the stacks.
fn is_on_all(machine: &Machine, stacks: &[Stack], touched: &[Res], i: u32) -> bool
    ensures { result ≡ list_all (λ r. is_number i (top_at machine.now stacks.now r)) touched.now }
{
    for r in touched {
        if !is_number(i, top_at(machine, stacks, *r)) {
            return false;
        }
    }
    true
}

// Whether the operation undoes the one of this number.
fn undoes_at(ops: &[Op], op: &Op, i: u32) -> bool
    ensures { result ≡ undone_by op.now (slice_get ops.now i) }
{
    match ops.get(i as usize) {
        None => false,
        Some(a) => undoes(a, op),
    }
}

// The number of the operation that this one cancels.
fn partner(machine: &Machine, ops: &[Op], stacks: &[Stack], op: &Op) -> Option<u32>
    ensures { result ≡ partner_of machine.now ops.now stacks.now op.now }
{
    let touched = op.touches();
    match first_top(machine, stacks, touched) {
        None => None,
        Some(i) => {
            if undoes_at(ops, op, i) && is_on_all(machine, stacks, touched, i) {
                Some(i)
            } else {
                None
            }
        }
    }
}

// Puts the number on a stack; where there is none, nothing is done.
fn push_at(stacks: &mut Vec<Stack>, at: usize, k: u32) -> Result<(), NoMemory>
    ensures { OnOk result (stacks.new.items ≡ set stacks.old.items at (k ∷ get_or stacks.old.items at [])) }
{
    if at < stacks.as_slice().len() {
        stacks[at].push(k)?;
    }
    Ok(())
}

// Takes the number on top off a stack; where there is none, nothing is done.
fn pop_at(stacks: &mut Vec<Stack>, at: usize)
    ensures { stacks.new.items ≡ set stacks.old.items at (drop 1 (get_or stacks.old.items at [])) }
{
    if at < stacks.as_slice().len() {
        stacks[at].pop();
    }
}

// Puts the number on each of the stacks.
fn push_on(
    machine: &Machine,
    touched: &[Res],
    k: u32,
    stacks: &mut Vec<Stack>,
) -> Result<(), NoMemory>
    ensures { OnOk result (stacks.new.items ≡ pushed machine.now k touched.now stacks.old.items) }
{
    for r in touched {
        push_at(stacks, index_of(machine, *r), k)?;
    }
    Ok(())
}

// Takes the number on top off each of the stacks.
fn pop_from(machine: &Machine, touched: &[Res], stacks: &mut Vec<Stack>)
    ensures { stacks.new.items ≡ popped machine.now touched.now stacks.old.items }
{
    for r in touched {
        pop_at(stacks, index_of(machine, *r));
    }
}

// Marks the operation of this number, and then one more.
fn mark_both(gone: &mut Vec<bool>, i: u32) -> Result<(), NoMemory>
    ensures { OnOk result (gone.new.items ≡ set gone.old.items i true ++ true ∷ []) }
{
    let at = i as usize;
    if at < gone.as_slice().len() {
        gone[at] = true;
    }
    gone.push(true)?;
    Ok(())
}

// One operation more: it cancels the one on top of its stacks, and both are marked, or it goes onto them.
fn sweep_one(
    machine: &Machine,
    ops: &[Op],
    k: u32,
    op: &Op,
    stacks: &mut Vec<Stack>,
    gone: &mut Vec<bool>,
) -> Result<(), NoMemory>
    ensures stacks { OnOk result (stacks.new.items ≡ stacks_with machine.now k op.now (partner_of machine.now ops.now stacks.old.items op.now) stacks.old.items) }
    ensures marks { OnOk result (gone.new.items ≡ marks_with (partner_of machine.now ops.now stacks.old.items op.now) gone.old.items) }
{
    match partner(machine, ops, stacks.as_slice(), op) {
        None => {
            push_on(machine, op.touches(), k, stacks)?;
            gone.push(false)?;
        }
        Some(i) => {
            pop_from(machine, op.touches(), stacks);
            mark_both(gone, i)?;
        }
    }
    Ok(())
}

// For each operation whether it cancels with another one.
fn sweep(alloc: Global, machine: &Machine, bits: u16, ops: &[Op]) -> Result<Vec<bool>, NoMemory>
    requires few { length ops.now ≤ 4194304 }
    requires there { (k : ℕ) (op : OpKind) (r : Res) → slice_get ops.now k ≡ Some op → among (touches op) r ≡ true → IsThere machine.now bits r }
    ensures { IfOk result (λ gone. (kept_in gone.items (enumerate_from 0 ops.now) ≡ staying ops.now) × (length gone.items ≡ length ops.now)) }
{
    let mut stacks = empty_stacks(alloc, count_of(machine, 0))?;
    let mut gone = Vec::with_capacity(alloc, ops.len())?;
    for (k, op) in ops.iter().enumerate() {
        sweep_one(machine, ops, k as u32, op, &mut stacks, &mut gone)?;
    }
    Ok(gone)
}

/// For each operation of the program whether it cancels with another one and goes.
pub(crate) fn gone_ops(alloc: Global, program: &Program) -> Result<Vec<bool>, NoMemory>
    ensures { IfOk result (λ gone. (kept_in gone.items (enumerate_from 0 program.now.ops) ≡ staying program.now.ops) × (length gone.items ≡ length program.now.ops)) }
{
    let machine = program.machine();
    let bits = program.bits();
    let ops = program.ops();
    sweep(alloc, machine, bits, ops)
}
