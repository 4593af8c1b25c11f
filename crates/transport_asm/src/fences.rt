//! The words of fences.

ghost use Rattle.std.specs.Prelude.{◌≡◌, Ok, ◌<◌, List, [], ◌∷◌, ◌++◌, IfOk, option_copied, option_map};
ghost use Rattle.qccd_base.specs.declared.names.Qubit.{Qubit};
ghost use Rattle.transport_asm.specs.Cursor.{words_left, size_left, Gives, GivesOp};
ghost use Rattle.transport_asm.specs.Marks.{IsKept, begins_trap, fence_qubits, traps_behind, some_qubits, fence_parts, is_below_first, fence_made};
ghost use Rattle.op_text.specs.Shapes.{read_one};
ghost use Rattle.op_text.specs.Operations.{begins_with, barrier_over, fence_at, finished};
ghost use Rattle.op_table.specs.Op.{are_ascending, KeepsItemRule};
ghost use Rattle.op_table.specs.declared.kinds.OpKind.{OpKind};
ghost use Rattle.op_table.specs.declared.kinds.OpKind.TheVariants.{Fence};
ghost use Rattle.op_text.specs.Slots.{qubit_slot};

use crate::faults::OpFault;
use crate::items::number_at;
use crate::shapes::trap_at;
use crate::words::{cut, is_end, lettered, word};
use op_table::OpKind;
use op_text::AsmKind;
use qccd_base::{BitList, NoMemory, Qubit, QubitList, TrapId, TrapList};
use qccd_circuit::{AngleList, Item, ItemKind, Name};
use std::alloc::{AllocError, Global};
use std::collections::BTreeSet;

fn qubit_at(words: Option<&[u8]>) -> Result<(Qubit, Option<&[u8]>), AsmKind>
    ensures exact { Gives (λ x. (x.0, words_left (option_copied x.1))) result (read_one qubit_slot (words_left (option_copied words.entry))) }
    ensures shorter { IfOk result (λ x. size_left (option_copied x.1) < size_left (option_copied words.entry)) }
{
    let (word, rest) = word(words)?;
    let number = lettered(word, b'q', 65535)?;
    Ok((Qubit(number as u16), rest))
}

// Keeps a further qubit, where none stood twice so far, and tells whether one does now.
fn noted(
    seen: &mut BTreeSet<u16>,
    qubits: &mut Vec<Qubit>,
    broken: bool,
    qubit: Qubit,
) -> Result<bool, AllocError>
    ensures { IfOk result (λ now. (front : List Qubit) → IsKept front broken seen.old qubits.old.items → IsKept (front ++ qubit ∷ []) now seen.new qubits.new.items) }
{
    if broken {
        return Ok(true);
    }
    let is_new = seen.insert(qubit.0)?;
    if !is_new {
        return Ok(true);
    }
    qubits.push(qubit)?;
    Ok(false)
}

// The qubits to the end of the line, or none where one stands twice. As many are kept as there are distinct ones.
fn qubits_of(alloc: Global, words: Option<&[u8]>) -> Result<Option<Vec<Qubit>>, OpFault>
    ensures { GivesOp (λ x. option_map (λ v. v.items) x) result (fence_qubits (words_left (option_copied words.entry))) }
{
    let mut seen = BTreeSet::new(alloc);
    let mut qubits = Vec::new(alloc);
    let mut broken = false;
    let mut left = words;
    while left.is_some() {
        let (qubit, rest) = qubit_at(left)?;
        broken = noted(&mut seen, &mut qubits, broken, qubit)?;
        left = rest;
    }
    if broken { Ok(None) } else { Ok(Some(qubits)) }
}

// Whether the next word begins with a `T`.
fn begins_trap(words: Option<&[u8]>) -> bool
    ensures { result ≡ begins_trap (words_left (option_copied words.entry)) }
{
    match words {
        None => false,
        Some(line) => begins_with(cut(line).0, b'T'),
    }
}

fn begins_with(word: &[u8], letter: u8) -> bool
    ensures { result ≡ begins_with letter word.now }
{
    match word {
        [] => false,
        [first, ..] => *first == letter,
    }
}

// The first trap, and further ones while there are any.
fn traps_behind(
    alloc: Global,
    first: TrapId,
    words: Option<&[u8]>,
) -> Result<(Vec<TrapId>, Option<&[u8]>), OpFault>
    ensures { GivesOp (λ x. (x.0.items, words_left (option_copied x.1))) result (traps_behind first (words_left (option_copied words.entry))) }
{
    let mut traps = Vec::new(alloc);
    traps.push(first)?;
    let mut left = words;
    while begins_trap(left) {
        let (trap, rest) = trap_at(left)?;
        traps.push(trap)?;
        left = rest;
    }
    Ok((traps, left))
}

fn is_below_first(trap: TrapId, traps: &[TrapId]) -> bool
    ensures { result ≡ is_below_first trap traps.now }
{
    match traps {
        [] => true,
        [first, ..] => trap.0 < first.0,
    }
}

fn are_ascending(traps: &[TrapId]) -> bool
    ensures { result ≡ are_ascending traps.now }
{
    let mut left = traps;
    while let [first, rest @ ..] = left {
        if !is_below_first(*first, rest) {
            return false;
        }
        left = rest;
    }
    true
}

fn some_qubits(alloc: Global, words: Option<&[u8]>) -> Result<Option<Vec<Qubit>>, OpFault>
    ensures { GivesOp (λ x. option_map (λ v. v.items) x) result (some_qubits (words_left (option_copied words.entry))) }
{
    if is_end(words) {
        return Err(OpFault::Refused {
            kind: AsmKind::Word,
        });
    }
    qubits_of(alloc, words)
}

// The words of a fence.
fn fence_words(
    alloc: Global,
    words: Option<&[u8]>,
) -> Result<(u32, Vec<TrapId>, Option<Vec<Qubit>>), OpFault>
    ensures { GivesOp (λ x. (x.0, (x.1.items, option_map (λ v. v.items) x.2))) result (fence_parts (words_left (option_copied words.entry))) }
{
    let (number, rest) = number_at(words)?;
    let (first, rest) = trap_at(rest)?;
    let (traps, rest) = traps_behind(alloc, first, rest)?;
    let qubits = some_qubits(alloc, rest)?;
    Ok((number, traps, qubits))
}

// The operation of a fence whose words keep the rules.
fn made(
    alloc: Global,
    number: u32,
    traps: Vec<TrapId>,
    qubits: Vec<Qubit>,
) -> Result<OpKind, NoMemory>
    requires { KeepsItemRule (Fence number (barrier_over qubits.items) traps.items) }
    ensures { IfOk result (λ op. op ≡ Fence number (barrier_over qubits.items) traps.items) }
{
    let name = Name::from_slice(alloc, b"barrier")?;
    let item = Item::of(
        ItemKind::Barrier,
        name,
        AngleList::of(Vec::new(alloc)),
        QubitList::of(qubits),
        BitList::of(Vec::new(alloc)),
        None,
    );
    Ok(OpKind::Fence {
        number,
        item,
        traps: TrapList::of(traps),
    })
}

// The fence, where no qubit stands twice and the traps are in order.
fn made_if_right(
    alloc: Global,
    number: u32,
    traps: Vec<TrapId>,
    qubits: Option<Vec<Qubit>>,
) -> Result<OpKind, OpFault>
    requires { (op : OpKind) → fence_made number traps.items (option_map (λ v. v.items) qubits) ≡ Ok op → KeepsItemRule op }
    ensures { GivesOp (λ op. op) result (fence_made number traps.items (option_map (λ v. v.items) qubits)) }
{
    match qubits {
        Some(qubits) if are_ascending(traps.as_slice()) => Ok(made(alloc, number, traps, qubits)?),
        _ => Err(OpFault::Refused {
            kind: AsmKind::Word,
        }),
    }
}

/// The fence that the rest of a line is, behind the word `fence`.
pub fn fence_op(alloc: Global, words: Option<&[u8]>) -> Result<OpKind, OpFault>
    ensures { GivesOp (λ op. op) result (finished (fence_at (words_left (option_copied words.entry)))) }
{
    let (number, traps, qubits) = fence_words(alloc, words)?;
    made_if_right(alloc, number, traps, qubits)
}
