//! Items, made of the words that were read.

ghost use Rattle.std.specs.Prelude.{◌≡◌, ◌∷◌, IfOk, map, option_copied};
ghost use Rattle.op_table.specs.Op.{KeepsItemRule};
ghost use Rattle.transport_asm.specs.Cursor.{words_left, GivesOp};
ghost use Rattle.op_text.specs.Operations.{kind_of, item_at, item_op, finished};
ghost use Rattle.transport_asm.specs.Parts.{angles_left, as_list, head_of, tail_of};

use crate::faults::OpFault;
use crate::items::{HeadWords, TailWords, item_words};
use crate::words::{cut_at, is};
use op_table::OpKind;
use qccd_base::{Bit, BitList, NoMemory, PosList, Qubit, QubitList};
use qccd_circuit::{Angle, AngleList, Item, ItemKind, Name};
use std::alloc::Global;

fn kind_of(name: &[u8], second: Option<(Qubit, u8)>) -> ItemKind
    ensures { result ≡ kind_of name.now (as_list second) }
{
    if is(name, b"measure") {
        return ItemKind::Measure;
    }
    if is(name, b"reset") {
        return ItemKind::Reset;
    }
    match second {
        None => ItemKind::Gate1,
        Some(_) => ItemKind::Gate2,
    }
}

fn angle_list(alloc: Global, angles: Option<&[u8]>) -> Result<AngleList, NoMemory>
    ensures { IfOk result (λ list. list ≡ angles_left (option_copied angles.entry)) }
{
    let mut list = Vec::new(alloc);
    let mut left = angles;
    while let Some(text) = left {
        let (angle, rest) = cut_at(text, b',');
        list.push(Angle::from_slice(alloc, angle)?)?;
        left = rest;
    }
    Ok(AngleList::of(list))
}

fn qubit_list(
    alloc: Global,
    first: (Qubit, u8),
    second: Option<(Qubit, u8)>,
) -> Result<QubitList, NoMemory>
    ensures { IfOk result (λ list. list ≡ first.0 ∷ map (λ q. q.0) (as_list second)) }
{
    let mut qubits = QubitList::new(alloc);
    qubits.push(first.0)?;
    if let Some((qubit, _)) = second {
        qubits.push(qubit)?;
    }
    Ok(qubits)
}

fn position_list(
    alloc: Global,
    first: (Qubit, u8),
    second: Option<(Qubit, u8)>,
) -> Result<PosList, NoMemory>
    ensures { IfOk result (λ list. list ≡ first.1 ∷ map (λ q. q.1) (as_list second)) }
{
    let mut positions = PosList::new(alloc);
    positions.push(first.1)?;
    if let Some((_, position)) = second {
        positions.push(position)?;
    }
    Ok(positions)
}

fn bit_list(alloc: Global, bit: Option<Bit>) -> Result<BitList, NoMemory>
    ensures { IfOk result (λ list. list ≡ as_list bit) }
{
    let mut bits = Vec::new(alloc);
    if let Some(bit) = bit {
        bits.push(bit)?;
    }
    Ok(BitList::of(bits))
}

// The operation of an item whose words keep the item rule.
fn made(alloc: Global, head: HeadWords<'_>, tail: TailWords) -> Result<OpKind, NoMemory>
    requires { KeepsItemRule (item_op (head_of head) (tail_of tail)) }
    ensures { IfOk result (λ op. op ≡ item_op (head_of head.entry) (tail_of tail)) }
{
    let kind = kind_of(head.gate.name, tail.second);
    let name = Name::from_slice(alloc, head.gate.name)?;
    let angles = angle_list(alloc, head.gate.angles)?;
    let qubits = qubit_list(alloc, head.first, tail.second)?;
    let bits = bit_list(alloc, tail.bit)?;
    let at = position_list(alloc, head.first, tail.second)?;
    let item = Item::of(kind, name, angles, qubits, bits, tail.cond);
    Ok(OpKind::Item {
        number: head.number,
        trap: head.trap,
        item,
        at,
    })
}

/// The item that the rest of a line is, behind the word `item`.
pub fn item_op(alloc: Global, words: Option<&[u8]>) -> Result<OpKind, OpFault>
    ensures { GivesOp (λ op. op) result (finished (item_at (words_left (option_copied words.entry)))) }
{
    let (head, tail) = item_words(words)?;
    let op = made(alloc, head, tail)?;
    Ok(op)
}
