//! Applications of gates.

ghost use Rattle.std.specs.Prelude.{◌≡◌, ℕ, ◌+◌, ◌<◌, ◌≤◌, ◌++◌, ◌∷◌, [], All, IfOk, List, OnOk, false, length, map, nat_lt, true};
ghost use Rattle.std.specs.List.{flat_map, range_with_len};
ghost use Rattle.qasm_lex.specs.declared.tokens.TokenKind.TheVariants as token;
ghost use Rattle.qccd_circuit.specs.Item.{AreAngles};
ghost use Rattle.qasm_reader.specs.Expected.{Call, behind_gate, behind_operand, between, call, of_gate, with_operand};
ghost use Rattle.qasm_reader.specs.Expected as expected;
ghost use Rattle.qasm_reader.specs.Known.{Known, with_items};
ghost use Rattle.qasm_reader.specs.Lexeme.{is, opening_of};
ghost use Rattle.qasm_reader.specs.declared.cursor.Cursor.{Cursor};
ghost use Rattle.qasm_reader.specs.declared.kinds.Opening.TheVariants as opening;
ghost use Rattle.qasm_reader.specs.declared.fault.QasmFault.TheVariants.{Refused};
ghost use Rattle.qasm_reader.specs.declared.fault.QasmKind.TheVariants.{TooMany};
ghost use Rattle.qasm_reader.specs.declared.fault.Many.TheVariants.{Items};
ghost use Rattle.qasm_reader.specs.Named.{shape};
ghost use Rattle.qasm_reader.specs.Operand.{gate_items, times};
ghost use Rattle.qasm_reader.specs.Sound.{AreApart, IsGateOfItems, IsSound, LiesBelow};
ghost use Rattle.qasm_reader.specs.Code.{Leads, ahead, answer_behind, answer_from, begins, known, seen};

use crate::angle_lists::gate_angles;
use crate::cursor::{Cursor, Piece};
use crate::fault::{Many, QasmFault, QasmKind};
use crate::gates::{KnownGate, gate_of};
use crate::items::{apply, items_of_each};
use crate::kinds::Operand;
use crate::operands::gate_operands;
use crate::pieces::{refused, semicolon};
use crate::state::State;
use crate::words::{is_identifier, same};
use qccd_base::NoMemory;
use qccd_circuit::AngleList;
use std::alloc::Global;

// Whether the word can be the name of a gate.
fn is_gate_name(piece: &Piece<'_>) -> bool
    requires { is token.Word (seen piece.now) ≡ true }
    ensures { result ≡ expected.gate_name true (seen piece.now) }
{
    is_identifier(piece) || same(piece.bytes, b"U") || same(piece.bytes, b"CX")
}

// The gate that the first word of a statement names.
fn named_gate(included: bool, piece: &Piece<'_>) -> Result<KnownGate, QasmFault>
    requires { is token.Word (seen piece.now) ≡ true }
    ensures is_gate { IfOk result (λ g. IsGateOfItems (shape g)) }
    ensures leads { (k : Known) (cursor : Cursor) → k.included ≡ included
        → Leads (answer_behind (expected.begin_as k (seen piece.now) opening.Gate) cursor)
        (λ g. answer_from k (behind_gate (call (shape g))) cursor) result }
{
    if !is_gate_name(piece) {
        return Err(refused(piece.at, QasmKind::Syntax));
    }
    match gate_of(included, piece.bytes) {
        Some(gate) => Ok(gate),
        None => Err(refused(piece.at, QasmKind::UnknownName)),
    }
}

// How many applications there are: as many as the first register has cells, and else one.
fn turns(operands: &[Operand]) -> u16
    ensures { result ≡ times operands.now }
{
    let mut left = operands;
    while let [operand, rest @ ..] = left {
        if operand.index.is_none() {
            return operand.register.size;
        }
        left = rest;
    }
    1
}

/// Whether the items would be too many with so many more.
pub(crate) fn too_many(state: &State, count: u32) -> bool
    requires { length state.now.items.items ≤ 65536 }
    ensures { result ≡ nat_lt 65536 (length state.now.items.items + count) }
{
    65536 < state.items.len() as u64 + u64::from(count)
}

/// The fault that the items are too many.
pub(crate) fn too_many_items(end: &Piece<'_>) -> QasmFault
    ensures { result ≡ Refused end.now.at (TooMany Items 65536) }
{
    let what = Many::Items;
    refused(end.at, QasmKind::TooMany { what, limit: 65536 })
}

/// How many cells the operand has for applications of their own.
pub(crate) fn own_turns(operand: &Operand) -> u16
    ensures { result ≡ times (operand.now ∷ []) }
{
    match operand.index {
        None => operand.register.size,
        Some(_) => 1,
    }
}

// How many items the applications of the gate are.
fn count_items(gate: &KnownGate, operands: &[Operand]) -> u32
    ensures { (angles : List (List ℕ)) → length (gate_items (shape gate.now) angles operands.now) ≡ result }
{
    u32::from(turns(operands)) * items_of_each(gate, operands)
}

// Puts the items of the gate at the end.
fn add_gate(
    alloc: Global,
    state: &mut State,
    gate: &KnownGate,
    angles: &AngleList,
    operands: &[Operand],
) -> Result<(), NoMemory>
    requires sound { IsSound (known state.old) }
    requires is_gate { IsGateOfItems (shape gate.now) }
    requires are_angles { AreAngles angles.now }
    requires apart { AreApart operands.now }
    requires below { All (LiesBelow state.old.qubits) operands.now }
    ensures { OnOk result (known state.new ≡ with_items (known state.old) (gate_items (shape gate.now) angles.now operands.now)) }
{
    for turn in 0..turns(operands) {
        apply(alloc, gate, angles, operands, turn, &mut state.items)?;
    }
    Ok(())
}

// Takes the `;` behind the operands of the gate, and adds its items.
fn gate_end<'a>(
    alloc: Global,
    state: &mut State,
    gate: &KnownGate,
    angles: &AngleList,
    operands: &[Operand],
    cursor: &Cursor<'a>,
) -> Result<Cursor<'a>, QasmFault>
    requires sound { IsSound (known state.old) }
    requires is_gate { IsGateOfItems (shape gate.now) }
    requires are_angles { AreAngles angles.now }
    requires apart { AreApart operands.now }
    requires below { All (LiesBelow state.old.qubits) operands.now }
    requires end { begins token.Comma (ahead cursor.now) ≡ false }
    ensures sound { OnOk result (IsSound (known state.new)) }
    ensures shorter { IfOk result (λ rest. length (ahead rest) < length (ahead cursor.now)) }
    ensures leads { Leads (answer_from (known state.old)
        (behind_operand (of_gate (record { gate = shape gate.now; angles = angles.now; missing = false; operands = operands.now }))) cursor.now)
        (answer_from (known state.new) between) result }
{
    let (end, rest) = semicolon(cursor)?;
    if operands.len() != usize::from(gate.qubits) {
        return Err(refused(end.at, QasmKind::OperandCount));
    }
    if too_many(state, count_items(gate, operands)) {
        return Err(too_many_items(&end));
    }
    add_gate(alloc, state, gate, angles, operands)?;
    Ok(rest)
}

/// Takes the application of a gate, whose name is the first token of its statement.
#[tactic(auto, using(crate::proofs::Leading::leads))]
pub(crate) fn gate<'a>(
    alloc: Global,
    state: &mut State,
    first: &Piece<'_>,
    cursor: &Cursor<'a>,
) -> Result<Cursor<'a>, QasmFault>
    requires word { is token.Word (seen first.now) ≡ true }
    requires sound { IsSound (known state.old) }
    ensures sound { OnOk result (IsSound (known state.new)) }
    ensures shorter { IfOk result (λ rest. length (ahead rest) < length (ahead cursor.now)) }
    ensures leads { Leads (answer_behind (expected.begin_as (known state.old) (seen first.now) opening.Gate) cursor.now)
        (answer_from (known state.new) between) result }
{
    let gate = named_gate(state.included, first)?;
    let (angles, lacking, rest) = gate_angles(alloc, &gate, cursor)?;
    let (operands, rest) = gate_operands(alloc, state, lacking, &rest)?;
    let angles = AngleList::of(angles);
    gate_end(alloc, state, &gate, &angles, &operands, &rest)
}
