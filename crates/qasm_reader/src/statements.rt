//! Statements.

ghost use Rattle.std.specs.Prelude.{◌≡◌, ◌<◌, IfOk, OnOk, length, true};
ghost use Rattle.qasm_lex.specs.declared.tokens.TokenKind.TheVariants as token;
ghost use Rattle.qasm_reader.specs.Expected.{begin, between, ends_with, file_name, of_left, of_reset, of_right, operand};
ghost use Rattle.qasm_reader.specs.Expected as expected;
ghost use Rattle.qasm_reader.specs.Known.{Known, with_include, with_items};
ghost use Rattle.qasm_reader.specs.Lexeme.{opening_of};
ghost use Rattle.qasm_reader.specs.Operand.{alike, measure_items, reset_items};
ghost use Rattle.qasm_reader.specs.Sound.{IsSound, LiesBelow};
ghost use Rattle.qasm_reader.specs.Code.{Leads, ahead, answer_behind, answer_from, known, seen};

use crate::barriers::barrier;
use crate::cursor::{Cursor, Piece};
use crate::fault::{QasmFault, QasmKind};
use crate::gate_statements::{gate, own_turns, too_many, too_many_items};
use crate::items::{cell_of, measurement};
use crate::kinds::{Opening, Operand, RegisterKind};
use crate::operand::operand;
use crate::pieces::{refused, semicolon, sign, statement_end};
use crate::registers::register;
use crate::state::State;
use crate::words::{is, opening_of, same};
use gate_defs::item_on;
use qasm_lex::TokenKind;
use qccd_base::{Bit, NoMemory, Qubit};
use qccd_circuit::{AngleList, ItemKind};
use std::alloc::Global;

// Takes the name of the file of an include.
#[tactic(auto, unfolding(crate::specs::Reading::reads))]
fn file_name<'a>(cursor: &Cursor<'a>) -> Result<Cursor<'a>, QasmFault>
    ensures shorter { IfOk result (λ rest. length (ahead rest) < length (ahead cursor.now)) }
    ensures leads { (k : Known) → Leads (answer_from k file_name cursor.now) (answer_from k (expected.ends (with_include k))) result }
{
    match cursor.next() {
        Some((piece, rest)) => {
            if !is(TokenKind::Text, &piece) {
                Err(refused(piece.at, QasmKind::Syntax))
            } else if !same(piece.bytes, b"\"qelib1.inc\"") {
                Err(refused(piece.at, QasmKind::UnknownInclude))
            } else {
                Ok(rest)
            }
        }
        None => Err(refused(cursor.end(), QasmKind::Syntax)),
    }
}

// Takes an include behind its first word.
#[tactic(auto, using(crate::proofs::Leading::leads))]
fn include<'a>(state: &mut State, cursor: &Cursor<'a>) -> Result<Cursor<'a>, QasmFault>
    requires { IsSound (known state.old) }
    ensures sound { OnOk result (IsSound (known state.new)) }
    ensures shorter { IfOk result (λ rest. length (ahead rest) < length (ahead cursor.now)) }
    ensures leads { Leads (answer_from (known state.old) file_name cursor.now) (answer_from (known state.new) between) result }
{
    let rest = file_name(cursor)?;
    let rest = statement_end(&rest)?;
    state.included = true;
    Ok(rest)
}

// Whether both are cells, or both are registers of one size.
fn alike(left: &Operand, right: &Operand) -> bool
    ensures { result ≡ alike left.now right.now }
{
    match left.index {
        None => right.index.is_none() && left.register.size == right.register.size,
        Some(_) => right.index.is_some(),
    }
}

// Puts the measurements at the end.
fn add_measures(
    alloc: Global,
    state: &mut State,
    left: &Operand,
    right: &Operand,
) -> Result<(), NoMemory>
    requires sound { IsSound (known state.old) }
    requires left_below { LiesBelow state.old.qubits left.now }
    requires right_below { LiesBelow state.old.bits right.now }
    requires alike { alike left.now right.now ≡ true }
    ensures { OnOk result (known state.new ≡ with_items (known state.old) (measure_items left.now right.now)) }
{
    for turn in 0..own_turns(left) {
        let item = measurement(alloc, Qubit(cell_of(turn, left)), Bit(cell_of(turn, right)))?;
        state.items.push(item)?;
    }
    Ok(())
}

// Takes the `;` of a measurement, and adds its items.
fn measure_end<'a>(
    alloc: Global,
    state: &mut State,
    left: &Operand,
    right: &Operand,
    cursor: &Cursor<'a>,
) -> Result<Cursor<'a>, QasmFault>
    requires sound { IsSound (known state.old) }
    requires left_below { LiesBelow state.old.qubits left.now }
    requires right_below { LiesBelow state.old.bits right.now }
    requires alike { alike left.now right.now ≡ true }
    ensures sound { OnOk result (IsSound (known state.new)) }
    ensures shorter { IfOk result (λ rest. length (ahead rest) < length (ahead cursor.now)) }
    ensures leads { Leads (answer_from (known state.old) (ends_with (measure_items left.now right.now)) cursor.now)
        (answer_from (known state.new) between) result }
{
    let (end, rest) = semicolon(cursor)?;
    if too_many(state, u32::from(own_turns(left))) {
        return Err(too_many_items(&end));
    }
    add_measures(alloc, state, left, right)?;
    Ok(rest)
}

// Takes a measurement behind its first word.
#[tactic(auto, using(crate::proofs::Leading::leads))]
fn measure<'a>(
    alloc: Global,
    state: &mut State,
    cursor: &Cursor<'a>,
) -> Result<Cursor<'a>, QasmFault>
    requires { IsSound (known state.old) }
    ensures sound { OnOk result (IsSound (known state.new)) }
    ensures shorter { IfOk result (λ rest. length (ahead rest) < length (ahead cursor.now)) }
    ensures leads { Leads (answer_from (known state.old) (operand of_left) cursor.now) (answer_from (known state.new) between) result }
{
    let (_, left, rest) = operand(state, RegisterKind::Quantum, false, cursor)?;
    let rest = sign(&rest, TokenKind::Arrow)?;
    let (at, right, rest) = operand(state, RegisterKind::Classical, false, &rest)?;
    if !alike(&left, &right) {
        return Err(refused(at, QasmKind::SizeMismatch));
    }
    measure_end(alloc, state, &left, &right, &rest)
}

// Puts the resets at the end.
fn add_resets(alloc: Global, state: &mut State, on: &Operand) -> Result<(), NoMemory>
    requires sound { IsSound (known state.old) }
    requires below { LiesBelow state.old.qubits on.now }
    ensures { OnOk result (known state.new ≡ with_items (known state.old) (reset_items on.now)) }
{
    for turn in 0..own_turns(on) {
        let angles = AngleList::of(Vec::new(alloc));
        let qubits = [Qubit(cell_of(turn, on))];
        let item = item_on(alloc, ItemKind::Reset, b"reset", angles, &qubits, None)?;
        state.items.push(item)?;
    }
    Ok(())
}

// Takes the `;` of a reset, and adds its items.
fn reset_end<'a>(
    alloc: Global,
    state: &mut State,
    on: &Operand,
    cursor: &Cursor<'a>,
) -> Result<Cursor<'a>, QasmFault>
    requires sound { IsSound (known state.old) }
    requires below { LiesBelow state.old.qubits on.now }
    ensures sound { OnOk result (IsSound (known state.new)) }
    ensures shorter { IfOk result (λ rest. length (ahead rest) < length (ahead cursor.now)) }
    ensures leads { Leads (answer_from (known state.old) (ends_with (reset_items on.now)) cursor.now)
        (answer_from (known state.new) between) result }
{
    let (end, rest) = semicolon(cursor)?;
    if too_many(state, u32::from(own_turns(on))) {
        return Err(too_many_items(&end));
    }
    add_resets(alloc, state, on)?;
    Ok(rest)
}

// Takes a reset behind its first word.
#[tactic(auto, using(crate::proofs::Leading::leads))]
fn reset<'a>(alloc: Global, state: &mut State, cursor: &Cursor<'a>) -> Result<Cursor<'a>, QasmFault>
    requires { IsSound (known state.old) }
    ensures sound { OnOk result (IsSound (known state.new)) }
    ensures shorter { IfOk result (λ rest. length (ahead rest) < length (ahead cursor.now)) }
    ensures leads { Leads (answer_from (known state.old) (operand of_reset) cursor.now) (answer_from (known state.new) between) result }
{
    let (_, on, rest) = operand(state, RegisterKind::Quantum, false, cursor)?;
    reset_end(alloc, state, &on, &rest)
}

/// Takes a statement, whose first token is given.
pub(crate) fn statement<'a>(
    alloc: Global,
    state: &mut State,
    first: &Piece<'_>,
    cursor: &Cursor<'a>,
) -> Result<Cursor<'a>, QasmFault>
    requires { IsSound (known state.old) }
    ensures sound { OnOk result (IsSound (known state.new)) }
    ensures shorter { IfOk result (λ rest. length (ahead rest) < length (ahead cursor.now)) }
    ensures leads { Leads (answer_behind (begin (known state.old) (seen first.now)) cursor.now) (answer_from (known state.new) between) result }
{
    if !is(TokenKind::Word, first) {
        return Err(refused(first.at, QasmKind::Syntax));
    }
    match opening_of(first.bytes) {
        Opening::Include => include(state, cursor),
        Opening::Qreg => register(alloc, state, RegisterKind::Quantum, cursor),
        Opening::Creg => register(alloc, state, RegisterKind::Classical, cursor),
        Opening::Measure => measure(alloc, state, cursor),
        Opening::Reset => reset(alloc, state, cursor),
        Opening::Barrier => barrier(alloc, state, cursor),
        Opening::Later => Err(refused(first.at, QasmKind::NotBuilt)),
        Opening::Gate => gate(alloc, state, first, cursor),
    }
}
