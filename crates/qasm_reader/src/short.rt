//! The short way through the statements of which circuits mostly are: a known gate without angles on one or two cells.
//! Whatever is not of this form goes the way of all statements.

ghost use Rattle.std.specs.Prelude.{◌≡◌, ℕ, ◌<◌, ◌≤◌, ◌∷◌, [], IfNone, IfOk, IfSome, None, OnOk, Some, false, length};
ghost use Rattle.qccd_base.specs.Names.{qubit};
ghost use Rattle.qccd_circuit.specs.Item.{Fits};
ghost use Rattle.qasm_reader.specs.declared.kinds.Operand.{Operand};
ghost use Rattle.qasm_reader.specs.declared.kinds.RegisterKind.TheVariants.{Quantum};
ghost use Rattle.qasm_reader.specs.Known.{Known, with_items};
ghost use Rattle.qasm_reader.specs.Expected.{Call, Role, behind_gate, behind_index, behind_name, behind_operand, between, call, lacking, lacks_angles, of_gate, operand, operand_done, wanted, with_operand};
ghost use Rattle.qasm_reader.specs.Expected as expected;
ghost use Rattle.qasm_reader.specs.Named.{shape};
ghost use Rattle.qasm_reader.specs.Operand.{cell_of, cell_operand};
ghost use Rattle.qasm_reader.specs.Sound.{IsGateOfItems, IsRegisterOf, IsSound, LiesBelow};
ghost use Rattle.qasm_reader.specs.Code.{ahead, answer_behind, answer_from, known};

use crate::cursor::Cursor;
use crate::gate_statements::too_many;
use crate::gates::{KnownGate, gate_of};
use crate::kinds::{Cell, Register, RegisterKind};
use crate::operand::{comma, open_bracket};
use crate::pieces::number;
use crate::state::State;
use crate::words::is_identifier;
use gate_defs::item_on;
use qasm_lex::TokenKind;
use qccd_base::{NoMemory, Qubit};
use qccd_circuit::{AngleList, ItemKind};
use std::alloc::Global;

// The gate without angles that the next word names.
#[inline(always)]
fn plain_gate<'a>(included: bool, cursor: &Cursor<'a>) -> Option<(KnownGate, Cursor<'a>)>
    ensures is_gate { IfSome result (λ p. IsGateOfItems (shape p.0)) }
    ensures plain { IfSome result (λ p. p.0.angles ≡ 0) }
    ensures shorter { IfSome result (λ p. length (ahead p.1) < length (ahead cursor.now)) }
    ensures leads { IfSome result (λ p. (k : Known) → k.included ≡ included
        → answer_from k between cursor.now ≡ answer_from k (behind_gate (call (shape p.0))) p.1) }
{
    let (piece, rest) = cursor.next_word()?;
    let gate = gate_of(included, piece.bytes)?;
    if gate.angles == 0 {
        Some((gate, rest))
    } else {
        None
    }
}

// The register of qubits that the next word names, with the byte of the name.
#[inline(always)]
#[tactic(auto, unfolding(crate::specs::Reading::reads))]
fn qubit_register<'a>(state: &State, cursor: &Cursor<'a>) -> Option<(u32, Register, Cursor<'a>)>
    requires { IsSound (known state.now) }
    ensures kind { IfSome result (λ p. p.1.kind ≡ Quantum) }
    ensures register { IfSome result (λ p. IsRegisterOf state.now.qubits state.now.bits p.1) }
    ensures shorter { IfSome result (λ p. length (ahead p.2) < length (ahead cursor.now)) }
    // Neither is it a parenthesis.
    ensures bare { IfSome result (λ p. (k : Known) (c : Call) → answer_from k (behind_gate c) cursor.now ≡ answer_from k (operand (of_gate (lacking c))) cursor.now) }
    ensures leads { IfSome result (λ p. (role : Role) → wanted role ≡ Quantum → lacks_angles role ≡ false
        → answer_from (known state.now) (operand role) cursor.now ≡ answer_from (known state.now) (behind_name role p.0 p.1) p.2) }
{
    let (piece, rest) = cursor.next_word()?;
    if !is_identifier(&piece) {
        return None;
    }
    let register = state.names.find(piece.bytes)?;
    if register.kind == RegisterKind::Quantum {
        Some((piece.at, register, rest))
    } else {
        None
    }
}

// The index of a cell of the register.
#[inline(always)]
#[tactic(auto, unfolding(crate::specs::Reading::reads))]
fn index_below<'a>(register: &Register, cursor: &Cursor<'a>) -> Option<(u16, Cursor<'a>)>
    ensures below { IfSome result (λ p. p.0 < register.now.size) }
    ensures shorter { IfSome result (λ p. length (ahead p.1) < length (ahead cursor.now)) }
    ensures leads { IfSome result (λ p. (k : Known) (role : Role) (at : ℕ) → answer_from k (expected.index role at register.now) cursor.now
        ≡ answer_from k (behind_index role at (record { register = register.now; index = Some p.0 })) p.1) }
{
    let (piece, rest) = cursor.next_int()?;
    let index = number(piece.bytes);
    if index < u32::from(register.size) {
        Some((index as u16, rest))
    } else {
        None
    }
}

// What stands behind a `]`, if one is next.
#[inline(always)]
#[tactic(auto, unfolding(crate::specs::Reading::reads))]
fn close_bracket<'a>(cursor: &Cursor<'a>) -> Option<Cursor<'a>>
    ensures shorter { IfSome result (λ rest. length (ahead rest) < length (ahead cursor.now)) }
    ensures leads { IfSome result (λ rest. (k : Known) (role : Role) (at : ℕ) (o : Operand)
        → answer_from k (behind_index role at o) cursor.now ≡ answer_behind (operand_done k role at o) rest) }
{
    match cursor.next_sign(TokenKind::RBracket, b']') {
        Some(rest) => Some(rest),
        None => None,
    }
}

// The cell of a register of qubits that is next.
#[inline(always)]
fn cell<'a>(state: &State, cursor: &Cursor<'a>) -> Option<(Cell, Cursor<'a>)>
    requires { IsSound (known state.now) }
    ensures below { IfSome result (λ p. LiesBelow state.now.qubits (cell_operand p.0)) }
    ensures shorter { IfSome result (λ p. length (ahead p.1) < length (ahead cursor.now)) }
    ensures bare { IfSome result (λ p. (k : Known) (c : Call) → answer_from k (behind_gate c) cursor.now ≡ answer_from k (operand (of_gate (lacking c))) cursor.now) }
    ensures leads { IfSome result (λ p. (role : Role) → wanted role ≡ Quantum → lacks_angles role ≡ false
        → answer_from (known state.now) (operand role) cursor.now ≡ answer_behind (operand_done (known state.now) role p.0.at (cell_operand p.0)) p.1) }
{
    let (at, register, rest) = qubit_register(state, cursor)?;
    let rest = open_bracket(&rest)?;
    let (index, rest) = index_below(&register, &rest)?;
    let rest = close_bracket(&rest)?;
    Some((
        Cell {
            at,
            register,
            index,
        },
        rest,
    ))
}

// The number of the cell's qubit.
#[inline(always)]
fn qubit_of(cell: &Cell) -> Qubit
    requires { cell_of 0 (cell_operand cell.now) < 256 }
    ensures { result ≡ qubit (cell_of 0 (cell_operand cell.now)) }
{
    Qubit(cell.register.first + cell.index)
}

// Puts the gate's item on these qubits at the end.
#[inline(always)]
fn add_item(
    alloc: Global,
    state: &mut State,
    kind: ItemKind,
    name: &[u8],
    on: &[Qubit],
) -> Result<(), NoMemory>
    requires { Fits (record { kind = kind; name = name.now; angles = []; qubits = on.now; bits = []; cond = None }) }
    ensures { OnOk result (known state.new
        ≡ with_items (known state.old) (record { kind = kind; name = name.now; angles = []; qubits = on.now; bits = []; cond = None } ∷ [])) }
{
    let angles = AngleList::of(Vec::new(alloc));
    let item = item_on(alloc, kind, name, angles, on, None)?;
    state.items.push(item)?;
    Ok(())
}

// Takes the `;` of a gate on one cell, and adds its item.
#[inline(always)]
fn end_of_one<'a>(
    alloc: Global,
    state: &mut State,
    gate: &KnownGate,
    cell: &Cell,
    cursor: &Cursor<'a>,
) -> Result<Option<Cursor<'a>>, NoMemory>
    requires sound { IsSound (known state.old) }
    requires is_gate { IsGateOfItems (shape gate.now) }
    requires below { LiesBelow state.old.qubits (cell_operand cell.now) }
    ensures sound { OnOk result (IsSound (known state.new)) }
    ensures none { IfOk result (λ o. IfNone o (known state.new ≡ known state.old)) }
    ensures shorter { IfOk result (λ o. IfSome o (λ rest. length (ahead rest) < length (ahead cursor.now))) }
    ensures leads { IfOk result (λ o. IfSome o (λ rest.
        answer_from (known state.old) (behind_operand (of_gate (with_operand (call (shape gate.now)) (cell_operand cell.now)))) cursor.now
        ≡ answer_from (known state.new) between rest)) }
{
    if gate.qubits != 1 || too_many(state, 1) {
        return Ok(None);
    }
    match cursor.next_sign(TokenKind::Semi, b';') {
        Some(rest) => {
            let on = [qubit_of(cell)];
            add_item(alloc, state, ItemKind::Gate1, gate.name, &on)?;
            Ok(Some(rest))
        }
        None => Ok(None),
    }
}

// Takes the `;` of a gate on two cells, and adds its item.
#[inline(always)]
fn end_of_two<'a>(
    alloc: Global,
    state: &mut State,
    gate: &KnownGate,
    first: &Cell,
    second: &Cell,
    cursor: &Cursor<'a>,
) -> Result<Option<Cursor<'a>>, NoMemory>
    requires sound { IsSound (known state.old) }
    requires is_gate { IsGateOfItems (shape gate.now) }
    requires first_below { LiesBelow state.old.qubits (cell_operand first.now) }
    requires second_below { LiesBelow state.old.qubits (cell_operand second.now) }
    ensures sound { OnOk result (IsSound (known state.new)) }
    ensures none { IfOk result (λ o. IfNone o (known state.new ≡ known state.old)) }
    ensures shorter { IfOk result (λ o. IfSome o (λ rest. length (ahead rest) < length (ahead cursor.now))) }
    ensures leads { IfOk result (λ o. IfSome o (λ rest. (at : ℕ) →
        answer_behind (operand_done (known state.old) (of_gate (with_operand (call (shape gate.now)) (cell_operand first.now))) at (cell_operand second.now)) cursor.now
        ≡ answer_from (known state.new) between rest)) }
{
    let on = [qubit_of(first), qubit_of(second)];
    if gate.qubits != 2 || on[0].0 == on[1].0 || too_many(state, 1) {
        return Ok(None);
    }
    match cursor.next_sign(TokenKind::Semi, b';') {
        Some(rest) => {
            add_item(alloc, state, ItemKind::Gate2, gate.name, &on)?;
            Ok(Some(rest))
        }
        None => Ok(None),
    }
}

// Takes the application of a gate without angles on one or two cells, if that is what is next and nothing is wrong with
// it; and else nothing, and the state stays as it was.
#[inline(always)]
fn gate_on_cells<'a>(
    alloc: Global,
    state: &mut State,
    cursor: &Cursor<'a>,
) -> Result<Option<Cursor<'a>>, NoMemory>
    requires sound { IsSound (known state.old) }
    ensures sound { OnOk result (IsSound (known state.new)) }
    ensures none { IfOk result (λ o. IfNone o (known state.new ≡ known state.old)) }
    ensures shorter { IfOk result (λ o. IfSome o (λ rest. length (ahead rest) < length (ahead cursor.now))) }
    ensures leads { IfOk result (λ o. IfSome o (λ rest. answer_from (known state.old) between cursor.now ≡ answer_from (known state.new) between rest)) }
{
    let Some((gate, rest)) = plain_gate(state.included, cursor) else {
        return Ok(None);
    };
    let Some((first, rest)) = cell(state, &rest) else {
        return Ok(None);
    };
    let Some(behind) = comma(&rest) else {
        return end_of_one(alloc, state, &gate, &first, &rest);
    };
    match cell(state, &behind) {
        Some((second, rest)) => end_of_two(alloc, state, &gate, &first, &second, &rest),
        None => Ok(None),
    }
}

/// Takes the applications of gates that are next, as many of this form as follow one another.
pub(crate) fn gates_on_cells<'a>(
    alloc: Global,
    state: &mut State,
    cursor: &Cursor<'a>,
) -> Result<Cursor<'a>, NoMemory>
    requires sound { IsSound (known state.old) }
    ensures sound { OnOk result (IsSound (known state.new)) }
    ensures shorter { IfOk result (λ rest. length (ahead rest) ≤ length (ahead cursor.now)) }
    ensures leads { IfOk result (λ rest. answer_from (known state.old) between cursor.now ≡ answer_from (known state.new) between rest) }
{
    let mut rest = *cursor;
    while let Some(behind) = gate_on_cells(alloc, state, &rest)? {
        rest = behind;
    }
    Ok(rest)
}
