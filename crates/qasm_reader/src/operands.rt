//! The operands of a gate.

ghost use Rattle.std.specs.Prelude.{◌≡◌, ◌+◌, ◌<◌, ℕ, [], All, IfOk, List, false, length};
ghost use Rattle.qasm_lex.specs.declared.tokens.TokenKind.TheVariants as token;
ghost use Rattle.std.specs.List.{list_any};
ghost use Rattle.qasm_reader.specs.Operand.{cell_count, differ, first_cell, is_whole, share};
ghost use Rattle.gate_defs.specs.Gates.{Gate};
ghost use Rattle.qasm_reader.specs.Known.{Known};
ghost use Rattle.qasm_reader.specs.Sound.{AreApart, IsSound, LiesBelow};
ghost use Rattle.qasm_reader.specs.Expected.{Call, behind_operand, of_gate, operand, operand_done, with_operand};
ghost use Rattle.qasm_reader.specs.declared.cursor.Cursor.{Cursor};
ghost use Rattle.qasm_reader.specs.Code.{Leads, ahead, answer_behind, answer_from, begins, known};

use crate::cursor::Cursor;
use crate::fault::{QasmFault, QasmKind};
use crate::kinds::{Operand, RegisterKind};
use crate::operand::{comma, operand};
use crate::pieces::refused;
use crate::state::State;
use smallvec::SmallVec;
use std::alloc::Global;

/// The operands of a gate. Those of a known gate need no memory of their own.
pub(crate) type OperandList = SmallVec<Operand, 4>;

fn is_whole(operand: &Operand) -> bool
    ensures { result ≡ is_whole operand.now }
{
    operand.index.is_none()
}

/// The number of the operand's first cell.
pub(crate) fn first_cell(operand: &Operand) -> u32
    ensures { result ≡ first_cell operand.now }
{
    match operand.index {
        None => u32::from(operand.register.first),
        Some(index) => u32::from(operand.register.first) + u32::from(index),
    }
}

/// How many cells it has.
pub(crate) fn cell_count(operand: &Operand) -> u32
    ensures { result ≡ cell_count operand.now }
{
    match operand.index {
        None => u32::from(operand.register.size),
        Some(_) => 1,
    }
}

// Whether both are whole registers, of other sizes.
fn differ(a: &Operand, b: &Operand) -> bool
    ensures { result ≡ differ a.now b.now }
{
    is_whole(a) && is_whole(b) && a.register.size != b.register.size
}

// Whether the operands share a cell.
fn share(a: &Operand, b: &Operand) -> bool
    ensures { result ≡ share a.now b.now }
{
    u64::from(first_cell(a)) < u64::from(first_cell(b)) + u64::from(cell_count(b))
        && u64::from(first_cell(b)) < u64::from(first_cell(a)) + u64::from(cell_count(a))
}

fn differs(operand: &Operand, others: &[Operand]) -> bool
    ensures { result ≡ list_any (differ operand.now) others.now }
{
    others.iter().any(|other| differ(operand, other))
}

fn shares(operand: &Operand, others: &[Operand]) -> bool
    ensures { result ≡ list_any (share operand.now) others.now }
{
    others.iter().any(|other| share(operand, other))
}

/// Whether an operand may stand behind the others of its gate. The byte is that of its first token.
pub(crate) fn apart(others: &[Operand], at: u32, operand: &Operand) -> Result<(), QasmFault>
    ensures leads { (k : Known) (c : Call) (cursor : Cursor) →
        Leads (answer_behind (operand_done k (of_gate (record c { operands = others.now })) at operand.now) cursor)
        (λ _. answer_from k (behind_operand (of_gate (with_operand (record c { operands = others.now }) operand.now))) cursor) result }
    ensures sizes { IfOk result (λ _. list_any (differ operand.now) others.now ≡ false) }
    ensures cells { IfOk result (λ _. list_any (share operand.now) others.now ≡ false) }
{
    if differs(operand, others) {
        Err(refused(at, QasmKind::SizeMismatch))
    } else if shares(operand, others) {
        Err(refused(at, QasmKind::SameQubit))
    } else {
        Ok(())
    }
}

/// Takes the operands of a gate, of which none shares a cell with another and no two are registers of different sizes.
#[tactic(auto, using(crate::proofs::Leading::leads))]
pub(crate) fn gate_operands<'a>(
    alloc: Global,
    state: &State,
    lacking: bool,
    cursor: &Cursor<'a>,
) -> Result<(OperandList, Cursor<'a>), QasmFault>
    requires { IsSound (known state.now) }
    ensures apart { IfOk result (λ p. AreApart p.0.items) }
    ensures below { IfOk result (λ p. All (LiesBelow state.now.qubits) p.0.items) }
    ensures end { IfOk result (λ p. begins token.Comma (ahead p.1) ≡ false) }
    ensures shorter { IfOk result (λ p. length (ahead p.1) < length (ahead cursor.now)) }
    ensures leads { (g : Gate) (angles : List (List ℕ)) → Leads (answer_from (known state.now)
        (operand (of_gate (record { gate = g; angles = angles; missing = lacking; operands = [] }))) cursor.now)
        (λ p. answer_from (known state.now) (behind_operand (of_gate (record { gate = g; angles = angles; missing = false; operands = p.0.items }))) p.1) result }
{
    let mut operands = SmallVec::new(alloc);
    let (_, first, mut rest) = operand(state, RegisterKind::Quantum, lacking, cursor)?;
    operands.push(first)?;
    while let Some(after) = comma(&rest) {
        let (at, next, behind) = operand(state, RegisterKind::Quantum, false, &after)?;
        apart(&operands, at, &next)?;
        operands.push(next)?;
        rest = behind;
    }
    Ok((operands, rest))
}
