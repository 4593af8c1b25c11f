//! Barriers.

ghost use Rattle.std.specs.Prelude.{◌≡◌, ℕ, ◌<◌, [], IfErr, IfOk, List, OnOk, false, get_or, length};
ghost use Rattle.std.specs.List.{range_with_len};
ghost use Rattle.qasm_lex.specs.declared.tokens.TokenKind.TheVariants as token;
ghost use Rattle.qasm_reader.specs.Expected.{between, of_barrier, operand};
ghost use Rattle.qasm_reader.specs.Operand.{cells, with_mention, with_mentions};
ghost use Rattle.qasm_reader.specs.Sound.{IsSound, LiesBelow};
ghost use Rattle.qasm_reader.specs.Code.{Leads, Tells, ahead, answer_from, begins, known};
ghost use Rattle.qasm_reader.specs.Mentioned.{AreMentioned, AreReached, AreSeen, numbers};

use crate::cursor::Cursor;
use crate::fault::QasmFault;
use crate::gate_statements::{too_many, too_many_items};
use crate::kinds::{Operand, RegisterKind};
use crate::operand::{comma, operand};
use crate::operands::{cell_count, first_cell};
use crate::pieces::semicolon;
use crate::state::State;
use gate_defs::item_on;
use qccd_base::Qubit;
use qccd_circuit::{AngleList, ItemKind};
use std::alloc::{AllocError, Global};

// Puts the cell at the end, unless it stands there already. What stands there is marked.
fn mention(qubits: &mut Vec<Qubit>, marks: &mut [bool; 256], cell: u32) -> Result<(), AllocError>
    requires below { cell < 256 }
    requires seen { AreSeen marks.old (numbers qubits.old.items) }
    ensures seen { OnOk result (AreSeen marks.new (numbers qubits.new.items)) }
    ensures value { OnOk result (numbers qubits.new.items ≡ with_mention (numbers qubits.old.items) cell) }
{
    if !marks[cell as usize] {
        marks[cell as usize] = true;
        qubits.push(Qubit(cell as u16))?;
    }
    Ok(())
}

// Does so for each cell of the operand.
fn mention_cells(
    qubits: &mut Vec<Qubit>,
    marks: &mut [bool; 256],
    operand: &Operand,
) -> Result<(), AllocError>
    requires below { LiesBelow 256 operand.now }
    requires seen { AreSeen marks.old (numbers qubits.old.items) }
    ensures seen { OnOk result (AreSeen marks.new (numbers qubits.new.items)) }
    ensures value { OnOk result (numbers qubits.new.items ≡ with_mentions (numbers qubits.old.items) (cells operand.now)) }
{
    let first = first_cell(operand);
    for cell in first..first + cell_count(operand) {
        mention(qubits, marks, cell)?;
    }
    Ok(())
}

// Does so for each cell of the operand, unless it is known of them all that they stand there. So a register
// that is named many times is gone through once.
fn mention_operand(
    qubits: &mut Vec<Qubit>,
    marks: &mut [bool; 256],
    reach: &mut [u32; 256],
    operand: &Operand,
) -> Result<(), AllocError>
    requires below { LiesBelow 256 operand.now }
    requires seen { AreSeen marks.old (numbers qubits.old.items) }
    requires reached { AreReached reach.old (numbers qubits.old.items) }
    ensures seen { OnOk result (AreSeen marks.new (numbers qubits.new.items)) }
    ensures reached { OnOk result (AreReached reach.new (numbers qubits.new.items)) }
    ensures value { OnOk result (numbers qubits.new.items ≡ with_mentions (numbers qubits.old.items) (cells operand.now)) }
{
    let first = first_cell(operand) as usize;
    if reach[first] < cell_count(operand) {
        mention_cells(qubits, marks, operand)?;
        reach[first] = cell_count(operand);
    }
    Ok(())
}

// No cell is marked.
fn unmarked() -> [bool; 256]
    ensures { (n : ℕ) → n < 256 → get_or result n false ≡ false }
{
    [false; 256]
}

// Nothing is known of any cell.
fn unreached() -> [u32; 256]
    ensures { (ns : List ℕ) → AreReached result ns }
{
    [0; 256]
}

// Takes the operands of a barrier, and gives their qubits in order of first mention.
fn mentioned<'a>(
    alloc: Global,
    state: &State,
    cursor: &Cursor<'a>,
) -> Result<(Vec<Qubit>, Cursor<'a>), QasmFault>
    requires { IsSound (known state.now) }
    ensures end { IfOk result (λ p. begins token.Comma (ahead p.1) ≡ false) }
    ensures shorter { IfOk result (λ p. length (ahead p.1) < length (ahead cursor.now)) }
    ensures qubits { IfOk result (λ p. AreMentioned (known state.now) cursor.now p.1 p.0.items) }
    ensures fault { IfErr result (Tells (answer_from (known state.now) (operand (of_barrier [])) cursor.now)) }
{
    let mut qubits = Vec::new(alloc);
    let mut marks = unmarked();
    let mut reach = unreached();
    let (_, first, mut rest) = operand(state, RegisterKind::Quantum, false, cursor)?;
    mention_operand(&mut qubits, &mut marks, &mut reach, &first)?;
    while let Some(after) = comma(&rest) {
        let (_, next, behind) = operand(state, RegisterKind::Quantum, false, &after)?;
        mention_operand(&mut qubits, &mut marks, &mut reach, &next)?;
        rest = behind;
    }
    Ok((qubits, rest))
}

/// Takes a barrier behind its first word.
pub(crate) fn barrier<'a>(
    alloc: Global,
    state: &mut State,
    cursor: &Cursor<'a>,
) -> Result<Cursor<'a>, QasmFault>
    requires { IsSound (known state.old) }
    ensures sound { OnOk result (IsSound (known state.new)) }
    ensures shorter { IfOk result (λ rest. length (ahead rest) < length (ahead cursor.now)) }
    ensures leads { Leads (answer_from (known state.old) (operand (of_barrier [])) cursor.now) (answer_from (known state.new) between) result }
{
    let (qubits, rest) = mentioned(alloc, state, cursor)?;
    let (end, rest) = semicolon(&rest)?;
    if too_many(state, 1) {
        return Err(too_many_items(&end));
    }
    let angles = AngleList::of(Vec::new(alloc));
    let item = item_on(alloc, ItemKind::Barrier, b"barrier", angles, &qubits, None)?;
    state.items.push(item)?;
    Ok(rest)
}
