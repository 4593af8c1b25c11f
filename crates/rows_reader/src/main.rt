//! Reads a circuit for each row of standard input, and tells its items or why it is refused.
//!
//! A row is a word and a text. The word tells what is read before the text: `text` nothing, `head` the
//! header, `cells` the header, the include and some registers. In a text `~` stands for a line feed.
//! Of a circuit the row is told with a `=` and its items: name, angles, qubits and, behind a `>`, the
//! bit. Where it is refused, a `@` stands before the byte that is told, and the kind behind a `!`.
//!
//! Behind the word `many` stand, between bars, a number, a text, a piece that stands so many times behind it,
//! and the text behind those. Of such a circuit the row is told with its counts, or with the fault in words and
//! as a value. The row `faults` is told with two faults. Any other row is told as it stands.
#![tactic(auto)]

use qasm_reader::{Many, QasmFault, QasmKind, read};
use qccd_base::{NoMemory, number_text, read_number};
use qccd_circuit::{Circuit, Item};
use std::alloc::Global;
use std::io::{Read, Write};
use std::process::ExitCode;

// The most bytes of a circuit.
const LIMIT: usize = 16777216;

const HEADER: &[u8] = b"OPENQASM 2.0;";

// Qubits 0 and 1 are q, 2 to 4 are r, 5 is s; bits 0 and 1 are c, 2 is d.
const CELLS: &[u8] =
    b"OPENQASM 2.0;include \"qelib1.inc\";qreg q[2];qreg r[3];qreg s[1];creg c[2];creg d[1];";

// What is read before the text of the row, and the row behind its word.
fn parts(row: &[u8]) -> Option<(&'static [u8], &[u8])> {
    if let Some(rest) = row.strip_prefix(b"text ") {
        Some((b"", rest))
    } else if let Some(rest) = row.strip_prefix(b"head ") {
        Some((HEADER, rest))
    } else if let Some(rest) = row.strip_prefix(b"cells ") {
        Some((CELLS, rest))
    } else {
        None
    }
}

// The answer to the text, and no memory where it is longer than a circuit may be.
fn answer(alloc: Global, text: &[u8]) -> Result<Circuit, QasmFault> {
    if text.len() > LIMIT {
        return Err(QasmFault::NoMemory);
    }
    read(alloc, text)
}

// The text of a row, with line feeds.
fn text_of(alloc: Global, before: &[u8], rest: &[u8]) -> Result<Vec<u8>, NoMemory> {
    let mut text = Vec::from_slice(alloc, before)?;
    for byte in rest {
        text.push(if *byte == b'~' { b'\n' } else { *byte })?;
    }
    Ok(text)
}

// Puts the numbers at the end, each behind the byte and further ones behind commas.
fn show_number(first: bool, byte: u8, number: u16, shown: &mut Vec<u8>) -> Result<(), NoMemory> {
    shown.push(if first { byte } else { b',' })?;
    shown.extend_from_slice(number_text(number.into()).as_bytes())?;
    Ok(())
}

// Puts the angles of the item at the end.
fn show_angles(item: &Item, shown: &mut Vec<u8>) -> Result<(), NoMemory> {
    for (i, angle) in item.angles().as_slice().iter().enumerate() {
        shown.push(if i == 0 { b'(' } else { b',' })?;
        shown.extend_from_slice(angle.as_slice())?;
    }
    if !item.angles().is_empty() {
        shown.push(b')')?;
    }
    Ok(())
}

// Puts the item at the end.
fn show_item(item: &Item, shown: &mut Vec<u8>) -> Result<(), NoMemory> {
    shown.extend_from_slice(item.name().as_slice())?;
    show_angles(item, shown)?;
    for (i, qubit) in item.qubits().as_slice().iter().enumerate() {
        show_number(i == 0, b' ', qubit.0, shown)?;
    }
    for (i, bit) in item.bits().as_slice().iter().enumerate() {
        show_number(i == 0, b'>', bit.0, shown)?;
    }
    shown.push(b';')?;
    Ok(())
}

// Puts the row of a circuit at the end.
fn show_circuit(row: &[u8], circuit: &Circuit, shown: &mut Vec<u8>) -> Result<(), NoMemory> {
    shown.extend_from_slice(row)?;
    shown.extend_from_slice(b" =")?;
    for item in circuit.items() {
        shown.push(b' ')?;
        show_item(item, shown)?;
    }
    shown.push(b'\n')?;
    Ok(())
}

// Puts the row at the end, with a `@` before its byte of this number and the words behind it.
fn show_refusal(row: &[u8], at: usize, why: &str, shown: &mut Vec<u8>) -> Result<(), NoMemory> {
    for (i, byte) in row.iter().enumerate() {
        if i == at {
            shown.push(b'@')?;
        }
        shown.push(*byte)?;
    }
    if row.len() == at {
        shown.push(b'@')?;
    }
    shown.extend_from_slice(b" ! ")?;
    shown.extend_from_slice(why.as_bytes())?;
    shown.push(b'\n')?;
    Ok(())
}

// The text of a row of many pieces.
fn repeated(alloc: Global, parts: &[u8]) -> Result<Vec<u8>, NoMemory> {
    let mut parts = parts.split(|byte| *byte == b'|');
    let times = parts.next().and_then(|number| read_number(number));
    let mut text = Vec::from_slice(alloc, parts.next().unwrap_or(b""))?;
    let piece = parts.next().unwrap_or(b"");
    for _ in 0..times.unwrap_or(0) {
        text.extend_from_slice(piece)?;
    }
    text.extend_from_slice(parts.next().unwrap_or(b""))?;
    Ok(text)
}

// Puts a row of many pieces at the end, with the circuit's counts or the fault.
fn show_many(alloc: Global, row: &[u8], parts: &[u8], shown: &mut Vec<u8>) -> Result<(), NoMemory> {
    let text = repeated(alloc, parts)?;
    let told = match answer(alloc, &text) {
        Ok(circuit) => format!(in alloc;
            " = {} qubits, {} bits, {} items\n",
            circuit.qubits(),
            circuit.bits(),
            circuit.items().len()
        )?,
        Err(fault) => format!(in alloc; " ! {fault} = {fault:?}\n")?,
    };
    shown.extend_from_slice(row)?;
    shown.extend_from_slice(told.as_bytes())?;
    Ok(())
}

// Puts two faults in words at the end.
fn show_faults(alloc: Global, shown: &mut Vec<u8>) -> Result<(), NoMemory> {
    let kind = QasmKind::TooMany {
        what: Many::AngleBytes,
        limit: 1024,
    };
    let refused = QasmFault::Refused { at: 7, kind };
    let told = format!(in alloc; "faults ! {refused} ! {}\n", QasmFault::NoMemory)?;
    shown.extend_from_slice(told.as_bytes())?;
    Ok(())
}

// Puts the answer to the row at the end.
fn show_answer(alloc: Global, row: &[u8], shown: &mut Vec<u8>) -> Result<(), NoMemory> {
    if let Some(parts) = row.strip_prefix(b"many ") {
        return show_many(alloc, row, parts, shown);
    }
    if row == b"faults".as_slice() {
        return show_faults(alloc, shown);
    }
    let Some((before, rest)) = parts(row) else {
        shown.extend_from_slice(row)?;
        shown.push(b'\n')?;
        return Ok(());
    };
    let text = text_of(alloc, before, rest)?;
    match answer(alloc, &text) {
        Ok(circuit) => show_circuit(row, &circuit, shown),
        Err(QasmFault::Refused { at, kind }) => {
            let word = row.len().saturating_sub(rest.len());
            let at = (at as usize)
                .saturating_sub(before.len())
                .saturating_add(word);
            show_refusal(row, at, kind.text(), shown)
        }
        Err(QasmFault::NoMemory) => Err(NoMemory),
    }
}

// The answers to all rows.
fn answers(alloc: Global, rows: &[u8]) -> Result<Vec<u8>, NoMemory> {
    let mut shown = Vec::new(alloc);
    for row in rows.split(|byte| *byte == b'\n') {
        if !row.is_empty() {
            show_answer(alloc, row, &mut shown)?;
        }
    }
    Ok(shown)
}

fn main(rt: HostRuntime) -> ExitCode {
    let mut rows = Vec::new(rt.alloc());
    if rt.stdin().read_to_end(&mut rows).is_err() {
        return ExitCode::from(2);
    }
    let shown = match answers(rt.alloc(), &rows) {
        Ok(shown) => shown,
        Err(NoMemory) => return ExitCode::from(12),
    };
    match rt.stdout().write_all(&shown) {
        Ok(()) => ExitCode::from(0),
        Err(_) => ExitCode::from(4),
    }
}
