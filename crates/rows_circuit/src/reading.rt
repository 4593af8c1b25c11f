//! Items and numbers as rows have them.

use qccd_base::{Bit, BitList, NoMemory, Qubit, QubitList, read_number};
use qccd_circuit::{AngleList, Item, ItemKind, Name, fits};
use std::alloc::{AllocError, Global};
use std::io;

/// That a row can't be read.
pub fn unread() -> io::Error {
    io::ErrorKind::InvalidInput.into()
}

/// Where memory ran out, that it did.
pub fn taken<T>(outcome: Result<T, NoMemory>) -> io::Result<T> {
    match outcome {
        Ok(value) => Ok(value),
        Err(NoMemory) => Err(AllocError.into()),
    }
}

/// The number of a word, where there is one.
pub fn read_number_of(word: Option<&str>) -> io::Result<u16> {
    let number = read_number(word.ok_or(unread())?.as_bytes());
    u16::try_from(number.ok_or(unread())?).ok().ok_or(unread())
}

/// The numbers between the blanks.
pub fn read_numbers(alloc: Global, text: &str) -> io::Result<Vec<u32>> {
    let mut numbers = Vec::new(alloc);
    for word in text.split_whitespace() {
        numbers.push(read_number_of(Some(word))?.into())?;
    }
    Ok(numbers)
}

/// The numbers between the commas.
fn read_operands(alloc: Global, text: &str) -> io::Result<Vec<u16>> {
    let mut numbers = Vec::new(alloc);
    for word in text.split_terminator(",") {
        numbers.push(read_number_of(Some(word))?)?;
    }
    Ok(numbers)
}

/// The item of a word, where it fits.
pub fn read_item(alloc: Global, word: &str) -> io::Result<Option<Item>> {
    let (name, operands) = word.split_once(":").ok_or(unread())?;
    let (qubits, bits) = operands.split_once(">").unwrap_or((operands, ""));
    let qubits = read_operands(alloc, qubits)?;
    let bits = read_operands(alloc, bits)?;
    made_of(alloc, name, &qubits, &bits)
}

/// What an item of this name does to so many qubits.
fn kind_of(name: &str, qubits: usize) -> ItemKind {
    match name {
        "measure" => ItemKind::Measure,
        "reset" => ItemKind::Reset,
        "barrier" => ItemKind::Barrier,
        _ if qubits == 1 => ItemKind::Gate1,
        _ => ItemKind::Gate2,
    }
}

/// The item of this name with no angle and no condition, where it fits.
pub fn made_of(
    alloc: Global,
    name: &str,
    qubits: &[u16],
    bits: &[u16],
) -> io::Result<Option<Item>> {
    let kind = kind_of(name, qubits.len());
    let name = Name::of(Vec::from_slice(alloc, name.as_bytes())?);
    let angles = AngleList::of(Vec::new(alloc));
    let qubits = QubitList::of(qubits.iter().map(|number| Qubit(*number)).collect(alloc)?);
    let bits = BitList::of(bits.iter().map(|number| Bit(*number)).collect(alloc)?);
    if !fits(kind, &name, &angles, &qubits, &bits, &None) {
        return Ok(None);
    }
    Ok(Some(Item::of(kind, name, angles, qubits, bits, None)))
}
