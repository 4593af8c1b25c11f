//! Tells of the items and the circuit of each row of standard input. An item is a word, as `h:0`, `cx:0,1` or
//! `measure:1>0`. A row is one of these; another stands as it is:
//!
//! - `circuit QUBITS BITS ITEM.. | NUMBER.. | NUMBER..`: of each item whether it is added to the circuit of so
//!   many qubits and bits, is outside its counts or does not fit, and how many are added; of each list of numbers
//!   whether it keeps their order
//! - `order QUBITS BITS ITEM.. | NUMBER..`: the levels of the items, the items by level, and which are ready at first
//!   and after each of the numbers is taken
//! - `share ITEM ITEM`: whether the two share
//! - `random QUBITS N`: of N pseudo-random items on so many qubits whether their levels are the plain rule's, and
//!   how many are taken while those are ready that the plain rule tells
//! - `largest`: of a gate on each of 256 qubits and on each ordered pair of them how many are added, how many have a
//!   level, whether any is ready, and whether the order by level keeps the circuit's, their own order does, and the
//!   one from back to front
#![tactic(auto)]

mod ordering;
mod reading;

use ordering::{show_counts, show_levels, show_plainly, show_taking};
use qccd_base::NoMemory;
use qccd_circuit::{Circuit, Item, same_order, shares};
use reading::{made_of, read_item, read_number_of, read_numbers, taken, unread};
use std::alloc::Global;
use std::io::{self, Read};

/// The most items of a circuit.
const ITEMS: usize = 65536;

/// Takes what threads may share and hand over.
fn crosses_threads<T: Send + Sync>(_shared: &T) {}

/// The circuit of so many qubits and bits, which are 256 at most, with no item.
fn empty(alloc: Global, qubits: u16, bits: u16) -> Circuit {
    let circuit = Circuit::begin(alloc, qubits.min(256), bits.min(256));
    crosses_threads(&circuit);
    circuit
}

/// Adds a copy of the item, where it is within the counts, and tells what became of it.
fn add_copy(circuit: &mut Circuit, item: &Option<Item>) -> Result<&'static str, NoMemory> {
    let Some(item) = item else {
        return Ok("unfit");
    };
    let copy = item.copy()?;
    if !copy.is_within(circuit.qubits(), circuit.bits()) || circuit.items().len() >= ITEMS {
        return Ok("outside");
    }
    circuit.add(copy)?;
    Ok("added")
}

/// Prints whether the list keeps the order of the circuit.
fn show_order(rt: &impl Print, alloc: Global, circuit: &Circuit, list: &[u32]) -> io::Result<()> {
    let kept = taken(same_order(alloc, circuit, list))?;
    println!(rt; "  {}", if kept { "kept" } else { "not kept" })
}

/// Prints what becomes of the items, and of the lists.
fn show_circuit(rt: &impl Print, alloc: Global, text: &str) -> io::Result<()> {
    let (text, lists) = text.split_once(" | ").unwrap_or((text, ""));
    let circuit = added(rt, alloc, text)?;
    println!(rt; "  items {}", circuit.items().len())?;
    show_lists(rt, alloc, &circuit, lists)
}

/// The circuit of these counts and items. Prints what becomes of each item.
fn added(rt: &impl Print, alloc: Global, text: &str) -> io::Result<Circuit> {
    let mut words = text.split_whitespace();
    let qubits = read_number_of(words.next())?;
    let bits = read_number_of(words.next())?;
    let mut circuit = empty(alloc, qubits, bits);
    for word in words {
        let item = read_item(alloc, word)?;
        println!(rt; "  {word} {}", taken(add_copy(&mut circuit, &item))?)?;
    }
    Ok(circuit)
}

/// Prints the order of the items, and which are ready as the numbers are taken.
fn show_ordering(rt: &impl Print, alloc: Global, text: &str) -> io::Result<()> {
    let (text, numbers) = text.split_once(" | ").unwrap_or((text, ""));
    let circuit = added(rt, alloc, text)?;
    show_levels(rt, alloc, &circuit)?;
    show_taking(rt, alloc, &circuit, &read_numbers(alloc, numbers)?)
}

/// Prints of each of the lists whether it keeps the order of the circuit.
fn show_lists(rt: &impl Print, alloc: Global, circuit: &Circuit, lists: &str) -> io::Result<()> {
    for list in lists.split_terminator(" | ") {
        show_order(rt, alloc, circuit, &read_numbers(alloc, list)?)?;
    }
    Ok(())
}

/// Prints whether the two items share.
fn show_sharing(rt: &impl Print, alloc: Global, text: &str) -> io::Result<()> {
    let (one, other) = text.split_once(" ").ok_or(unread())?;
    let Some(one) = read_item(alloc, one)? else {
        return Err(unread());
    };
    let Some(other) = read_item(alloc, other)? else {
        return Err(unread());
    };
    println!(rt; "  {}", shares(&one, &other))
}

/// The circuit of so many pseudo-random gates on one qubit or two and barriers on three.
fn random(alloc: Global, qubits: u16, count: u16) -> io::Result<Circuit> {
    let most = qubits.clamp(1, 256);
    let mut circuit = empty(alloc, most, 0);
    let mut state = 1u32;
    for _ in 0..count {
        state = state.wrapping_mul(1664525).wrapping_add(1013904223);
        let first = (state >> 24) as u16 % most;
        let second = ((state >> 16) % 256) as u16 % most;
        let third = ((state >> 8) % 256) as u16 % most;
        let item = if first == second {
            made_of(alloc, "h", &[first], &[])?
        } else if state % 16 == 0 && third != first && third != second {
            made_of(alloc, "barrier", &[first, second, third], &[])?
        } else {
            made_of(alloc, "cx", &[first, second], &[])?
        };
        taken(add_copy(&mut circuit, &item))?;
    }
    Ok(circuit)
}

/// Prints what the plain rules say of a pseudo-random circuit of these counts.
fn show_random(rt: &impl Print, alloc: Global, text: &str) -> io::Result<()> {
    let (qubits, count) = text.split_once(" ").ok_or(unread())?;
    let circuit = random(
        alloc,
        read_number_of(Some(qubits))?,
        read_number_of(Some(count))?,
    )?;
    show_plainly(rt, alloc, &circuit)
}

/// The gate on each qubit, or on the ordered pair of this number, where they differ.
fn gate_of(alloc: Global, number: u32) -> io::Result<Option<Item>> {
    let on = [(number % 256) as u16, (number / 256 % 256) as u16];
    if on[0] == on[1] {
        made_of(alloc, "h", &on[..1], &[])
    } else {
        made_of(alloc, "cx", &on, &[])
    }
}

/// Prints what becomes of a gate on each of 256 qubits and on each ordered pair of them, and of two lists.
fn show_largest(rt: &impl Print, alloc: Global) -> io::Result<()> {
    let mut circuit = empty(alloc, 256, 0);
    let mut list = Vec::new(alloc);
    for number in 0..65536 {
        taken(add_copy(&mut circuit, &gate_of(alloc, number)?))?;
        list.push(number)?;
    }
    println!(rt; "  items {}", circuit.items().len())?;
    show_counts(rt, alloc, &circuit)?;
    show_order(rt, alloc, &circuit, &list)?;
    list.reverse();
    show_order(rt, alloc, &circuit, &list)
}

/// Prints the row and the answer to it.
fn show_row(rt: &impl Print, alloc: Global, row: &str) -> io::Result<()> {
    println!(rt; "{row}")?;
    match row.split_once(" ") {
        Some(("circuit", rest)) => show_circuit(rt, alloc, rest),
        Some(("order", rest)) => show_ordering(rt, alloc, rest),
        Some(("share", rest)) => show_sharing(rt, alloc, rest),
        Some(("random", rest)) => show_random(rt, alloc, rest),
        None if row == "largest" => show_largest(rt, alloc),
        _ => Ok(()),
    }
}

fn main(rt: HostRuntime) -> io::Result<()> {
    let mut rows = String::new(rt.alloc());
    rt.stdin().read_to_string(&mut rows)?;
    for row in rows.lines() {
        show_row(&rt, rt.alloc(), row)?;
    }
    Ok(())
}
