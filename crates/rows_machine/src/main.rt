//! Tells of the machine of each row of standard input. A row is one of these; another stands as it is:
//!
//! - `fault PARTS`: what is wrong with the parts, or `none`
//! - `file FILE`: why the file is that of no machine, or `none`
//! - `text FAULT NUMBER`: what is told of the fault, by its text and as it is displayed
//! - `memory`: what is told where memory ran out
//! - `build PARTS`: the sizes of the machine of the parts, or why there is none
//! - `read FILE`: the sizes and the times of the machine of the file
//! - `preset NAME CAPACITY`: the sizes, the parts and the times of a machine that is known by name
//! - `ways FROM-TO,.. PARTS`, or with a preset in their place: what the routes tell of these ways
#![tactic(auto)]

mod faults;
mod files;
mod machines;
mod parts;
mod ways;

use faults::read_fault;
use files::read_file;
use machine_text::{TextFault, read_machine};
use machines::{read_preset, show_parts, show_sizes, show_times};
use parts::{read_parts, unread};
use qccd_machine::Machine;
use std::alloc::Global;
use std::fmt::Display;
use std::io::{self, Read};
use ways::show_ways;

/// Prints the row and the fault, or `none`.
fn show_fault<F: Display + Drop>(rt: &impl Print, row: &str, fault: Option<F>) -> io::Result<()> {
    match fault {
        Some(fault) => println!(rt; "{row} = {fault}"),
        None => println!(rt; "{row} = none"),
    }
}

/// Prints the row and the sizes of the machine of the parts, or why there is none.
fn show_built(rt: &impl Print, alloc: Global, row: &str, parts: &str) -> io::Result<()> {
    match Machine::build(alloc, read_parts(alloc, parts)?) {
        Ok(machine) => {
            println!(rt; "{row}")?;
            show_sizes(rt, &machine)
        }
        Err(fault) => println!(rt; "{row} = {fault}"),
    }
}

/// Prints the row, and the sizes and the times of the machine of the file.
fn show_read(rt: &impl Print, alloc: Global, row: &str, file: &str) -> io::Result<()> {
    let machine = read_machine(alloc, &read_file(alloc, file)?);
    let machine = machine.ok().ok_or(unread())?;
    println!(rt; "{row}")?;
    show_sizes(rt, &machine)?;
    show_times(rt, &machine)
}

/// Prints the row, and the sizes, the parts and the times of the machine of this name.
fn show_preset(rt: &impl Print, alloc: Global, row: &str, preset: &str) -> io::Result<()> {
    let machine = read_preset(alloc, preset)?;
    println!(rt; "{row}")?;
    show_sizes(rt, &machine)?;
    show_parts(rt, &machine)?;
    show_times(rt, &machine)
}

/// Prints the row and the answer to it.
fn show_row(rt: &impl Print, alloc: Global, row: &str) -> io::Result<()> {
    let (word, rest) = row.split_once(" ").unwrap_or((row, ""));
    match word {
        "fault" => show_fault(rt, row, read_parts(alloc, rest)?.fault()),
        "file" => show_fault(rt, row, read_machine(alloc, &read_file(alloc, rest)?).err()),
        "text" => {
            let fault = read_fault(rest).ok_or(unread())?;
            println!(rt; "{row} = {} = {fault}", fault.text().as_str())
        }
        "memory" => println!(rt; "{row} = {}", TextFault::NoMemory),
        "build" => show_built(rt, alloc, row, rest),
        "read" => show_read(rt, alloc, row, rest),
        "preset" => show_preset(rt, alloc, row, rest),
        "ways" => show_ways(rt, alloc, row, rest),
        _ => println!(rt; "{row}"),
    }
}

fn main(rt: HostRuntime) -> io::Result<()> {
    let mut rows = String::new(rt.alloc());
    rt.stdin().read_to_string(&mut rows)?;
    for row in rows.lines() {
        show_row(&rt, rt.alloc(), row)?;
    }
    Ok(())
}
