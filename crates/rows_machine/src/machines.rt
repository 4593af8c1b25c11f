//! Machines as rows have them, and what is printed of one.

use crate::parts::{read_parts, small, unread};
use qccd_base::{End, JuncId, NoMemory, SegId, TrapId};
use qccd_machine::{Machine, Preset, preset_machine};
use std::alloc::{AllocError, Global};
use std::io;

/// The machine of the name, its traps of the capacity.
pub fn read_preset(alloc: Global, text: &str) -> io::Result<Machine> {
    let (name, capacity) = text.split_once(" ").ok_or(unread())?;
    let which = match name {
        "L6" => Preset::L6,
        "G2x3" => Preset::G2x3,
        "single" => Preset::Single,
        _ => return Err(unread()),
    };
    match small(capacity) {
        Some(capacity @ 2..=32) => match preset_machine(alloc, which, capacity) {
            Ok(machine) => Ok(machine),
            Err(NoMemory) => Err(AllocError.into()),
        },
        _ => Err(unread()),
    }
}

/// The machine of a preset or of parts.
pub fn machine_of(alloc: Global, text: &str) -> io::Result<Machine> {
    match text.strip_prefix("preset ") {
        Some(preset) => read_preset(alloc, preset),
        None => Machine::build(alloc, read_parts(alloc, text)?)
            .ok()
            .ok_or(unread()),
    }
}

/// Prints how many parts of each kind the machine has, its slots and the bound of an item's operations.
pub fn show_sizes(rt: &impl Print, machine: &Machine) -> io::Result<()> {
    println!(rt;
        "  traps {} segments {} junctions {} slots {} worst {}",
        machine.traps(),
        machine.segments(),
        machine.junctions(),
        machine.slots(),
        machine.worst()
    )
}

/// Prints each trap with its capacity and the segments at its ends, each segment with its two ends, and each
/// junction with its degree.
pub fn show_parts(rt: &impl Print, machine: &Machine) -> io::Result<()> {
    for number in 0..machine.traps() {
        let trap = TrapId(number);
        println!(rt;
            "  T{number} holds {}, {:?} {:?}",
            machine.capacity(trap),
            machine.joined(trap, End::Left),
            machine.joined(trap, End::Right)
        )?;
    }
    for number in 0..machine.segments() {
        let (first, second) = machine.ends(SegId(number));
        println!(rt; "  S{number} {first:?} {second:?}")?;
    }
    for number in 0..machine.junctions() {
        println!(rt; "  J{number} joins {}", machine.degree(JuncId(number)))?;
    }
    Ok(())
}

/// Prints the times of the machine.
pub fn show_times(rt: &impl Print, machine: &Machine) -> io::Result<()> {
    println!(rt; "  {:?}", machine.times())
}
