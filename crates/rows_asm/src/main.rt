//! Reads a program text for each row of standard input, or loads it on a machine, and tells what it spells or why
//! it is refused.
//!
//! A row is a word and a text, in which `~` stands for a line feed, `{3:ab}` for `ababab`, and in braces `#` for
//! the number of the repetition, from 0. The word tells what stands around the text and what is done with it:
//!
//! - `text`: it stands alone and is read
//! - `cuts`: it stands alone, and each part that begins it, from none to all but the last byte, is read
//! - `alone`: it stands alone and is read as an operation
//! - `op`, `chain`: it is the only line of an operation, or of a chain, in a program that is read
//! - `single`, `six`: it goes from the number of qubits to the last chain of a program without operations, which is
//!   loaded on one trap of four ions, or on six traps of two in a line
//! - `line`, `grid`: it is the number and the lines of the operations in a program with three ions in the first two
//!   of six traps, which is loaded on six traps of two ions in a line, or in two rows
//! - `ion`, `gate`: the same as `line`, in a program that names this mode
//!
//! Behind a `=` stands what was read: an operation, or the mode where it is named, the numbers of qubits and bits, each chain behind a `/` and
//! each operation behind a `;`. Of a loaded program it is told whether it is written as the same text. Behind a `!`
//! stands why a text was not read, with its line, or not loaded. Of parts that are refused alike the number is told,
//! in front of an `x`. A row that begins with another word is told as it stands.
#![tactic(auto)]

ghost use Rattle.std.specs.Prelude.{◌≤◌, length};
ghost use Rattle.transport_asm.specs.LineCursor.{raw_data};
ghost use Rattle.transport_asm.specs.Writable.{IsWritableRaw};

mod fault;
mod frames;
mod telling;
mod texts;

use fault::Fault;
use frames::{Frame, Task, frame_of};
use loader::load;
use qccd_base::NoMemory;
use qccd_io::{MemSink, Sink, StdSink, send};
use qccd_machine::{Machine, Preset, preset_machine};
use qccd_program::Program;
use std::alloc::Global;
use std::io::Read;
use telling::{tell_fault, tell_load_fault, tell_op, tell_op_fault, tell_parts, tell_raw};
use texts::text_of;
use transport_asm::{RawProgram, read_op, read_ops, write_program};

/// The most bytes of a text.
const LIMIT: usize = 268435456;

/// Reads the text and tells what it spells.
fn read_row<S: Sink>(alloc: Global, text: &[u8], sink: &mut S) -> Result<(), Fault>
    requires { length text.now ≤ 268435456 }
{
    match read_ops(alloc, text) {
        Ok(raw) => Ok(tell_raw(&raw, sink)?),
        Err(fault) => tell_fault(fault, sink),
    }
}

/// Reads each part that begins the text, and tells how many were refused alike.
fn cut_row<S: Sink>(alloc: Global, text: &[u8], sink: &mut S) -> Result<(), Fault>
    requires { length text.now ≤ 268435456 }
{
    let mut count: u64 = 0;
    let mut last = None;
    for end in 0..text.len() {
        let fault = read_ops(alloc, &text[..end]).err();
        if fault != last {
            tell_parts(count, last, sink)?;
            count = 0;
            last = fault;
        }
        count = count.saturating_add(1);
    }
    tell_parts(count, last, sink)
}

/// Reads the text as an operation and tells it.
fn alone_row<S: Sink>(alloc: Global, text: &[u8], sink: &mut S) -> Result<(), Fault> {
    match read_op(alloc, text) {
        Ok(op) => Ok(tell_op(&op, sink)?),
        Err(fault) => tell_op_fault(fault, sink),
    }
}

/// The machine of this name, with one trap of four ions or with six of two.
fn small_machine(alloc: Global, which: Preset) -> Result<Machine, NoMemory> {
    match which {
        Preset::Single => preset_machine(alloc, which, 4),
        Preset::L6 | Preset::G2x3 => preset_machine(alloc, which, 2),
    }
}

/// Tells whether the program is written as this text.
fn tell_written<S: Sink>(
    alloc: Global,
    program: &Program,
    text: &[u8],
    sink: &mut S,
) -> Result<(), Fault> {
    let mut written = MemSink::of(alloc, text.len(), 4096, Vec::new(alloc))?;
    if write_program(program, &mut written).is_ok() && written.bytes() == text {
        send(sink, b" = the same")?;
    } else {
        send(sink, b" = another")?;
    }
    Ok(())
}

/// Loads what this text spells on the machine, and tells what came of it.
fn load_raw<S: Sink>(
    alloc: Global,
    machine: Machine,
    raw: RawProgram,
    text: &[u8],
    sink: &mut S,
) -> Result<(), Fault>
    requires { IsWritableRaw (raw_data raw) }
{
    match load(alloc, machine, raw) {
        Ok(program) => tell_written(alloc, &program, text, sink),
        Err(fault) => tell_load_fault(fault, sink),
    }
}

/// Reads the text, loads it on the machine, and tells what came of it.
fn load_row<S: Sink>(
    alloc: Global,
    machine: Machine,
    text: &[u8],
    sink: &mut S,
) -> Result<(), Fault>
    requires { length text.now ≤ 268435456 }
{
    match read_ops(alloc, text) {
        Ok(raw) => load_raw(alloc, machine, raw, text, sink),
        Err(fault) => tell_fault(fault, sink),
    }
}

/// Does what is asked for with the text, and tells what came of it.
fn answer<S: Sink>(alloc: Global, task: Task, text: &[u8], sink: &mut S) -> Result<(), Fault>
    requires { length text.now ≤ 268435456 }
{
    match task {
        Task::Read => read_row(alloc, text, sink),
        Task::Cut => cut_row(alloc, text, sink),
        Task::ReadAlone => alone_row(alloc, text, sink),
        Task::Load(which) => load_row(alloc, small_machine(alloc, which)?, text, sink),
    }
}

/// Tells what came of the row's text in its frame.
fn answer_row<S: Sink>(alloc: Global, frame: &Frame, row: &str, sink: &mut S) -> Result<(), Fault> {
    let text = text_of(alloc, frame.before, row, frame.behind)?;
    if text.len() > LIMIT {
        return Err(Fault::Row);
    }
    answer(alloc, frame.task, text.as_slice(), sink)
}

/// Tells the row, and what came of it.
fn show_row<S: Sink>(alloc: Global, row: &str, sink: &mut S) -> Result<(), Fault> {
    send(sink, row.as_bytes())?;
    if let Some((word, rest)) = row.split_once(" ") {
        if let Some(frame) = frame_of(word) {
            answer_row(alloc, &frame, rest, sink)?;
        }
    }
    send(sink, b"\n")?;
    Ok(())
}

fn main(rt: HostRuntime) -> Result<(), Fault> {
    let mut rows = String::new(rt.alloc());
    rt.stdin().read_to_string(&mut rows)?;
    let mut sink = StdSink::of(rt.stdout());
    for row in rows.lines() {
        show_row(rt.alloc(), row, &mut sink)?;
    }
    Ok(())
}
