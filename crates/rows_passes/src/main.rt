//! Loads a program for each row of standard input, takes the operations that undo each other out of it, and tells what
//! is left.
//!
//! A row is the number of the operations and their lines, in which `~` stands for a line feed, `{3:ab}` for `ababab`,
//! and in braces `#` for the number of the repetition, from 0. In front of it stand two ions in the first of six traps
//! of five ions in a line. Behind each row stand the lines of the operations that are left, or that there is no such
//! program.
#![tactic(auto)]

ghost use Rattle.std.specs.Prelude.{◌≤◌, length};
ghost use Rattle.transport_asm.specs.LineCursor.{raw_data};
ghost use Rattle.transport_asm.specs.Writable.{IsWritableRaw};

mod fault;
mod texts;

use fault::Fault;
use loader::load;
use passes::tidy;
use qccd_io::{MemSink, Sink, StdSink, send};
use qccd_machine::{Preset, preset_machine};
use qccd_program::Program;
use std::alloc::Global;
use std::io::Read;
use texts::text_of;
use transport_asm::{RawProgram, read_ops, write_program};

/// The most bytes of a text.
const LIMIT: usize = 268435456;

/// The lines in front of the number of operations.
const HEAD: &str = "QCCD 1~qubits 2~bits 0~traps 6~T0 0 1~T1~T2~T3~T4~T5~ops ";

/// The most bytes of what is left.
const LEFT: usize = 65536;

/// Tells the text of what is left of the program.
fn tell_left<S: Sink>(alloc: Global, program: Program, sink: &mut S) -> Result<(), Fault> {
    let left = tidy(alloc, program)?;
    let mut text = MemSink::of(alloc, LEFT, 4096, Vec::new(alloc))?;
    if write_program(&left, &mut text).is_ok() {
        send(sink, text.bytes())?;
    }
    Ok(())
}

/// Loads what this text spells, and tells what is left of it.
fn load_raw<S: Sink>(alloc: Global, raw: RawProgram, sink: &mut S) -> Result<(), Fault>
    requires { IsWritableRaw (raw_data raw) }
{
    match load(alloc, preset_machine(alloc, Preset::L6, 5)?, raw) {
        Ok(program) => tell_left(alloc, program, sink),
        Err(_fault) => Ok(send(sink, b"not loaded\n")?),
    }
}

/// Reads the text, and tells what is left of the program.
fn load_row<S: Sink>(alloc: Global, text: &[u8], sink: &mut S) -> Result<(), Fault>
    requires { length text.now ≤ 268435456 }
{
    match read_ops(alloc, text) {
        Ok(raw) => load_raw(alloc, raw, sink),
        Err(_fault) => Ok(send(sink, b"not read\n")?),
    }
}

/// Tells the row, and what is left of its program.
fn show_row<S: Sink>(alloc: Global, row: &str, sink: &mut S) -> Result<(), Fault> {
    send(sink, row.as_bytes())?;
    send(sink, b"\n")?;
    let text = text_of(alloc, HEAD, row, "~end~")?;
    if text.len() > LIMIT {
        return Err(Fault::Row);
    }
    load_row(alloc, text.as_slice(), sink)
}

fn main(rt: HostRuntime) -> Result<(), Fault> {
    let mut rows = String::new(rt.alloc());
    rt.stdin().read_to_string(&mut rows)?;
    let mut sink = StdSink::of(rt.stdout());
    for row in rows.lines() {
        show_row(rt.alloc(), row, &mut sink)?;
    }
    Ok(())
}
