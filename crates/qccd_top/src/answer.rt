//! What is done for the words.

ghost use Rattle.std.specs.Prelude.{◌≡◌, None, IsErrAnd, map, string_bytes};
ghost use Rattle.qccd_io.specs.Shelf.{NoneIsOut};
ghost use Rattle.qccd_words.specs.Words.{AskedRun, AskedCompile, AskedExec, AskedCheck, AskedRehearse, AskedTidy, asked, machine_asked, request_of, AreFew, AreWorkers, HasCapacity, IsWithinLimits};
ghost use Rattle.qccd_messages.specs.Cause.{Words, cause_of};
ghost use Rattle.qccd_top.specs.Means.{TextFor, TextOf};
ghost use Rattle.qccd_top.specs.Done.{Does};

use crate::crew::Crew;
use crate::output::{write_report, write_same, write_summary, write_text};
use crate::programs::{checked_in, loaded_in};
use crate::stages::{compiled_in, rehearsed_in};
use qccd_base::Mode;
use qccd_io::{Post, Shelf, Sink};
use qccd_messages::Refusal;
use qccd_words::{Command, MachineWord, request};
use std::alloc::Global;
use std::thread::Threads;

/// Writes the text that the words ask for, or says why not.
pub fn answer<'a, R: Threads + Sync, P: Post, F: Shelf, O: Sink>(
    crew: &Crew<'_, R, P>,
    words: &'a [String],
    shelf: &mut F,
    out: &mut O,
) -> Result<(), Refusal<'a>>
    requires { NoneIsOut (F.told shelf.old) }
    ensures does { Does F.told F.faults O.taken O.faults shelf.old shelf.new out.old out.new (λ told. TextFor told (map string_bytes words.now)) result }
    // Memory does not run out before the words are judged.
    ensures words { request_of (map string_bytes words.now) ≡ None → IsErrAnd result (λ r. cause_of r ≡ Words) }
{
    match request(words) {
        None => Err(Refusal::Words),
        Some(command) => obey(crew, command, shelf, out),
    }
}

/// Does what the command asks for.
fn obey<'a, R: Threads + Sync, P: Post, F: Shelf, O: Sink>(
    crew: &Crew<'_, R, P>,
    command: Command<'a>,
    shelf: &mut F,
    out: &mut O,
) -> Result<(), Refusal<'a>>
    requires inside { NoneIsOut (F.told shelf.old) }
    requires limits { IsWithinLimits (asked command) }
    ensures { Does F.told F.faults O.taken O.faults shelf.old shelf.new out.old out.new (λ told. TextOf told (asked command.entry)) result }
{
    match command {
        Command::Run {
            machine,
            circuit,
            workers,
            mode,
        } => run(crew, machine, circuit, workers, mode, shelf, out),
        Command::Compile {
            machine,
            circuit,
            mode,
        } => compile(crew.alloc, machine, circuit, mode, shelf, out),
        Command::Exec {
            machine,
            program,
            workers,
        } => exec(crew, machine, program, workers, shelf, out),
        Command::Check {
            machine,
            circuit,
            program,
        } => check(crew.alloc, machine, circuit, program, shelf, out),
        Command::Rehearse {
            number,
            qubits,
            items,
            machine,
            workers,
        } => rehearse(crew, number, qubits, items, machine, workers, shelf, out),
        Command::Tidy { machine, program } => tidy(crew.alloc, machine, program, shelf, out),
    }
}

/// Compiles the circuit of the file of this name, runs its program and writes the report.
fn run<'a, R: Threads + Sync, P: Post, F: Shelf, O: Sink>(
    crew: &Crew<'_, R, P>,
    machine: MachineWord<'a>,
    circuit: &'a str,
    workers: u8,
    mode: Mode,
    shelf: &mut F,
    out: &mut O,
) -> Result<(), Refusal<'a>>
    requires inside { NoneIsOut (F.told shelf.old) }
    requires capacity { HasCapacity (machine_asked machine) }
    requires workers { AreWorkers workers }
    ensures { Does F.told F.faults O.taken O.faults shelf.old shelf.new out.old out.new (λ told. TextOf told (AskedRun (machine_asked machine.entry) circuit.now workers mode)) result }
{
    let program = compiled_in(crew.alloc, shelf, machine, circuit, mode)?;
    let cells = crew.execute(&program, workers)?;
    write_report(crew.alloc, &program, &cells, out)
}

/// Compiles the circuit of the file of this name and writes the text of its program.
fn compile<'a, F: Shelf, O: Sink>(
    alloc: Global,
    machine: MachineWord<'a>,
    circuit: &'a str,
    mode: Mode,
    shelf: &mut F,
    out: &mut O,
) -> Result<(), Refusal<'a>>
    requires inside { NoneIsOut (F.told shelf.old) }
    requires capacity { HasCapacity (machine_asked machine) }
    ensures { Does F.told F.faults O.taken O.faults shelf.old shelf.new out.old out.new (λ told. TextOf told (AskedCompile (machine_asked machine.entry) circuit.now mode)) result }
{
    let program = compiled_in(alloc, shelf, machine, circuit, mode)?;
    write_text(alloc, &program, out)
}

/// Loads the program of the file of this name, runs it and writes its report.
fn exec<'a, R: Threads + Sync, P: Post, F: Shelf, O: Sink>(
    crew: &Crew<'_, R, P>,
    machine: MachineWord<'a>,
    program: &'a str,
    workers: u8,
    shelf: &mut F,
    out: &mut O,
) -> Result<(), Refusal<'a>>
    requires inside { NoneIsOut (F.told shelf.old) }
    requires capacity { HasCapacity (machine_asked machine) }
    requires workers { AreWorkers workers }
    ensures { Does F.told F.faults O.taken O.faults shelf.old shelf.new out.old out.new (λ told. TextOf told (AskedExec (machine_asked machine.entry) program.now workers)) result }
{
    let loaded = loaded_in(crew.alloc, shelf, machine, program)?;
    let cells = crew.execute(&loaded, workers)?;
    write_report(crew.alloc, &loaded, &cells, out)
}

/// Loads the program of the one file and compares it with the circuit of the other.
fn check<'a, F: Shelf, O: Sink>(
    alloc: Global,
    machine: MachineWord<'a>,
    circuit: &'a str,
    program: &'a str,
    shelf: &mut F,
    out: &mut O,
) -> Result<(), Refusal<'a>>
    requires inside { NoneIsOut (F.told shelf.old) }
    requires capacity { HasCapacity (machine_asked machine) }
    ensures { Does F.told F.faults O.taken O.faults shelf.old shelf.new out.old out.new (λ told. TextOf told (AskedCheck (machine_asked machine.entry) circuit.now program.now)) result }
{
    let _checked = checked_in(alloc, shelf, machine, circuit, program)?;
    write_same(out)
}

/// Compiles the circuit that is generated from the number, runs its program and writes the summary.
fn rehearse<'a, R: Threads + Sync, P: Post, F: Shelf, O: Sink>(
    crew: &Crew<'_, R, P>,
    number: u32,
    qubits: u16,
    items: u32,
    machine: MachineWord<'a>,
    workers: u8,
    shelf: &mut F,
    out: &mut O,
) -> Result<(), Refusal<'a>>
    requires inside { NoneIsOut (F.told shelf.old) }
    requires capacity { HasCapacity (machine_asked machine) }
    requires workers { AreWorkers workers }
    requires few { AreFew number qubits items }
    ensures { Does F.told F.faults O.taken O.faults shelf.old shelf.new out.old out.new (λ told. TextOf told (AskedRehearse number qubits items (machine_asked machine.entry) workers)) result }
{
    let program = rehearsed_in(crew.alloc, shelf, machine, number, qubits, items)?;
    let cells = crew.execute(&program, workers)?;
    write_summary(crew.alloc, &program, &cells, number, items, out)
}

/// Loads the program of the file of this name and writes its text without the operations that undo each other.
fn tidy<'a, F: Shelf, O: Sink>(
    alloc: Global,
    machine: MachineWord<'a>,
    program: &'a str,
    shelf: &mut F,
    out: &mut O,
) -> Result<(), Refusal<'a>>
    requires inside { NoneIsOut (F.told shelf.old) }
    requires capacity { HasCapacity (machine_asked machine) }
    ensures { Does F.told F.faults O.taken O.faults shelf.old shelf.new out.old out.new (λ told. TextOf told (AskedTidy (machine_asked machine.entry) program.now)) result }
{
    let loaded = loaded_in(alloc, shelf, machine, program)?;
    let left = passes::tidy(alloc, loaded)?;
    write_text(alloc, &left, out)
}
