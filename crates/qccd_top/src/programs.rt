//! The stages of programs in files.

ghost use Rattle.std.specs.Prelude.{◌≤◌, length, IfOk};
ghost use Rattle.qccd_io.specs.Shelf.{NoneIsOut};
ghost use Rattle.transport_asm.specs.LineCursor.{raw_data};
ghost use Rattle.transport_asm.specs.Writable.{IsWritableRaw};
ghost use Rattle.qccd_words.specs.Words.{machine_asked, HasCapacity};
ghost use Rattle.qccd_top.specs.declared.limits.TheConstants.{PROGRAM_LIMIT};
ghost use Rattle.qccd_top.specs.Stage.{IsAnswer, Visits, viewed};
ghost use Rattle.qccd_top.specs.Stages.{RawOf, RawIn, LoadedOn, ProgramIn, SameAs};
ghost use Rattle.qccd_top.specs.Means.{LoadedIn, CheckedIn};

use crate::limits::PROGRAM_LIMIT;
use crate::stages::{circuit_in, file_in, machine_in};
use loader::{LoadFault, load};
use meaning_check::{Verdict, compare};
use qccd_circuit::Circuit;
use qccd_io::Shelf;
use qccd_machine::Machine;
use qccd_messages::Refusal;
use qccd_program::Program;
use qccd_words::MachineWord;
use std::alloc::Global;
use transport_asm::{AsmFault, RawProgram, read_ops};

/// The raw program that the text spells.
fn raw_of<'a>(alloc: Global, text: &[u8]) -> Result<RawProgram, Refusal<'a>>
    requires { length text.now ≤ PROGRAM_LIMIT }
    ensures answer { IsAnswer (RawOf text.now) (viewed raw_data result) }
    ensures limits { IfOk result (λ raw. IsWritableRaw (raw_data raw)) }
{
    match read_ops(alloc, text) {
        Ok(raw) => Ok(raw),
        Err(AsmFault::Refused { line, kind }) => Err(Refusal::Asm { line, kind }),
        Err(AsmFault::NoMemory) => Err(Refusal::NoMemory),
    }
}

/// The raw program in the file of this name. Its text is let go.
fn raw_in<'a, F: Shelf>(
    alloc: Global,
    shelf: &mut F,
    name: &'a str,
) -> Result<RawProgram, Refusal<'a>>
    requires { NoneIsOut (F.told shelf.old) }
    ensures visits { Visits F.told F.faults shelf.old shelf.new (λ told. RawIn told name.now) (viewed raw_data result) }
    ensures limits { IfOk result (λ raw. IsWritableRaw (raw_data raw)) }
{
    let text = file_in(alloc, shelf, name, PROGRAM_LIMIT)?;
    raw_of(alloc, text.as_slice())
}

/// The raw program on the machine.
fn loaded<'a>(alloc: Global, machine: Machine, raw: RawProgram) -> Result<Program, Refusal<'a>>
    requires { IsWritableRaw (raw_data raw) }
    ensures { IsAnswer (LoadedOn machine (raw_data raw)) result }
{
    match load(alloc, machine, raw) {
        Ok(program) => Ok(program),
        Err(LoadFault::NoMemory) => Err(Refusal::NoMemory),
        Err(fault) => Err(Refusal::Load { fault }),
    }
}

/// The program in the file of this name, on the machine.
fn program_in<'a, F: Shelf>(
    alloc: Global,
    shelf: &mut F,
    machine: Machine,
    name: &'a str,
) -> Result<Program, Refusal<'a>>
    requires { NoneIsOut (F.told shelf.old) }
    ensures { Visits F.told F.faults shelf.old shelf.new (λ told. ProgramIn told machine name.now) result }
{
    let raw = raw_in(alloc, shelf, name)?;
    loaded(alloc, machine, raw)
}

/// The program in the file of this name, on the machine that the word names.
pub fn loaded_in<'a, F: Shelf>(
    alloc: Global,
    shelf: &mut F,
    word: MachineWord<'a>,
    name: &'a str,
) -> Result<Program, Refusal<'a>>
    requires inside { NoneIsOut (F.told shelf.old) }
    requires capacity { HasCapacity (machine_asked word) }
    ensures { Visits F.told F.faults shelf.old shelf.new (λ told. LoadedIn told (machine_asked word.entry) name.now) result }
{
    let machine = machine_in(alloc, shelf, word)?;
    program_in(alloc, shelf, machine, name)
}

/// Passes where the program is the same as the circuit.
fn same_as<'a>(alloc: Global, circuit: &Circuit, program: &Program) -> Result<(), Refusal<'a>>
    ensures { IsAnswer (SameAs circuit.now program.now) result }
{
    match compare(alloc, circuit, program) {
        Ok(Verdict::Same) => Ok(()),
        Ok(verdict) => Err(Refusal::NotSame { verdict }),
        Err(_) => Err(Refusal::NoMemory),
    }
}

/// The program in the one file, on the machine that the word names, where it is the same as the circuit in the
/// other.
pub fn checked_in<'a, F: Shelf>(
    alloc: Global,
    shelf: &mut F,
    word: MachineWord<'a>,
    circuit: &'a str,
    program: &'a str,
) -> Result<Program, Refusal<'a>>
    requires inside { NoneIsOut (F.told shelf.old) }
    requires capacity { HasCapacity (machine_asked word) }
    ensures { Visits F.told F.faults shelf.old shelf.new (λ told. CheckedIn told (machine_asked word.entry) circuit.now program.now) result }
{
    let machine = machine_in(alloc, shelf, word)?;
    let circuit = circuit_in(alloc, shelf, circuit)?;
    let program = program_in(alloc, shelf, machine, program)?;
    same_as(alloc, &circuit, &program)?;
    Ok(program)
}
