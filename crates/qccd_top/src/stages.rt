//! The stages of which commands are made.

ghost use Rattle.std.specs.Prelude.{◌≤◌, length};
ghost use Rattle.qccd_base.specs.declared.names.Mode.TheVariants.{IonSwap};
ghost use Rattle.qccd_io.specs.Shelf.{NoneIsOut};
ghost use Rattle.qccd_machine.specs.Preset.{preset_of};
ghost use Rattle.rehearsal.specs.Generated.{generated};
ghost use Rattle.qccd_words.specs.Words.{machine_asked, AreFew, HasCapacity};
ghost use Rattle.qccd_top.specs.declared.limits.TheConstants.{CIRCUIT_LIMIT};
ghost use Rattle.qccd_top.specs.Stage.{IsAnswer, Visits, Just, bytes_of};
ghost use Rattle.qccd_top.specs.Stages.{FileIn, MachineOf, MachineIn, CircuitOf, CircuitIn, Compiled};
ghost use Rattle.qccd_top.specs.Means.{CompiledIn, RehearsedIn};

use crate::limits::{CIRCUIT_LIMIT, MACHINE_LIMIT};
use compiler::{CompileFault, compile};
use machine_text::{TextFault, read_machine};
use qasm_reader::{QasmFault, read};
use qccd_base::Mode;
use qccd_circuit::Circuit;
use qccd_io::{FetchFault, Shelf, fetch_all};
use qccd_machine::{Machine, MachineFault, Preset, preset_machine};
use qccd_messages::Refusal;
use qccd_program::Program;
use qccd_words::MachineWord;
use rehearsal::rehearsal;
use std::alloc::Global;

/// The bytes of the file of this name, of which there are at most `limit`.
pub fn file_in<'a, F: Shelf>(
    alloc: Global,
    shelf: &mut F,
    name: &'a str,
    limit: u32,
) -> Result<Vec<u8>, Refusal<'a>>
    requires { NoneIsOut (F.told shelf.old) }
    ensures { Visits F.told F.faults shelf.old shelf.new (λ told. FileIn told name.now limit) (bytes_of result) }
{
    match fetch_all(alloc, shelf, name, limit) {
        Ok(text) => Ok(text),
        Err(FetchFault::ReadFault) => Err(Refusal::Read { name }),
        Err(FetchFault::TooLarge { limit }) => Err(Refusal::TooLarge { name, limit }),
        Err(FetchFault::NoMemory) => Err(Refusal::NoMemory),
    }
}

/// The machine that is known by this name.
fn preset<'a>(alloc: Global, which: Preset, capacity: u8) -> Result<Machine, Refusal<'a>>
    requires least { 2 ≤ capacity }
    requires most { capacity ≤ 32 }
    ensures { IsAnswer (Just (preset_of which capacity)) result }
{
    match preset_machine(alloc, which, capacity) {
        Ok(machine) => Ok(machine),
        Err(_) => Err(Refusal::NoMemory),
    }
}

/// The machine of the text.
fn machine_of<'a>(alloc: Global, text: &[u8]) -> Result<Machine, Refusal<'a>>
    ensures { IsAnswer (MachineOf text.now) result }
{
    match read_machine(alloc, text) {
        Ok(machine) => Ok(machine),
        Err(TextFault::NoMemory) => Err(Refusal::NoMemory),
        Err(fault) => Err(Refusal::Machine { fault }),
    }
}

/// The machine that the word names.
pub fn machine_in<'a, F: Shelf>(
    alloc: Global,
    shelf: &mut F,
    word: MachineWord<'a>,
) -> Result<Machine, Refusal<'a>>
    requires inside { NoneIsOut (F.told shelf.old) }
    requires capacity { HasCapacity (machine_asked word) }
    ensures { Visits F.told F.faults shelf.old shelf.new (λ told. MachineIn told (machine_asked word.entry)) result }
{
    match word {
        MachineWord::Preset(which, capacity) => preset(alloc, which, capacity),
        MachineWord::File(name) => {
            let text = file_in(alloc, shelf, name, MACHINE_LIMIT)?;
            machine_of(alloc, text.as_slice())
        }
    }
}

/// The circuit of the text.
fn circuit_of<'a>(alloc: Global, text: &[u8]) -> Result<Circuit, Refusal<'a>>
    requires { length text.now ≤ CIRCUIT_LIMIT }
    ensures { IsAnswer (CircuitOf text.now) result }
{
    match read(alloc, text) {
        Ok(circuit) => Ok(circuit),
        Err(QasmFault::Refused { at, kind }) => Err(Refusal::Circuit { at, kind }),
        Err(QasmFault::NoMemory) => Err(Refusal::NoMemory),
    }
}

/// The circuit in the file of this name.
pub fn circuit_in<'a, F: Shelf>(
    alloc: Global,
    shelf: &mut F,
    name: &'a str,
) -> Result<Circuit, Refusal<'a>>
    requires { NoneIsOut (F.told shelf.old) }
    ensures { Visits F.told F.faults shelf.old shelf.new (λ told. CircuitIn told name.now) result }
{
    let text = file_in(alloc, shelf, name, CIRCUIT_LIMIT)?;
    circuit_of(alloc, text.as_slice())
}

/// The program of the circuit on the machine.
fn compiled<'a>(
    alloc: Global,
    circuit: &Circuit,
    machine: Machine,
    mode: Mode,
) -> Result<Program, Refusal<'a>>
    ensures { IsAnswer (Compiled circuit.now machine mode) result }
{
    match compile(alloc, circuit, machine, mode) {
        Ok(program) => Ok(program),
        Err(CompileFault::Shortage { qubits, slots }) => Err(Refusal::Shortage { qubits, slots }),
        Err(CompileFault::TooLong { done, ops }) => Err(Refusal::TooLong {
            done,
            items: circuit.items().len() as u32,
            ops,
        }),
        Err(CompileFault::NoMemory) => Err(Refusal::NoMemory),
    }
}

/// The program of a circuit that is generated, on the machine.
fn rehearsed<'a>(
    alloc: Global,
    number: u32,
    qubits: u16,
    items: u32,
    machine: Machine,
) -> Result<Program, Refusal<'a>>
    requires { AreFew number qubits items }
    ensures { IsAnswer (Compiled (generated number qubits items) machine IonSwap) result }
{
    match rehearsal(alloc, number, qubits, items) {
        Ok(circuit) => compiled(alloc, &circuit, machine, Mode::IonSwap),
        Err(_) => Err(Refusal::NoMemory),
    }
}

/// The program of a circuit that is generated, for the machine that the word names.
pub fn rehearsed_in<'a, F: Shelf>(
    alloc: Global,
    shelf: &mut F,
    asked: MachineWord<'a>,
    number: u32,
    qubits: u16,
    items: u32,
) -> Result<Program, Refusal<'a>>
    requires inside { NoneIsOut (F.told shelf.old) }
    requires capacity { HasCapacity (machine_asked asked) }
    requires few { AreFew number qubits items }
    ensures { Visits F.told F.faults shelf.old shelf.new (λ told. RehearsedIn told (machine_asked asked.entry) number qubits items) result }
{
    let machine = machine_in(alloc, shelf, asked)?;
    rehearsed(alloc, number, qubits, items, machine)
}

/// The program of the circuit in the file of this name, for the machine that the word names.
pub fn compiled_in<'a, F: Shelf>(
    alloc: Global,
    shelf: &mut F,
    word: MachineWord<'a>,
    name: &'a str,
    mode: Mode,
) -> Result<Program, Refusal<'a>>
    requires inside { NoneIsOut (F.told shelf.old) }
    requires capacity { HasCapacity (machine_asked word) }
    ensures { Visits F.told F.faults shelf.old shelf.new (λ told. CompiledIn told (machine_asked word.entry) name.now mode) result }
{
    let machine = machine_in(alloc, shelf, word)?;
    let circuit = circuit_in(alloc, shelf, name)?;
    compiled(alloc, &circuit, machine, mode)
}
