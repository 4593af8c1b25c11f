//! Compiles the circuits of a script for a line of six traps of three ions each, does events on boards of two
//! workers, and prints what each board answers. Empty lines part the script's sections. The first line of a
//! section is a circuit's statements, and further lines are
//!
//! - `begin W K`, `reach W K R`, `give W K R`: worker W, operation K, and a resource, as `T0`, `S0`, `J0` or `b0`
//! - `least`: the least operation that is not finished
//! - `enabled K`: whether operation K is enabled
//! - `every interleaving`: in which orders operations commit, in how many histories to the program's end
//!
//! Any other line is printed as it stands.
#![tactic(auto)]

ghost use Rattle.rows_history.specs.Rows.{IsOfTwo};

mod asking;
mod cells;
mod fault;
mod histories;

use asking::{Ask, asked};
use cells::leaves_the_same;
use claim_core::Board;
use compiler::compile;
use fault::Fault;
use histories::{WORKERS, answer, orders};
use qasm_reader::read;
use qccd_base::Mode;
use qccd_machine::{Preset, preset_machine};
use qccd_program::Program;
use std::alloc::Global;
use std::io::{Read, Write};

/// What stands before a circuit's statements.
const HEAD: &str = "OPENQASM 2.0;include \"qelib1.inc\";";

/// The most bytes of a circuit.
const LIMIT: usize = 16777216;

/// The program of the circuit with these statements.
fn program_of(alloc: Global, statements: &str) -> Result<Program, Fault> {
    let mut text = String::from_str(alloc, HEAD)?;
    text.push_str(statements)?;
    if text.len() > LIMIT {
        return Err(Fault::Circuit);
    }
    let Ok(circuit) = read(alloc, text.as_bytes()) else {
        return Err(Fault::Circuit);
    };
    let machine = preset_machine(alloc, Preset::L6, 3)?;
    match compile(alloc, &circuit, machine, Mode::IonSwap) {
        Ok(program) => Ok(program),
        Err(_) => Err(Fault::Circuit),
    }
}

/// Prints each order in which operations commit, in how many histories, and whether these leave the cells of the
/// run in order.
fn show_orders<W: Write>(
    alloc: Global,
    statements: &str,
    program: &Program,
    shown: &mut W,
) -> Result<(), Fault> {
    for order in orders(alloc, program)? {
        let again = program_of(alloc, statements)?;
        let same = if leaves_the_same(alloc, again, program, order.ops.as_slice())? {
            "the cells of the run in order"
        } else {
            "other cells"
        };
        let (ops, count) = (order.ops.as_slice(), order.histories);
        writeln!(shown, "{count} histories commit {ops:?} and leave {same}")?;
    }
    Ok(())
}

/// Prints a line of a section and the answer to it.
fn show_line<W: Write>(
    alloc: Global,
    statements: &str,
    program: &Program,
    board: &mut Board,
    line: &str,
    shown: &mut W,
) -> Result<(), Fault>
    requires { IsOfTwo program.now board.old }
    ensures { IsOfTwo program.now board.new }
{
    match asked(line) {
        Some(Ask::Act(event)) => match answer(program, board, event) {
            Some(Ok(())) => writeln!(shown, "{line}: Ok")?,
            Some(Err(fault)) => writeln!(shown, "{line}: {fault:?}")?,
            None => writeln!(shown, "{line}: not there")?,
        },
        Some(Ask::Least) => {
            let least = board.least_unfinished(program);
            writeln!(shown, "{line}: {least:?}")?;
        }
        Some(Ask::Enabled(op)) => {
            if (op as usize) < program.ops().len() {
                let enabled = board.is_enabled(program, op);
                writeln!(shown, "{line}: {enabled}")?;
            }
        }
        Some(Ask::Interleavings) => {
            writeln!(shown, "{line}")?;
            show_orders(alloc, statements, program, shown)?;
        }
        None => writeln!(shown, "{line}")?,
    }
    Ok(())
}

/// Prints the lines of a section and the answers to them.
fn show_lines<W: Write>(
    alloc: Global,
    statements: &str,
    program: &Program,
    board: &mut Board,
    lines: &str,
    shown: &mut W,
) -> Result<(), Fault>
    requires { IsOfTwo program.now board.old }
{
    for line in lines.lines() {
        show_line(alloc, statements, program, board, line, shown)?;
    }
    Ok(())
}

/// Prints a section: a circuit's statements, and what is asked of its program.
fn show_section<W: Write>(alloc: Global, section: &str, shown: &mut W) -> Result<(), Fault> {
    let (statements, lines) = section.split_once('\n').unwrap_or((section, ""));
    writeln!(shown, "{statements}")?;
    let program = program_of(alloc, statements)?;
    let mut board = Board::of(alloc, &program, WORKERS)?;
    show_lines(alloc, statements, &program, &mut board, lines, shown)
}

fn main(rt: HostRuntime) -> Result<(), Fault> {
    let mut script = String::new(rt.alloc());
    rt.stdin().read_to_string(&mut script)?;
    let mut shown = rt.stdout();
    for (i, section) in script.as_str().split("\n\n").enumerate() {
        if i > 0 {
            writeln!(shown)?;
        }
        show_section(rt.alloc(), section, &mut shown)?;
    }
    Ok(())
}
