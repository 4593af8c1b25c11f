//! What a command writes at its end, gathered in large pieces.

ghost use Rattle.std.specs.Prelude.{◌≡◌, IfErr, codes};
ghost use Rattle.qccd_io.specs.Sends.{Sends};
ghost use Rattle.qccd_program.specs.AllCells.{AtEnd};
ghost use Rattle.transport_asm.specs.ProgramText.{program_text};
ghost use Rattle.tracer.specs.Report.{report_text};
ghost use Rattle.tracer.specs.Summary.{summary_text};
ghost use Rattle.qccd_messages.specs.declared.refusal.Refusal.TheVariants.{Write};
ghost use Rattle.qccd_top.specs.Done.{Writes};

use op_cells::Cells;
use qccd_io::{Buffer, Buffered, Failed, Sink, send};
use qccd_messages::Refusal;
use qccd_program::Program;
use std::alloc::Global;
use tracer::ReportFault;
use transport_asm::write_program;

/// Writes the report of a program, from its cells at the end.
#[tactic(auto, using(qccd_io::proofs::Appended::buffers))]
pub fn write_report<'a, O: Sink>(
    alloc: Global,
    program: &Program,
    cells: &Cells,
    out: &mut O,
) -> Result<(), Refusal<'a>>
    requires { AtEnd program.now cells.now }
    ensures { Writes O.taken O.faults out.old out.new (report_text program.now) result }
{
    let Ok(mut buffer) = Buffer::of(alloc) else {
        return Err(Refusal::NoMemory);
    };
    let mut buffered = Buffered::of(&mut buffer, out);
    match tracer::write_report(alloc, program, cells, &mut buffered) {
        Err(ReportFault::Write) => Err(Refusal::Write),
        Err(ReportFault::NoMemory) => Err(Refusal::NoMemory),
        Ok(()) => finish(buffered),
    }
}

/// Writes the summary of the program of a rehearsal, from its cells at the end.
#[tactic(auto, using(qccd_io::proofs::Appended::buffers))]
pub fn write_summary<'a, O: Sink>(
    alloc: Global,
    program: &Program,
    cells: &Cells,
    number: u32,
    items: u32,
    out: &mut O,
) -> Result<(), Refusal<'a>>
    requires { AtEnd program.now cells.now }
    ensures { Writes O.taken O.faults out.old out.new (summary_text program.now number items) result }
{
    let Ok(mut buffer) = Buffer::of(alloc) else {
        return Err(Refusal::NoMemory);
    };
    let mut buffered = Buffered::of(&mut buffer, out);
    match tracer::write_summary(program, cells, number, items, &mut buffered) {
        Err(Failed) => Err(Refusal::Write),
        Ok(()) => finish(buffered),
    }
}

/// Writes the text of the program.
#[tactic(auto, using(qccd_io::proofs::Appended::buffers))]
pub fn write_text<'a, O: Sink>(
    alloc: Global,
    program: &Program,
    out: &mut O,
) -> Result<(), Refusal<'a>>
    ensures { Writes O.taken O.faults out.old out.new (program_text program.now) result }
{
    let Ok(mut buffer) = Buffer::of(alloc) else {
        return Err(Refusal::NoMemory);
    };
    let mut buffered = Buffered::of(&mut buffer, out);
    match write_program(program, &mut buffered) {
        Err(Failed) => Err(Refusal::Write),
        Ok(()) => finish(buffered),
    }
}

/// Writes that a program is the same as a circuit.
pub fn write_same<'a, O: Sink>(out: &mut O) -> Result<(), Refusal<'a>>
    ensures { Writes O.taken O.faults out.old out.new (codes "same\n") result }
{
    match send(out, b"same\n") {
        Err(Failed) => Err(Refusal::Write),
        Ok(()) => Ok(()),
    }
}

/// Hands on what waits in the buffer, at the end of its use.
fn finish<'a, O: Sink>(buffered: Buffered<'_, O>) -> Result<(), Refusal<'a>>
    ensures sends { Sends O.taken O.faults O.behind buffered.entry.sink.now buffered.exit.0.now result buffered.entry.buffer.now }
    ensures fault { IfErr result (λ r. r ≡ Write) }
{
    match buffered.finish() {
        Err(Failed) => Err(Refusal::Write),
        Ok(()) => Ok(()),
    }
}
