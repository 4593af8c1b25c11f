//! The report of a program, sent line by line.

ghost use Rattle.std.specs.Prelude.{◌≡◌, ◌<◌, ◌≤◌, ◌++◌, IfOk, Some, codes, decimal, flat_map, length, slice_get};
ghost use Rattle.std.specs.List.{enumerate_from};
ghost use Rattle.qccd_base.specs.Line.{line};
ghost use Rattle.qccd_io.specs.Sends.{Sends};
ghost use Rattle.qccd_program.specs.AllCells.{AtEnd};
ghost use Rattle.op_text.specs.OpText.{next_word};
ghost use Rattle.tracer.specs.Counted.{Tallied};
ghost use Rattle.tracer.specs.Merge.{Merged};
ghost use Rattle.tracer.specs.Order.{ordered};
ghost use Rattle.tracer.specs.Report.{labelled, op_line, report_text, size_line, start_line};
ghost use Rattle.tracer.specs.Summary.{summary_text};
ghost use Rattle.tracer.specs.TimeOrder.{time_order};
ghost use Rattle.tracer.specs.Reports.{Reports};

use crate::counting::{count, counts_of, send_counts};
use crate::ends::{last_finish, send_ends, traps_heat};
use crate::fault::ReportFault;
use crate::merging::{Head, heads_of, take_first};
use op_cells::{Cells, Done};
use op_table::Op;
use op_text::{put_op, write_op};
use qccd_base::{Ion, TrapId};
use qccd_io::{Failed, Piece, Sink, send, send_labelled};
use qccd_program::Program;
use std::alloc::Global;

// A line of a label and a number.
fn send_total<S: Sink>(sink: &mut S, label: &[u8], n: u64) -> Result<(), Failed>
    ensures { Sends S.taken S.faults S.behind sink.old sink.new result (line (labelled label.now n)) }
{
    send_labelled(sink, label, n)?;
    send(sink, b"\n")
}

// The numbers of qubits and bits.
fn send_registers<S: Sink>(sink: &mut S, qubits: u16, bits: u16) -> Result<(), Failed>
    ensures { Sends S.taken S.faults S.behind sink.old sink.new result (labelled (codes "qubits ") qubits ++ labelled (codes " bits ") bits) }
{
    let mut piece = Piece::new();
    piece.put_labelled(b" bits ", u64::from(bits));
    piece.put_labelled(b"qubits ", u64::from(qubits));
    send(sink, piece.as_slice())
}

// The numbers of the machine's parts, and the end of their line.
fn send_parts<S: Sink>(sink: &mut S, traps: u8, segments: u8, junctions: u8) -> Result<(), Failed>
    ensures { Sends S.taken S.faults S.behind sink.old sink.new result (line (labelled (codes " traps ") traps ++ labelled (codes " segments ") segments ++ labelled (codes " junctions ") junctions)) }
{
    let mut piece = Piece::new();
    piece.put(b"\n");
    piece.put_labelled(b" junctions ", u64::from(junctions));
    piece.put_labelled(b" segments ", u64::from(segments));
    piece.put_labelled(b" traps ", u64::from(traps));
    send(sink, piece.as_slice())
}

fn send_sizes<S: Sink>(sink: &mut S, program: &Program) -> Result<(), Failed>
    ensures { Sends S.taken S.faults S.behind sink.old sink.new result (size_line program.now) }
{
    let machine = program.machine();
    send_registers(sink, program.qubits(), program.bits())?;
    send_parts(
        sink,
        machine.traps(),
        machine.segments(),
        machine.junctions(),
    )
}

fn send_ion<S: Sink>(sink: &mut S, ion: Ion) -> Result<(), Failed>
    ensures { Sends S.taken S.faults S.behind sink.old sink.new result (next_word (decimal ion.0)) }
{
    send_labelled(sink, b" ", u64::from(ion.0))
}

// The ions of a start chain, each as a further word.
fn send_ions<S: Sink>(sink: &mut S, ions: &[Ion]) -> Result<(), Failed>
    ensures { Sends S.taken S.faults S.behind sink.old sink.new result (flat_map (λ i. next_word (decimal i.0)) ions.now) }
{
    for ion in ions {
        send_ion(sink, *ion)?;
    }
    Ok(())
}

fn send_start_label<S: Sink>(sink: &mut S, t: TrapId) -> Result<(), Failed>
    ensures { Sends S.taken S.faults S.behind sink.old sink.new result (labelled (codes "start T") t.0) }
{
    send_labelled(sink, b"start T", u64::from(t.0))
}

fn send_start<S: Sink>(sink: &mut S, t: TrapId, ions: &[Ion]) -> Result<(), Failed>
    ensures { Sends S.taken S.faults S.behind sink.old sink.new result (start_line (t.0, ions.now)) }
{
    send_start_label(sink, t)?;
    send_ions(sink, ions)?;
    send(sink, b"\n")
}

fn send_starts<S: Sink>(sink: &mut S, program: &Program) -> Result<(), Failed>
    ensures { Sends S.taken S.faults S.behind sink.old sink.new result (flat_map start_line (enumerate_from 0 program.now.start)) }
{
    let _ops = program.ops();
    for t in 0..program.machine().traps() {
        send_start(sink, TrapId(t), program.start(TrapId(t)))?;
    }
    Ok(())
}

// What stands before the text of an operation, in front of a piece: its number, start and finish, and a space.
fn put_times(piece: &mut Piece, done: &Done)
    requires { 63 ≤ piece.old.room }
    ensures { piece.new.text ≡ (decimal done.now.op ++ next_word (decimal done.now.start) ++ next_word (decimal done.now.finish) ++ codes " ") ++ piece.old.text }
{
    piece.put(b" ");
    piece.put_labelled(b" ", done.finish);
    piece.put_labelled(b" ", done.start);
    piece.put_number(u64::from(done.op));
}

// The same, sent.
fn send_times<S: Sink>(sink: &mut S, done: &Done) -> Result<(), Failed>
    ensures { Sends S.taken S.faults S.behind sink.old sink.new result (decimal done.now.op ++ next_word (decimal done.now.start) ++ next_word (decimal done.now.finish) ++ codes " ") }
{
    let mut piece = Piece::new();
    put_times(&mut piece, done);
    send(sink, piece.as_slice())
}

// The line of an operation that has no short text.
fn send_long_op<S: Sink>(sink: &mut S, done: &Done, op: &Op) -> Result<(), Failed>
    ensures { Sends S.taken S.faults S.behind sink.old sink.new result (op_line (done.now.op, record { op = op.now; start = done.now.start; finish = done.now.finish })) }
{
    send_times(sink, done)?;
    write_op(op, sink)?;
    send(sink, b"\n")
}

// The line of an operation, put together in the piece where its text is short.
fn send_op<S: Sink>(sink: &mut S, piece: &mut Piece, done: &Done, op: &Op) -> Result<(), Failed>
    ensures { Sends S.taken S.faults S.behind sink.old sink.new result (op_line (done.now.op, record { op = op.now; start = done.now.start; finish = done.now.finish })) }
{
    piece.clear();
    piece.put(b"\n");
    if !put_op(piece, op) {
        return send_long_op(sink, done, op);
    }
    put_times(piece, done);
    send(sink, piece.as_slice())
}

// The operation of this number.
fn op_of(ops: &[Op], number: u32) -> &Op
    requires { number < length ops.now }
    ensures { slice_get ops.now number ≡ Some result.now }
{
    &ops[number as usize]
}

// The lines of the operations, and how many stand in each column. They are counted as they are sent, while each is
// at hand.
fn send_ops<S: Sink>(
    sink: &mut S,
    program: &Program,
    heads: &mut Vec<Head<'_>>,
) -> Result<[u64; 12], Failed>
    requires { Merged heads.old.items (ordered program.now) }
    ensures sent { Sends S.taken S.faults S.behind sink.old sink.new result (flat_map op_line (time_order program.now)) }
    ensures counted { IfOk result (λ counts. Tallied program.now.ops counts) }
{
    let ops = program.ops();
    let mut counts = [0; 12];
    // One piece serves for all lines.
    let mut piece = Piece::new();
    while let Some(done) = take_first(heads) {
        let op = op_of(ops, done.op);
        send_op(sink, &mut piece, &done, op)?;
        count(&mut counts, op);
    }
    Ok(counts)
}

// All that stands before the operations.
fn send_front<S: Sink>(sink: &mut S, program: &Program) -> Result<(), Failed>
    ensures { Sends S.taken S.faults S.behind sink.old sink.new result (line (codes "QCCD report 1") ++ size_line program.now ++ flat_map start_line (enumerate_from 0 program.now.start) ++ line (labelled (codes "ops ") (length program.now.ops))) }
{
    send(sink, b"QCCD report 1\n")?;
    send_sizes(sink, program)?;
    send_starts(sink, program)?;
    send_total(sink, b"ops ", program.ops().len() as u64)
}

// The report of a program from its cells at the end and their logs.
fn send_report<S: Sink>(
    sink: &mut S,
    program: &Program,
    cells: &Cells,
    heads: &mut Vec<Head<'_>>,
) -> Result<(), Failed>
    requires at_end { AtEnd program.now cells.now }
    requires merged { Merged heads.old.items (ordered program.now) }
    ensures { Sends S.taken S.faults S.behind sink.old sink.new result (report_text program.now) }
{
    let finish = last_finish(program, cells);
    send_front(sink, program)?;
    let counts = send_ops(sink, program, heads)?;
    send_ends(sink, program, cells)?;
    send_counts(sink, &counts)?;
    send_total(sink, b"finish ", finish)
}

// The report from the logs. Only writing can fail.
fn report_from<S: Sink>(
    sink: &mut S,
    program: &Program,
    cells: &Cells,
    heads: &mut Vec<Head<'_>>,
) -> Result<(), ReportFault>
    requires at_end { AtEnd program.now cells.now }
    requires merged { Merged heads.old.items (ordered program.now) }
    ensures { Reports S.taken S.faults S.behind sink.old sink.new result (report_text program.now) }
{
    match send_report(sink, program, cells, heads) {
        Ok(()) => Ok(()),
        Err(Failed) => Err(ReportFault::Write),
    }
}

/// Appends the report of the program, whose cells are those at its end. Refusals: `Write` where the sink failed,
/// and then a prefix of the report was appended and its count of faults rose; `NoMemory` where memory ran out,
/// and then nothing was appended: all memory is taken before the first byte.
pub fn write_report<S: Sink>(
    alloc: Global,
    program: &Program,
    cells: &Cells,
    sink: &mut S,
) -> Result<(), ReportFault>
    requires { AtEnd program.now cells.now }
    ensures { Reports S.taken S.faults S.behind sink.old sink.new result (report_text program.now) }
{
    let _ops = program.ops();
    let Ok(mut heads) = heads_of(alloc, cells.as_slice()) else {
        return Err(ReportFault::NoMemory);
    };
    report_from(sink, program, cells, &mut heads)
}

// The first line of a summary.
fn send_rehearsal<S: Sink>(
    sink: &mut S,
    number: u32,
    qubits: u16,
    items: u32,
    ops: u64,
) -> Result<(), Failed>
    ensures { Sends S.taken S.faults S.behind sink.old sink.new result (line (labelled (codes "rehearsal ") number ++ labelled (codes " qubits ") qubits ++ labelled (codes " items ") items ++ labelled (codes " ops ") ops)) }
{
    let mut piece = Piece::new();
    piece.put(b"\n");
    piece.put_labelled(b" ops ", ops);
    piece.put_labelled(b" items ", u64::from(items));
    piece.put_labelled(b" qubits ", u64::from(qubits));
    piece.put_labelled(b"rehearsal ", u64::from(number));
    send(sink, piece.as_slice())
}

/// Appends the summary of the program that a rehearsal of this number compiled from so many items; the cells are
/// those at its end. Where it fails, a prefix of the summary was appended and the count of faults rose. It takes
/// no memory.
pub fn write_summary<S: Sink>(
    program: &Program,
    cells: &Cells,
    number: u32,
    items: u32,
    sink: &mut S,
) -> Result<(), Failed>
    requires { AtEnd program.now cells.now }
    ensures { Sends S.taken S.faults S.behind sink.old sink.new result (summary_text program.now number items) }
{
    let ops = program.ops();
    let heat = traps_heat(program, cells);
    let finish = last_finish(program, cells);
    send_rehearsal(sink, number, program.qubits(), items, ops.len() as u64)?;
    send_counts(sink, &counts_of(ops))?;
    send_total(sink, b"heat ", heat)?;
    send_total(sink, b"finish ", finish)
}
