//! Programs, sent as their texts.

ghost use Rattle.std.specs.Prelude.{◌≡◌, ◌++◌, ℕ, codes, decimal, flat_map, length};
ghost use Rattle.qccd_io.specs.Sends.{Sends};
ghost use Rattle.op_text.specs.OpText.{next_word};
ghost use Rattle.transport_asm.specs.ProgramText.{program_text, counts_text, head_text, traps_head, ions_text, chain_text, ops_head, op_line_text, numbered_texts, front_text, back_text};

use op_table::Op;
use op_text::{put_op, write_op};
use qccd_base::{Ion, Mode, TrapId};
use qccd_io::{Failed, Piece, Sink, send, send_labelled};
use qccd_program::Program;

// The first line, and that of the mode where there is one.
fn send_head<S: Sink>(sink: &mut S, mode: Option<Mode>) -> Result<(), Failed>
    ensures { Sends S.taken S.faults S.behind sink.old sink.new result (head_text mode) }
{
    match mode {
        None => send(sink, b"QCCD 1\n"),
        Some(Mode::IonSwap) => send(sink, b"QCCD 2\nmode ion\n"),
        Some(Mode::GateSwap) => send(sink, b"QCCD 2\nmode gate\n"),
    }
}

fn send_qubit_count<S: Sink>(sink: &mut S, qubits: u16) -> Result<(), Failed>
    ensures { Sends S.taken S.faults S.behind sink.old sink.new result (codes "qubits " ++ decimal qubits) }
{
    send_labelled(sink, b"qubits ", u64::from(qubits))
}

fn send_bit_count<S: Sink>(sink: &mut S, bits: u16) -> Result<(), Failed>
    ensures { Sends S.taken S.faults S.behind sink.old sink.new result (codes "\nbits " ++ decimal bits) }
{
    send_labelled(sink, b"\nbits ", u64::from(bits))
}

// The numbers of qubits and bits.
fn send_counts<S: Sink>(sink: &mut S, qubits: u16, bits: u16) -> Result<(), Failed>
    ensures { Sends S.taken S.faults S.behind sink.old sink.new result (counts_text qubits bits) }
{
    send_qubit_count(sink, qubits)?;
    send_bit_count(sink, bits)
}

// The end of that line, and the line of the number of traps.
fn send_traps_head<S: Sink>(sink: &mut S, traps: u8) -> Result<(), Failed>
    ensures { Sends S.taken S.faults S.behind sink.old sink.new result (traps_head traps) }
{
    let mut piece = Piece::new();
    piece.put(b"\n");
    piece.put_labelled(b"\ntraps ", u64::from(traps));
    send(sink, piece.as_slice())
}

fn send_ion<S: Sink>(sink: &mut S, ion: Ion) -> Result<(), Failed>
    ensures { Sends S.taken S.faults S.behind sink.old sink.new result (next_word (decimal ion.0)) }
{
    send_labelled(sink, b" ", u64::from(ion.0))
}

fn send_ions<S: Sink>(sink: &mut S, ions: &[Ion]) -> Result<(), Failed>
    ensures { Sends S.taken S.faults S.behind sink.old sink.new result (ions_text ions.now) }
{
    for ion in ions {
        send_ion(sink, *ion)?;
    }
    Ok(())
}

fn send_trap<S: Sink>(sink: &mut S, trap: u8) -> Result<(), Failed>
    ensures { Sends S.taken S.faults S.behind sink.old sink.new result (codes "T" ++ decimal trap) }
{
    send_labelled(sink, b"T", u64::from(trap))
}

// The line of a trap's chain.
fn send_chain<S: Sink>(sink: &mut S, trap: u8, ions: &[Ion]) -> Result<(), Failed>
    ensures { Sends S.taken S.faults S.behind sink.old sink.new result (chain_text trap ions.now) }
{
    send_trap(sink, trap)?;
    send_ions(sink, ions)?;
    send(sink, b"\n")
}

// The lines of all chains.
fn send_chains<S: Sink>(sink: &mut S, program: &Program) -> Result<(), Failed>
    ensures { Sends S.taken S.faults S.behind sink.old sink.new result (numbered_texts chain_text 0 program.now.start) }
{
    // There are as many chains as traps, as the contract of the operations tells.
    let _ops = program.ops();
    let traps = program.machine().traps();
    for trap in 0..traps {
        send_chain(sink, trap, program.start(TrapId(trap)))?;
    }
    Ok(())
}

// The line of the number of operations.
fn send_ops_head<S: Sink>(sink: &mut S, ops: u64) -> Result<(), Failed>
    ensures { Sends S.taken S.faults S.behind sink.old sink.new result (ops_head ops) }
{
    let mut piece = Piece::new();
    piece.put(b"\n");
    piece.put_labelled(b"ops ", ops);
    send(sink, piece.as_slice())
}

// The number of an operation, in front of its text.
fn send_op_number<S: Sink>(sink: &mut S, number: u64) -> Result<(), Failed>
    ensures { Sends S.taken S.faults S.behind sink.old sink.new result (decimal number ++ codes " ") }
{
    let mut piece = Piece::new();
    piece.put(b" ");
    piece.put_number(number);
    send(sink, piece.as_slice())
}

// The line of an operation that has no short text.
fn send_long_op<S: Sink>(sink: &mut S, number: u64, op: &Op) -> Result<(), Failed>
    ensures { Sends S.taken S.faults S.behind sink.old sink.new result (op_line_text number op.now) }
{
    send_op_number(sink, number)?;
    write_op(op, sink)?;
    send(sink, b"\n")
}

// The line of an operation, put together in the piece where it is short.
fn send_op<S: Sink>(sink: &mut S, piece: &mut Piece, number: u64, op: &Op) -> Result<(), Failed>
    ensures { Sends S.taken S.faults S.behind sink.old sink.new result (op_line_text number op.now) }
{
    piece.clear();
    piece.put(b"\n");
    if !put_op(piece, op) {
        return send_long_op(sink, number, op);
    }
    piece.put(b" ");
    piece.put_number(number);
    send(sink, piece.as_slice())
}

// The lines of all operations.
fn send_ops<S: Sink>(sink: &mut S, ops: &[Op]) -> Result<(), Failed>
    ensures { Sends S.taken S.faults S.behind sink.old sink.new result (numbered_texts op_line_text 0 ops.now) }
{
    // One piece serves for all lines.
    let mut piece = Piece::new();
    for (number, op) in ops.iter().enumerate() {
        send_op(sink, &mut piece, number as u64, op)?;
    }
    Ok(())
}

// The numbers and the chains.
fn send_front<S: Sink>(sink: &mut S, program: &Program) -> Result<(), Failed>
    ensures { Sends S.taken S.faults S.behind sink.old sink.new result (front_text program.now) }
{
    let _ops = program.ops();
    send_head(sink, program.mode())?;
    send_counts(sink, program.qubits(), program.bits())?;
    send_traps_head(sink, program.machine().traps())?;
    send_chains(sink, program)
}

// The operations, and the last line.
fn send_back<S: Sink>(sink: &mut S, ops: &[Op]) -> Result<(), Failed>
    ensures { Sends S.taken S.faults S.behind sink.old sink.new result (back_text ops.now) }
{
    send_ops_head(sink, ops.len() as u64)?;
    send_ops(sink, ops)?;
    send(sink, b"end\n")
}

/// Appends the text of the program, line by line. Where it fails, a prefix of the text was appended and
/// the count of faults rose. It takes no memory.
pub fn write_program<S: Sink>(program: &Program, sink: &mut S) -> Result<(), Failed>
    ensures { Sends S.taken S.faults S.behind sink.old sink.new result (program_text program.now) }
{
    send_front(sink, program)?;
    send_back(sink, program.ops())
}
