//! Operations, sent as their texts.

ghost use Rattle.std.specs.Prelude.{◌≡◌, ◌∷◌, ◌++◌, Some, codes, false, flat_map, length, zip, decimal};
ghost use Rattle.qccd_io.specs.Sends.{Sends};
ghost use Rattle.op_table.specs.declared.kinds.OpKind.TheVariants as op;
ghost use Rattle.op_text.specs.OpText.{op_text, is_short, angles_text, cond_text, operand_text, trap_text, qubit_text, bit_text, next_word};

use crate::pieces::{put_op, put_operand};
use op_table::{Op, OpKind};
use qccd_base::{Bit, Qubit, TrapId, number_text, wide_text};
use qccd_circuit::{Angle, Cond, Item};
use qccd_io::{Failed, Piece, Sink, send, send_all, send_labelled};

// How many bytes a name has at most.
const LONGEST_NAME: usize = 64;

fn send_operand<S: Sink>(sink: &mut S, qubit: Qubit, at: u8) -> Result<(), Failed>
    ensures { Sends S.taken S.faults S.behind sink.old sink.new result (next_word (operand_text (qubit, at))) }
{
    let mut piece = Piece::new();
    put_operand(&mut piece, qubit, at);
    send(sink, piece.as_slice())
}

// The trap of an item and its qubits, each with its position: in one piece where they are one or two.
fn send_place<S: Sink>(
    sink: &mut S,
    trap: TrapId,
    qubits: &[Qubit],
    at: &[u8],
) -> Result<(), Failed>
    requires { length at.now ≡ length qubits.now }
    ensures { Sends S.taken S.faults S.behind sink.old sink.new result (next_word (trap_text trap) ++ flat_map (λ operand. next_word (operand_text operand)) (zip qubits.now at.now)) }
{
    match (qubits, at) {
        ([qubit], [place]) => send_place_of_one(sink, trap, *qubit, *place),
        ([first, second], [place, other]) => {
            send_place_of_two(sink, trap, (*first, *place), (*second, *other))
        }
        _ => send_place_of_many(sink, trap, qubits, at),
    }
}

fn send_place_of_many<S: Sink>(
    sink: &mut S,
    trap: TrapId,
    qubits: &[Qubit],
    at: &[u8],
) -> Result<(), Failed>
    requires { length at.now ≡ length qubits.now }
    ensures { Sends S.taken S.faults S.behind sink.old sink.new result (next_word (trap_text trap) ++ flat_map (λ operand. next_word (operand_text operand)) (zip qubits.now at.now)) }
{
    send_trap(sink, trap)?;
    send_operands(sink, qubits, at)
}

// A trap and the qubit of an item in it.
fn send_place_of_one<S: Sink>(
    sink: &mut S,
    trap: TrapId,
    qubit: Qubit,
    at: u8,
) -> Result<(), Failed>
    ensures { Sends S.taken S.faults S.behind sink.old sink.new result (next_word (trap_text trap) ++ next_word (operand_text (qubit, at))) }
{
    let mut piece = Piece::new();
    put_operand(&mut piece, qubit, at);
    piece.put_labelled(b" T", u64::from(trap.0));
    send(sink, piece.as_slice())
}

// A trap and the two qubits of an item in it.
fn send_place_of_two<S: Sink>(
    sink: &mut S,
    trap: TrapId,
    first: (Qubit, u8),
    second: (Qubit, u8),
) -> Result<(), Failed>
    ensures { Sends S.taken S.faults S.behind sink.old sink.new result (next_word (trap_text trap) ++ next_word (operand_text first) ++ next_word (operand_text second)) }
{
    let mut piece = Piece::new();
    put_operand(&mut piece, second.0, second.1);
    put_operand(&mut piece, first.0, first.1);
    piece.put_labelled(b" T", u64::from(trap.0));
    send(sink, piece.as_slice())
}

// The qubits of an item, each with its position.
fn send_operands<S: Sink>(sink: &mut S, qubits: &[Qubit], at: &[u8]) -> Result<(), Failed>
    requires { length at.now ≡ length qubits.now }
    ensures { Sends S.taken S.faults S.behind sink.old sink.new result (flat_map (λ operand. next_word (operand_text operand)) (zip qubits.now at.now)) }
{
    for i in 0..qubits.len() {
        send_operand(sink, qubits[i], at[i])?;
    }
    Ok(())
}

fn send_bit<S: Sink>(sink: &mut S, bit: Bit) -> Result<(), Failed>
    ensures { Sends S.taken S.faults S.behind sink.old sink.new result (next_word (bit_text bit)) }
{
    send_labelled(sink, b" b", u64::from(bit.0))
}

fn send_bits<S: Sink>(sink: &mut S, bits: &[Bit]) -> Result<(), Failed>
    ensures { Sends S.taken S.faults S.behind sink.old sink.new result (flat_map (λ b. next_word (bit_text b)) bits.now) }
{
    for bit in bits {
        send_bit(sink, *bit)?;
    }
    Ok(())
}

fn send_trap<S: Sink>(sink: &mut S, trap: TrapId) -> Result<(), Failed>
    ensures { Sends S.taken S.faults S.behind sink.old sink.new result (next_word (trap_text trap)) }
{
    send_labelled(sink, b" T", u64::from(trap.0))
}

fn send_traps<S: Sink>(sink: &mut S, traps: &[TrapId]) -> Result<(), Failed>
    ensures { Sends S.taken S.faults S.behind sink.old sink.new result (flat_map (λ t. next_word (trap_text t)) traps.now) }
{
    for trap in traps {
        send_trap(sink, *trap)?;
    }
    Ok(())
}

fn send_qubit<S: Sink>(sink: &mut S, qubit: Qubit) -> Result<(), Failed>
    ensures { Sends S.taken S.faults S.behind sink.old sink.new result (next_word (qubit_text qubit)) }
{
    send_labelled(sink, b" q", u64::from(qubit.0))
}

fn send_qubits<S: Sink>(sink: &mut S, qubits: &[Qubit]) -> Result<(), Failed>
    ensures { Sends S.taken S.faults S.behind sink.old sink.new result (flat_map (λ q. next_word (qubit_text q)) qubits.now) }
{
    for qubit in qubits {
        send_qubit(sink, *qubit)?;
    }
    Ok(())
}

// The angles of a gate behind its name, where it has any.
fn send_angles<S: Sink>(sink: &mut S, angles: &[Angle]) -> Result<(), Failed>
    ensures { Sends S.taken S.faults S.behind sink.old sink.new result (angles_text angles.now) }
{
    match angles {
        [] => Ok(()),
        [first, rest @ ..] => send_some_angles(sink, first, rest),
    }
}

fn send_some_angles<S: Sink>(sink: &mut S, first: &Angle, rest: &[Angle]) -> Result<(), Failed>
    ensures { Sends S.taken S.faults S.behind sink.old sink.new result (angles_text (first.now ∷ rest.now)) }
{
    send_first_angle(sink, first)?;
    send_further_angles(sink, rest)?;
    send(sink, b")")
}

fn send_further_angles<S: Sink>(sink: &mut S, angles: &[Angle]) -> Result<(), Failed>
    ensures { Sends S.taken S.faults S.behind sink.old sink.new result (flat_map (λ angle. codes "," ++ angle) angles.now) }
{
    for angle in angles {
        send_angle(sink, angle)?;
    }
    Ok(())
}

fn send_first_angle<S: Sink>(sink: &mut S, angle: &Angle) -> Result<(), Failed>
    ensures { Sends S.taken S.faults S.behind sink.old sink.new result (codes "(" ++ angle.now) }
{
    send_all(sink, &[b"(", angle.as_slice()])
}

fn send_angle<S: Sink>(sink: &mut S, angle: &Angle) -> Result<(), Failed>
    ensures { Sends S.taken S.faults S.behind sink.old sink.new result (codes "," ++ angle.now) }
{
    send_all(sink, &[b",", angle.as_slice()])
}

// What stands before the angles of an item, in one piece where its name has no more bytes than names have.
fn send_name<S: Sink>(sink: &mut S, number: u32, name: &[u8]) -> Result<(), Failed>
    ensures { Sends S.taken S.faults S.behind sink.old sink.new result (codes "item " ++ decimal number ++ next_word name.now) }
{
    if name.len() > LONGEST_NAME {
        return send_long_name(sink, number, name);
    }
    let mut piece = Piece::new();
    piece.put(name);
    piece.put(b" ");
    piece.put_labelled(b"item ", u64::from(number));
    send(sink, piece.as_slice())
}

fn send_long_name<S: Sink>(sink: &mut S, number: u32, name: &[u8]) -> Result<(), Failed>
    ensures { Sends S.taken S.faults S.behind sink.old sink.new result (codes "item " ++ decimal number ++ next_word name.now) }
{
    let number = number_text(u64::from(number));
    send_all(sink, &[b"item ", number.as_bytes(), b" ", name])
}

// An item's number, and its name and angles as one word.
fn send_gate<S: Sink>(sink: &mut S, number: u32, item: &Item) -> Result<(), Failed>
    ensures { Sends S.taken S.faults S.behind sink.old sink.new result (codes "item " ++ decimal number ++ next_word (item.now.name ++ angles_text item.now.angles)) }
{
    send_name(sink, number, item.name().as_slice())?;
    send_angles(sink, item.angles().as_slice())
}

// A condition behind all else, where the item has one.
fn send_cond<S: Sink>(sink: &mut S, cond: &Option<Cond>) -> Result<(), Failed>
    ensures { Sends S.taken S.faults S.behind sink.old sink.new result (cond_text cond.now) }
{
    match cond {
        None => Ok(()),
        Some(cond) => send_some_cond(sink, *cond),
    }
}

fn send_some_cond<S: Sink>(sink: &mut S, cond: Cond) -> Result<(), Failed>
    ensures { Sends S.taken S.faults S.behind sink.old sink.new result (cond_text (Some cond)) }
{
    let value = wide_text(cond.value);
    let mut piece = Piece::new();
    piece.put(value.as_bytes());
    piece.put(b" ");
    piece.put_labelled(b" ", u64::from(cond.count));
    piece.put_labelled(b" if b", u64::from(cond.first.0));
    send(sink, piece.as_slice())
}

// What stands behind an item's qubits: the bits that it writes, and its condition.
#[tactic(auto, using(qccd_io::proofs::Appended::sends))]
fn send_end<S: Sink>(sink: &mut S, bits: &[Bit], cond: &Option<Cond>) -> Result<(), Failed>
    ensures { Sends S.taken S.faults S.behind sink.old sink.new result (flat_map (λ b. next_word (bit_text b)) bits.now ++ cond_text cond.now) }
{
    send_bits(sink, bits)?;
    send_cond(sink, cond)
}

fn send_item<S: Sink>(
    sink: &mut S,
    number: u32,
    trap: TrapId,
    item: &Item,
    at: &[u8],
) -> Result<(), Failed>
    requires { length at.now ≡ length item.now.qubits }
    ensures { Sends S.taken S.faults S.behind sink.old sink.new result (op_text (op.Item number trap item.now at.now)) }
{
    send_gate(sink, number, item)?;
    send_place(sink, trap, item.qubits().as_slice(), at)?;
    send_end(sink, item.bits().as_slice(), item.cond())
}

fn send_fence_number<S: Sink>(sink: &mut S, number: u32) -> Result<(), Failed>
    ensures { Sends S.taken S.faults S.behind sink.old sink.new result (codes "fence " ++ decimal number) }
{
    send_labelled(sink, b"fence ", u64::from(number))
}

fn send_fence<S: Sink>(
    sink: &mut S,
    number: u32,
    item: &Item,
    traps: &[TrapId],
) -> Result<(), Failed>
    ensures { Sends S.taken S.faults S.behind sink.old sink.new result (op_text (op.Fence number item.now traps.now)) }
{
    send_fence_number(sink, number)?;
    send_traps(sink, traps)?;
    send_qubits(sink, item.qubits().as_slice())
}

// The text of an operation that is not short.
fn send_long<S: Sink>(op: &Op, sink: &mut S) -> Result<(), Failed>
    requires { is_short op.now ≡ false }
    ensures { Sends S.taken S.faults S.behind sink.old sink.new result (op_text op.now) }
{
    match op.kind() {
        OpKind::Item {
            number,
            trap,
            item,
            at,
        } => send_item(sink, *number, *trap, item, at.as_slice()),
        OpKind::Fence {
            number,
            item,
            traps,
        } => send_fence(sink, *number, item, traps.as_slice()),
        _ => unreachable!(),
    }
}

/// Appends the text of the operation, with no line feed behind it. Where it fails, a prefix of the text
/// was appended and the count of faults rose. It takes no memory.
pub fn write_op<S: Sink>(op: &Op, sink: &mut S) -> Result<(), Failed>
    ensures { Sends S.taken S.faults S.behind sink.old sink.new result (op_text op.now) }
{
    let mut piece = Piece::new();
    if put_op(&mut piece, op) {
        return send(sink, piece.as_slice());
    }
    send_long(op, sink)
}
