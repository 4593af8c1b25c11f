//! Operations whose texts are short, put in front of a piece.

ghost use Rattle.std.specs.Prelude.{◌≡◌, ◌≢◌, ◌+◌, ◌≤◌, ◌==◌, ◌++◌, [], codes, flat_map, length, zip, decimal, true, false, ◌&&◌, None, is_none};
ghost use Rattle.qccd_circuit.specs.declared.kinds.ItemKind.TheVariants.{Barrier};
ghost use Rattle.op_table.specs.declared.kinds.OpKind.TheVariants as op;
ghost use Rattle.op_text.specs.OpText.{op_text, is_short, item_text, end_text, operand_text, trap_text, bit_text, next_word};

use op_table::{Op, OpKind};
use qccd_base::{Bit, End, JuncId, Qubit, SegId, TrapId};
use qccd_circuit::Item;
use qccd_io::Piece;

// The word of an end.
fn end_word(end: End) -> &'static [u8]
    ensures { result.now ≡ end_text end }
{
    match end {
        End::Left => b"left",
        End::Right => b"right",
    }
}

fn put_split(piece: &mut Piece, trap: TrapId, end: End, seg: SegId)
    requires { 224 ≤ piece.old.room }
    ensures text { piece.new.text ≡ op_text (op.Split trap end seg) ++ piece.old.text }
    ensures room { piece.old.room ≤ piece.new.room + 224 }
{
    piece.put_labelled(b" S", u64::from(seg.0));
    piece.put(end_word(end));
    piece.put(b" ");
    piece.put_labelled(b"split T", u64::from(trap.0));
}

fn put_move(piece: &mut Piece, seg: SegId)
    requires { 224 ≤ piece.old.room }
    ensures text { piece.new.text ≡ op_text (op.Move seg) ++ piece.old.text }
    ensures room { piece.old.room ≤ piece.new.room + 224 }
{
    piece.put_labelled(b"move S", u64::from(seg.0));
}

fn put_enter(piece: &mut Piece, seg: SegId, junc: JuncId)
    requires { 224 ≤ piece.old.room }
    ensures text { piece.new.text ≡ op_text (op.Enter seg junc) ++ piece.old.text }
    ensures room { piece.old.room ≤ piece.new.room + 224 }
{
    piece.put_labelled(b" J", u64::from(junc.0));
    piece.put_labelled(b"enter S", u64::from(seg.0));
}

fn put_leave(piece: &mut Piece, junc: JuncId, seg: SegId)
    requires { 224 ≤ piece.old.room }
    ensures text { piece.new.text ≡ op_text (op.Leave junc seg) ++ piece.old.text }
    ensures room { piece.old.room ≤ piece.new.room + 224 }
{
    piece.put_labelled(b" S", u64::from(seg.0));
    piece.put_labelled(b"leave J", u64::from(junc.0));
}

fn put_merge(piece: &mut Piece, seg: SegId, trap: TrapId, end: End)
    requires { 224 ≤ piece.old.room }
    ensures text { piece.new.text ≡ op_text (op.Merge seg trap end) ++ piece.old.text }
    ensures room { piece.old.room ≤ piece.new.room + 224 }
{
    piece.put(end_word(end));
    piece.put(b" ");
    piece.put_labelled(b" T", u64::from(trap.0));
    piece.put_labelled(b"merge S", u64::from(seg.0));
}

fn put_rot(piece: &mut Piece, trap: TrapId, at: u8)
    requires { 224 ≤ piece.old.room }
    ensures text { piece.new.text ≡ op_text (op.Rot trap at) ++ piece.old.text }
    ensures room { piece.old.room ≤ piece.new.room + 224 }
{
    piece.put_labelled(b" ", u64::from(at));
    piece.put_labelled(b"rot T", u64::from(trap.0));
}

fn put_gswap(piece: &mut Piece, trap: TrapId, low: u8, high: u8)
    requires { 224 ≤ piece.old.room }
    ensures text { piece.new.text ≡ op_text (op.GSwap trap low high) ++ piece.old.text }
    ensures room { piece.old.room ≤ piece.new.room + 224 }
{
    piece.put_labelled(b" ", u64::from(high));
    piece.put_labelled(b" ", u64::from(low));
    piece.put_labelled(b"gswap T", u64::from(trap.0));
}

/// Puts a qubit with its position in front of a piece.
pub(crate) fn put_operand(piece: &mut Piece, qubit: Qubit, at: u8)
    requires { 43 ≤ piece.old.room }
    ensures text { piece.new.text ≡ next_word (operand_text (qubit, at)) ++ piece.old.text }
    ensures room { piece.old.room ≤ piece.new.room + 43 }
{
    piece.put_labelled(b"@", u64::from(at));
    piece.put_labelled(b" q", u64::from(qubit.0));
}

// The one or two qubits of an item, each with its position.
fn put_operands(piece: &mut Piece, qubits: &[Qubit], at: &[u8])
    requires room { 86 ≤ piece.old.room }
    requires places { length at.now ≡ length qubits.now }
    requires some { 1 ≤ length qubits.now }
    requires few { length qubits.now ≤ 2 }
    ensures text { piece.new.text ≡ flat_map (λ operand. next_word (operand_text operand)) (zip qubits.now at.now) ++ piece.old.text }
    ensures room { piece.old.room ≤ piece.new.room + 86 }
{
    if qubits.len() > 1 {
        put_operand(piece, qubits[1], at[1]);
    }
    put_operand(piece, qubits[0], at[0]);
}

// The bit of an item, where it has one.
fn put_bit(piece: &mut Piece, bits: &[Bit])
    requires room { 22 ≤ piece.old.room }
    requires few { length bits.now ≤ 1 }
    ensures text { piece.new.text ≡ flat_map (λ b. next_word (bit_text b)) bits.now ++ piece.old.text }
    ensures room { piece.old.room ≤ piece.new.room + 22 }
{
    if !bits.is_empty() {
        piece.put_labelled(b" b", u64::from(bits[0].0));
    }
}

// The number of an item, its name and its trap.
fn put_gate(piece: &mut Piece, number: u32, name: &[u8], trap: TrapId)
    requires { length name.now + 48 ≤ piece.old.room }
    ensures text { piece.new.text ≡ (codes "item " ++ decimal number ++ next_word name.now ++ next_word (trap_text trap)) ++ piece.old.text }
    ensures room { piece.old.room ≤ piece.new.room + (length name.now + 48) }
{
    piece.put_labelled(b" T", u64::from(trap.0));
    piece.put(name);
    piece.put(b" ");
    piece.put_labelled(b"item ", u64::from(number));
}

// An item with no angles and no condition.
fn put_plain_item(piece: &mut Piece, number: u32, trap: TrapId, item: &Item, at: &[u8])
    requires room { 224 ≤ piece.old.room }
    requires kind { item.now.kind ≢ Barrier }
    requires places { length at.now ≡ length item.now.qubits }
    requires plain { item.now.angles ≡ [] }
    requires unconditional { item.now.cond ≡ None }
    ensures text { piece.new.text ≡ item_text number trap item.now at.now ++ piece.old.text }
    ensures room { piece.old.room ≤ piece.new.room + 224 }
{
    let _kind = item.kind();
    put_bit(piece, item.bits().as_slice());
    put_operands(piece, item.qubits().as_slice(), at);
    put_gate(piece, number, item.name().as_slice(), trap);
}

// An item, where it has no angles and no condition, and whether it has none.
fn put_item(piece: &mut Piece, number: u32, trap: TrapId, item: &Item, at: &[u8]) -> bool
    requires room { 224 ≤ piece.old.room }
    requires kind { item.now.kind ≢ Barrier }
    requires places { length at.now ≡ length item.now.qubits }
    ensures value { result ≡ (length item.now.angles == 0 && is_none item.now.cond) }
    ensures text { result ≡ true → piece.new.text ≡ item_text number trap item.now at.now ++ piece.old.text }
    ensures room { piece.old.room ≤ piece.new.room + 224 }
    ensures long { result ≡ false → piece.new ≡ piece.old }
{
    if !item.angles().is_empty() || item.cond().is_some() {
        return false;
    }
    put_plain_item(piece, number, trap, item, at);
    true
}

/// Puts the text of the operation in front of the piece where it is short, and says whether it is. A text
/// that is not leaves the piece as it was.
pub fn put_op(piece: &mut Piece, op: &Op) -> bool
    requires { 224 ≤ piece.old.room }
    ensures value { result ≡ is_short op.now }
    ensures text { result ≡ true → piece.new.text ≡ op_text op.now ++ piece.old.text }
    ensures room { piece.old.room ≤ piece.new.room + 224 }
    ensures long { result ≡ false → piece.new ≡ piece.old }
{
    match op.kind() {
        OpKind::Split { trap, end, seg } => put_split(piece, *trap, *end, *seg),
        OpKind::Move { seg } => put_move(piece, *seg),
        OpKind::Enter { seg, junc } => put_enter(piece, *seg, *junc),
        OpKind::Leave { junc, seg } => put_leave(piece, *junc, *seg),
        OpKind::Merge { seg, trap, end } => put_merge(piece, *seg, *trap, *end),
        OpKind::Rot { trap, at } => put_rot(piece, *trap, *at),
        OpKind::GSwap { trap, low, high } => put_gswap(piece, *trap, *low, *high),
        OpKind::Item {
            number,
            trap,
            item,
            at,
        } => return put_item(piece, *number, *trap, item, at.as_slice()),
        OpKind::Fence {
            number: _,
            item: _,
            traps: _,
        } => return false,
    }
    true
}
