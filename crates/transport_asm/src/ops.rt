//! Operations, read from their texts.

ghost use Rattle.std.specs.Prelude.{◌≡◌, nat_lt, option_copied};
ghost use Rattle.transport_asm.specs.Cursor.{words_left, Gives, GivesOp};
ghost use Rattle.transport_asm.specs.Lines.{words_of};
ghost use Rattle.op_text.specs.Operations.{plain_right, plain_at, op_rows, read_row, finished, read_op};

use crate::faults::OpFault;
use crate::fences::fence_op;
use crate::item_ops::item_op;
use crate::shapes::plain_named;
use crate::words::{is, is_end, word};
use op_table::{Op, OpKind, OpShelf};
use op_text::AsmKind;
use std::alloc::Global;

// Whether the positions are in order.
fn is_plain_right(op: &OpKind) -> bool
    ensures { result ≡ plain_right op.now }
{
    match op {
        OpKind::GSwap { low, high, .. } => low < high,
        OpKind::Split { .. } => true,
        OpKind::Move { .. } => true,
        OpKind::Enter { .. } => true,
        OpKind::Leave { .. } => true,
        OpKind::Merge { .. } => true,
        OpKind::Rot { .. } => true,
        OpKind::Item { .. } => true,
        OpKind::Fence { .. } => true,
    }
}

// The operation of the name that is no item and no fence.
fn plain_op(name: &[u8], words: Option<&[u8]>) -> Result<OpKind, AsmKind>
    ensures { Gives (λ op. op) result (plain_at name.now (words_left (option_copied words.entry))) }
{
    let (op, rest) = plain_named(name, words)?;
    if !is_end(rest) {
        return Err(AsmKind::Word);
    }
    if is_plain_right(&op) {
        Ok(op)
    } else {
        Err(AsmKind::Word)
    }
}

fn other_op(name: &[u8], words: Option<&[u8]>) -> Result<OpKind, OpFault>
    ensures { GivesOp (λ op. op) result (plain_at name.now (words_left (option_copied words.entry))) }
{
    let op = plain_op(name, words)?;
    Ok(op)
}

fn any_op(alloc: Global, name: &[u8], words: Option<&[u8]>) -> Result<OpKind, OpFault>
    ensures { GivesOp (λ op. op) result (finished (read_row op_rows name.now (words_left (option_copied words.entry)))) }
{
    if is(name, b"item") {
        return item_op(alloc, words);
    }
    if is(name, b"fence") {
        return fence_op(alloc, words);
    }
    other_op(name, words)
}

/// The kind of the operation that the words are.
pub fn op_kind(alloc: Global, words: Option<&[u8]>) -> Result<OpKind, OpFault>
    ensures { GivesOp (λ op. op) result (read_op (words_left (option_copied words.entry))) }
{
    let (name, rest) = word(words)?;
    any_op(alloc, name, rest)
}

/// The operation that the words are: that of the shelf, where an equal one stands there.
pub fn op_of(alloc: Global, shelf: &mut OpShelf, words: Option<&[u8]>) -> Result<Op, OpFault>
    ensures { GivesOp (λ op. op) result (read_op (words_left (option_copied words.entry))) }
{
    let kind = op_kind(alloc, words)?;
    Ok(shelf.op(alloc, kind)?)
}

/// The operation whose text the bytes are, with no line feed behind it. Refused where they are no
/// operation's text, with the kind of the first offending word.
pub fn read_op(alloc: Global, text: &[u8]) -> Result<Op, OpFault>
    ensures { GivesOp (λ op. op) result (read_op (words_of text.now)) }
{
    let kind = op_kind(alloc, Some(text))?;
    Ok(Op::of(alloc, kind)?)
}
