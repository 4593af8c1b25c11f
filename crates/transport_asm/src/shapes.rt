//! The words of operations that are no items and no fences.

ghost use Rattle.std.specs.Prelude.{◌≡◌, ◌<◌, ℕ, IfOk, take, option_copied};
ghost use Rattle.qccd_base.specs.Names.{trap, segment};
ghost use Rattle.transport_asm.specs.Lines.{words_of};
ghost use Rattle.transport_asm.specs.Cursor.{words_left, size_left, Gives};
ghost use Rattle.op_text.specs.Shapes.{read_one};
ghost use Rattle.op_text.specs.Slots.{trap_slot, segment_slot, junction_slot, end_slot};
ghost use Rattle.op_text.specs.Operations.{position_slot, split_shape, move_shape, enter_shape, leave_shape, merge_shape, rot_shape, gswap_shape, op_rows, read_row};

use crate::words::{is, lettered, number, word};
use op_table::OpKind;
use op_text::AsmKind;
use qccd_base::{End, JuncId, SegId, TrapId};

/// The trap that the next word names, and what is left behind it.
pub fn trap_at(words: Option<&[u8]>) -> Result<(TrapId, Option<&[u8]>), AsmKind>
    ensures exact { Gives (λ x. (x.0, words_left (option_copied x.1))) result (read_one trap_slot (words_left (option_copied words.entry))) }
    ensures shorter { IfOk result (λ x. size_left (option_copied x.1) < size_left (option_copied words.entry)) }
{
    let (word, rest) = word(words)?;
    let number = lettered(word, b'T', 255)?;
    Ok((TrapId(number as u8), rest))
}

fn segment_at(words: Option<&[u8]>) -> Result<(SegId, Option<&[u8]>), AsmKind>
    ensures { Gives (λ x. (x.0, words_left (option_copied x.1))) result (read_one segment_slot (words_left (option_copied words.entry))) }
{
    let (word, rest) = word(words)?;
    let number = lettered(word, b'S', 255)?;
    Ok((SegId(number as u8), rest))
}

fn end_at(words: Option<&[u8]>) -> Result<(End, Option<&[u8]>), AsmKind>
    ensures { Gives (λ x. (x.0, words_left (option_copied x.1))) result (read_one end_slot (words_left (option_copied words.entry))) }
{
    let (word, rest) = word(words)?;
    if is(word, b"left") {
        return Ok((End::Left, rest));
    }
    if is(word, b"right") {
        return Ok((End::Right, rest));
    }
    Err(AsmKind::Word)
}

fn position_at(words: Option<&[u8]>) -> Result<(u8, Option<&[u8]>), AsmKind>
    ensures { Gives (λ x. (x.0, words_left (option_copied x.1))) result (read_one position_slot (words_left (option_copied words.entry))) }
{
    let (word, rest) = word(words)?;
    let number = number(word, 255)?;
    Ok((number as u8, rest))
}

fn split_at(words: Option<&[u8]>) -> Result<((TrapId, (End, SegId)), Option<&[u8]>), AsmKind>
    ensures { Gives (λ x. (x.0, words_left (option_copied x.1))) result (split_shape.read (words_left (option_copied words.entry))) }
{
    let (trap, rest) = trap_at(words)?;
    let (end, rest) = end_at(rest)?;
    let (seg, rest) = segment_at(rest)?;
    Ok(((trap, (end, seg)), rest))
}

fn rot_at(words: Option<&[u8]>) -> Result<((TrapId, u8), Option<&[u8]>), AsmKind>
    ensures { Gives (λ x. (x.0, words_left (option_copied x.1))) result (rot_shape.read (words_left (option_copied words.entry))) }
{
    let (trap, rest) = trap_at(words)?;
    let (at, rest) = position_at(rest)?;
    Ok(((trap, at), rest))
}

fn gswap_at(words: Option<&[u8]>) -> Result<((TrapId, (u8, u8)), Option<&[u8]>), AsmKind>
    ensures { Gives (λ x. (x.0, words_left (option_copied x.1))) result (gswap_shape.read (words_left (option_copied words.entry))) }
{
    let (trap, rest) = trap_at(words)?;
    let (low, rest) = position_at(rest)?;
    let (high, rest) = position_at(rest)?;
    Ok(((trap, (low, high)), rest))
}

fn move_at(words: Option<&[u8]>) -> Result<(SegId, Option<&[u8]>), AsmKind>
    ensures { Gives (λ x. (x.0, words_left (option_copied x.1))) result (move_shape.read (words_left (option_copied words.entry))) }
{
    segment_at(words)
}

fn junction_at(words: Option<&[u8]>) -> Result<(JuncId, Option<&[u8]>), AsmKind>
    ensures { Gives (λ x. (x.0, words_left (option_copied x.1))) result (read_one junction_slot (words_left (option_copied words.entry))) }
{
    let (word, rest) = word(words)?;
    let number = lettered(word, b'J', 255)?;
    Ok((JuncId(number as u8), rest))
}

fn enter_at(words: Option<&[u8]>) -> Result<((SegId, JuncId), Option<&[u8]>), AsmKind>
    ensures { Gives (λ x. (x.0, words_left (option_copied x.1))) result (enter_shape.read (words_left (option_copied words.entry))) }
{
    let (seg, rest) = segment_at(words)?;
    let (junc, rest) = junction_at(rest)?;
    Ok(((seg, junc), rest))
}

fn leave_at(words: Option<&[u8]>) -> Result<((JuncId, SegId), Option<&[u8]>), AsmKind>
    ensures { Gives (λ x. (x.0, words_left (option_copied x.1))) result (leave_shape.read (words_left (option_copied words.entry))) }
{
    let (junc, rest) = junction_at(words)?;
    let (seg, rest) = segment_at(rest)?;
    Ok(((junc, seg), rest))
}

fn merge_at(words: Option<&[u8]>) -> Result<((SegId, (TrapId, End)), Option<&[u8]>), AsmKind>
    ensures { Gives (λ x. (x.0, words_left (option_copied x.1))) result (merge_shape.read (words_left (option_copied words.entry))) }
{
    let (seg, rest) = segment_at(words)?;
    let (trap, rest) = trap_at(rest)?;
    let (end, rest) = end_at(rest)?;
    Ok(((seg, (trap, end)), rest))
}

/// An operation of these names.
pub fn plain_named<'a>(
    name: &[u8],
    words: Option<&'a [u8]>,
) -> Result<(OpKind, Option<&'a [u8]>), AsmKind>
    ensures { Gives (λ x. (x.0, words_left (option_copied x.1))) result (read_row (take 7 op_rows) name.now (words_left (option_copied words.entry))) }
{
    if is(name, b"split") {
        let ((trap, (end, seg)), rest) = split_at(words)?;
        return Ok((OpKind::Split { trap, end, seg }, rest));
    }
    if is(name, b"move") {
        let (seg, rest) = move_at(words)?;
        return Ok((OpKind::Move { seg }, rest));
    }
    if is(name, b"enter") {
        let ((seg, junc), rest) = enter_at(words)?;
        return Ok((OpKind::Enter { seg, junc }, rest));
    }
    if is(name, b"leave") {
        let ((junc, seg), rest) = leave_at(words)?;
        return Ok((OpKind::Leave { junc, seg }, rest));
    }
    if is(name, b"merge") {
        let ((seg, (trap, end)), rest) = merge_at(words)?;
        return Ok((OpKind::Merge { seg, trap, end }, rest));
    }
    if is(name, b"rot") {
        let ((trap, at), rest) = rot_at(words)?;
        return Ok((OpKind::Rot { trap, at }, rest));
    }
    if is(name, b"gswap") {
        let ((trap, (low, high)), rest) = gswap_at(words)?;
        return Ok((OpKind::GSwap { trap, low, high }, rest));
    }
    Err(AsmKind::Word)
}
