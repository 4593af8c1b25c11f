//! The words of items.

ghost use Rattle.std.specs.Prelude.{◌≡◌, ◌||◌, bytes_eq, codes, option_copied};
ghost use Rattle.transport_asm.specs.Cursor.{words_left, Gives};
ghost use Rattle.transport_asm.specs.Parts.{as_list, head_of, tail_of};
ghost use Rattle.op_text.specs.Shapes.{read_one};
ghost use Rattle.op_text.specs.Slots.{number_slot, greatest};
ghost use Rattle.op_text.specs.Operations.{is_last, ends_item, second_at, measured_at, tail_at, item_shape, item_at, item_op, is_right, finished};

use crate::conditions::{bit_at, condition_at};
use crate::gates::{GateWord, gate_at, operand_at};
use crate::shapes::trap_at;
use crate::words::{cut, is, is_end, number, word};
use op_text::AsmKind;
use qccd_base::{Bit, Qubit, TrapId};
use qccd_circuit::Cond;

/// What an item's line states up to its first qubit.
#[derive(Clone, Copy)]
pub struct HeadWords<'a> {
    pub number: u32,
    pub gate: GateWord<'a>,
    pub trap: TrapId,
    pub first: (Qubit, u8),
}

/// What it states behind that: a second qubit, or a bit, and a condition.
#[derive(Clone, Copy)]
pub struct TailWords {
    pub second: Option<(Qubit, u8)>,
    pub bit: Option<Bit>,
    pub cond: Option<Cond>,
}

/// The number that the next word writes, and what is left behind it.
pub fn number_at(words: Option<&[u8]>) -> Result<(u32, Option<&[u8]>), AsmKind>
    ensures { Gives (λ x. (x.0, words_left (option_copied x.1))) result (read_one (number_slot greatest) (words_left (option_copied words.entry))) }
{
    let (word, rest) = word(words)?;
    let n = number(word, 4294967295)?;
    Ok((n as u32, rest))
}

fn head_at(words: Option<&[u8]>) -> Result<(HeadWords<'_>, Option<&[u8]>), AsmKind>
    ensures { Gives (λ x. (head_of x.0, words_left (option_copied x.1))) result (item_shape.read (words_left (option_copied words.entry))) }
{
    let (number, rest) = number_at(words)?;
    let (gate, rest) = gate_at(rest)?;
    let (trap, rest) = trap_at(rest)?;
    let (first, rest) = operand_at(rest)?;
    Ok((
        HeadWords {
            number,
            gate,
            trap,
            first,
        },
        rest,
    ))
}

// The end of an item: a condition, where one follows.
fn ended(
    second: Option<(Qubit, u8)>,
    bit: Option<Bit>,
    words: Option<&[u8]>,
) -> Result<(TailWords, Option<&[u8]>), AsmKind>
    ensures { Gives (λ x. (tail_of x.0, words_left (option_copied x.1))) result (ends_item (as_list second) (as_list bit) (words_left (option_copied words.entry))) }
{
    let (cond, rest) = condition_at(words)?;
    Ok((TailWords { second, bit, cond }, rest))
}

// Whether no second qubit may follow: at the end of the line, and at a condition.
fn is_last(words: Option<&[u8]>) -> bool
    ensures { result ≡ is_last (words_left (option_copied words.entry)) }
{
    match words {
        None => true,
        Some(line) => is(cut(line).0, b"if"),
    }
}

// A second qubit, or none, and then the end.
fn second_at(words: Option<&[u8]>) -> Result<(TailWords, Option<&[u8]>), AsmKind>
    ensures { Gives (λ x. (tail_of x.0, words_left (option_copied x.1))) result (second_at (words_left (option_copied words.entry))) }
{
    if is_last(words) {
        return ended(None, None, words);
    }
    let (second, rest) = operand_at(words)?;
    ended(Some(second), None, rest)
}

fn measured_at(words: Option<&[u8]>) -> Result<(TailWords, Option<&[u8]>), AsmKind>
    ensures { Gives (λ x. (tail_of x.0, words_left (option_copied x.1))) result (measured_at (words_left (option_copied words.entry))) }
{
    let (bit, rest) = bit_at(words)?;
    ended(None, Some(bit), rest)
}

// What the name asks for behind the first qubit.
fn tail_at<'a>(
    name: &[u8],
    words: Option<&'a [u8]>,
) -> Result<(TailWords, Option<&'a [u8]>), AsmKind>
    ensures { Gives (λ x. (tail_of x.0, words_left (option_copied x.1))) result (tail_at name.now (words_left (option_copied words.entry))) }
{
    if is(name, b"measure") {
        return measured_at(words);
    }
    if is(name, b"reset") {
        return ended(None, None, words);
    }
    second_at(words)
}

// Whether items of this name have no angles.
fn is_bare(name: &[u8]) -> bool
    ensures { result ≡ (bytes_eq name.now (codes "measure") || bytes_eq name.now (codes "reset")) }
{
    is(name, b"measure") || is(name, b"reset")
}

// Whether the words keep the item rule.
fn is_right(head: HeadWords<'_>, tail: TailWords) -> bool
    ensures { result ≡ is_right (item_op (head_of head.entry) (tail_of tail)) }
{
    let name = head.gate.name;
    if is_bare(name) {
        return head.gate.angles.is_none();
    }
    let no_barrier = !is(name, b"barrier");
    match tail.second {
        None => no_barrier,
        Some((second, _)) => second.0 != head.first.0.0 && no_barrier,
    }
}

/// The words of an item that ends its line and keeps the item rule.
pub fn item_words(words: Option<&[u8]>) -> Result<(HeadWords<'_>, TailWords), AsmKind>
    ensures { Gives (λ x. item_op (head_of x.0) (tail_of x.1)) result (finished (item_at (words_left (option_copied words.entry)))) }
{
    let (head, rest) = head_at(words)?;
    let (tail, rest) = tail_at(head.gate.name, rest)?;
    if is_end(rest) && is_right(head, tail) {
        Ok((head, tail))
    } else {
        Err(AsmKind::Word)
    }
}
