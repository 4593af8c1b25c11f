//! The words of conditions.

ghost use Rattle.std.specs.Prelude.{◌≡◌, option_copied};
ghost use Rattle.transport_asm.specs.Cursor.{words_left, Gives};
ghost use Rattle.op_text.specs.Shapes.{read_one};
ghost use Rattle.op_text.specs.Slots.{bit_slot, count_slot, is_count, value_slot};
ghost use Rattle.op_text.specs.Operations.{cond_at, condition_at};

use crate::words::{are_digits, cut, is, lettered, number, word};
use op_text::AsmKind;
use qccd_base::{Bit, read_wide};
use qccd_circuit::Cond;

/// The bit that the next word names, and what is left behind it.
pub fn bit_at(words: Option<&[u8]>) -> Result<(Bit, Option<&[u8]>), AsmKind>
    ensures { Gives (λ x. (x.0, words_left (option_copied x.1))) result (read_one bit_slot (words_left (option_copied words.entry))) }
{
    let (word, rest) = word(words)?;
    let number = lettered(word, b'b', 65535)?;
    Ok((Bit(number as u16), rest))
}

// Whether a condition may have so many bits behind the first.
fn is_count(first: Bit, n: u64) -> bool
    ensures { result ≡ is_count first n }
{
    1 <= n && n <= 65535 && u64::from(first.0) + n <= 65536
}

// How many bits the word says that there are.
fn count(first: Bit, word: &[u8]) -> Result<u16, AsmKind>
    ensures { result ≡ (count_slot first).read word.now }
{
    let n = number(word, 4294967295)?;
    if is_count(first, n) {
        Ok(n as u16)
    } else {
        Err(AsmKind::Word)
    }
}

fn count_at(first: Bit, words: Option<&[u8]>) -> Result<(u16, Option<&[u8]>), AsmKind>
    ensures { Gives (λ x. (x.0, words_left (option_copied x.1))) result (read_one (count_slot first) (words_left (option_copied words.entry))) }
{
    let (word, rest) = word(words)?;
    let count = count(first, word)?;
    Ok((count, rest))
}

// The value that the word writes.
fn value(word: &[u8]) -> Result<u128, AsmKind>
    ensures { result ≡ value_slot.read word.now }
{
    match read_wide(word) {
        Some(n) => Ok(n),
        None if are_digits(word) => Err(AsmKind::Number),
        None => Err(AsmKind::Word),
    }
}

fn value_at(words: Option<&[u8]>) -> Result<(u128, Option<&[u8]>), AsmKind>
    ensures { Gives (λ x. (x.0, words_left (option_copied x.1))) result (read_one value_slot (words_left (option_copied words.entry))) }
{
    let (word, rest) = word(words)?;
    let value = value(word)?;
    Ok((value, rest))
}

// A condition behind its first word.
fn cond_at(words: Option<&[u8]>) -> Result<(Cond, Option<&[u8]>), AsmKind>
    ensures { Gives (λ x. (x.0, words_left (option_copied x.1))) result (cond_at (words_left (option_copied words.entry))) }
{
    let (first, rest) = bit_at(words)?;
    let (count, rest) = count_at(first, rest)?;
    let (value, rest) = value_at(rest)?;
    let cond = Cond {
        first,
        count,
        value,
    };
    Ok((cond, rest))
}

/// A condition, where the next word begins one, and what is left behind it.
pub fn condition_at(words: Option<&[u8]>) -> Result<(Option<Cond>, Option<&[u8]>), AsmKind>
    ensures { Gives (λ x. (x.0, words_left (option_copied x.1))) result (condition_at (words_left (option_copied words.entry))) }
{
    let Some(line) = words else {
        return Ok((None, words));
    };
    let (word, rest) = cut(line);
    if !is(word, b"if") {
        return Ok((None, words));
    }
    let (cond, rest) = cond_at(rest)?;
    Ok((Some(cond), rest))
}
