//! The lines of a text.

ghost use Rattle.std.specs.Prelude.{◌≡◌, ◌==◌, ℕ, ◌+◌, ◌<◌, ◌≤◌, ◌^◌, length, position, Some, None, IfOk, IfErr, IfSome};
ghost use Rattle.op_text.specs.declared.kind.AsmKind.TheVariants.{Count};
ghost use Rattle.transport_asm.specs.declared.faults.AsmFault.TheVariants.{Refused};
ghost use Rattle.transport_asm.specs.Cursor.{Gives};
ghost use Rattle.transport_asm.specs.LineCursor.{parts_of, unread, next_of, GivesAt, IsNumbered};
ghost use Rattle.transport_asm.specs.Lines.{words_of, next_line, line_at, ended};
ghost use Rattle.op_text.specs.Slots.{greatest, next_slot, size_slot};
ghost use Rattle.transport_asm.specs.Texts.{size_line, first_line, mode_line, mode_slot, head_block, end_line};

use crate::faults::AsmFault;
use crate::words::{are_digits, cut, is, is_end, number, place_of, word};
use op_text::AsmKind;
use qccd_base::Mode;

/// What is left of a text: the number of its next line, and the bytes from there on.
#[derive(Clone, Copy)]
pub struct Lines<'a> {
    pub number: u32,
    pub rest: &'a [u8],
}

// The next line, and what is left behind its line feed.
fn next_line(text: &[u8]) -> Option<(&[u8], &[u8])>
    ensures parts { next_of result ≡ next_line (parts_of text.now) }
    ensures shorter { IfSome result (λ x. length x.1.now < length text.now) }
{
    match place_of(text, b'\n') {
        None => None,
        Some(at) => Some((&text[..at], &text[at + 1..])),
    }
}

/// The next number, which has to be this one.
pub fn next_number(word: &[u8], next: u64) -> Result<u64, AsmKind>
    ensures { result ≡ (next_slot greatest next).read word.now }
{
    let n = number(word, 4294967295)?;
    if n == next {
        Ok(n)
    } else {
        Err(AsmKind::Count)
    }
}

// A number with a limit of its own.
fn limited(word: &[u8], many: u64) -> Result<u64, AsmKind>
    ensures exact { result ≡ (size_slot many).read word.now }
    ensures small { IfOk result (λ n. n ≤ many) }
{
    let n = number(word, 4294967295)?;
    if n > many {
        Err(AsmKind::TooMany)
    } else {
        Ok(n)
    }
}

// A line of a word and a number.
fn size(name: &[u8], many: u64, line: &[u8]) -> Result<u64, AsmKind>
    ensures exact { Gives (λ n. n) result (size_line name.now many (words_of line.now)) }
    ensures small { IfOk result (λ n. n ≤ many) }
{
    let (first, rest) = word(Some(line))?;
    if !is(first, name) {
        return Err(AsmKind::Word);
    }
    let (second, rest) = word(rest)?;
    let n = limited(second, many)?;
    if is_end(rest) {
        Ok(n)
    } else {
        Err(AsmKind::Word)
    }
}

/// A refusal at a line.
pub fn refused(line: u32, kind: AsmKind) -> AsmFault
    ensures { result ≡ Refused line kind }
{
    AsmFault::Refused { line, kind }
}

/// The next line, and what is left behind it.
pub fn take_line(lines: Lines<'_>) -> Result<(&[u8], Lines<'_>), AsmFault>
    requires { IsNumbered lines }
    ensures taken { IfOk result (λ x. next_line (unread lines.entry).parts ≡ Some (x.0.now, (unread x.1).parts)) }
    ensures number { IfOk result (λ x. x.1.number ≡ lines.entry.number + 1) }
    ensures numbered { IfOk result (λ x. IsNumbered x.1) }
    ensures missing { IfErr result (λ e. (e ≡ Refused lines.entry.number Count) × (next_line (unread lines.entry).parts ≡ None)) }
{
    match next_line(lines.rest) {
        None => Err(refused(lines.number, AsmKind::Count)),
        Some((line, rest)) => Ok((
            line,
            Lines {
                number: lines.number + 1,
                rest,
            },
        )),
    }
}

/// A line of a number.
pub fn size_at<'a>(name: &[u8], many: u64, lines: Lines<'a>) -> Result<(u64, Lines<'a>), AsmFault>
    requires { IsNumbered lines }
    ensures exact { GivesAt (λ x. (x.0, unread x.1)) result (line_at (size_line name.now many) (unread lines.entry)) }
    ensures small { IfOk result (λ x. x.0 ≤ many) }
    ensures numbered { IfOk result (λ x. IsNumbered x.1) }
{
    let (line, rest) = take_line(lines)?;
    match size(name, many, line) {
        Ok(n) => Ok((n, rest)),
        Err(kind) => Err(refused(lines.number, kind)),
    }
}

// The first line: its version.
fn first(line: &[u8]) -> Result<u64, AsmKind>
    ensures { Gives (λ n. n) result (first_line (words_of line.now)) }
{
    let (name, rest) = cut(line);
    let Some(rest) = rest else {
        return Err(AsmKind::Header);
    };
    let (version, rest) = cut(rest);
    if !is_end(rest) || !is(name, b"QCCD") || !are_digits(version) {
        return Err(AsmKind::Header);
    }
    let n = number(version, 4294967295)?;
    if n == 1 || n == 2 {
        Ok(n)
    } else {
        Err(AsmKind::NotBuilt)
    }
}

/// The first line, and what is left behind it.
fn first_at(lines: Lines<'_>) -> Result<(u64, Lines<'_>), AsmFault>
    requires { IsNumbered lines }
    ensures exact { GivesAt (λ x. (x.0, unread x.1)) result (line_at first_line (unread lines.entry)) }
    ensures numbered { IfOk result (λ x. IsNumbered x.1) }
{
    let (line, rest) = take_line(lines)?;
    match first(line) {
        Ok(version) => Ok((version, rest)),
        Err(kind) => Err(refused(lines.number, kind)),
    }
}

// The word of a mode.
fn mode_in(word: &[u8]) -> Result<Mode, AsmKind>
    ensures { Gives (λ mode. mode) result (mode_slot.read word.now) }
{
    if is(word, b"ion") {
        Ok(Mode::IonSwap)
    } else if is(word, b"gate") {
        Ok(Mode::GateSwap)
    } else {
        Err(AsmKind::Word)
    }
}

// The line of a mode.
fn mode(line: &[u8]) -> Result<Mode, AsmKind>
    ensures { Gives (λ mode. mode) result (mode_line (words_of line.now)) }
{
    let (name, rest) = cut(line);
    if !is(name, b"mode") {
        return Err(AsmKind::Word);
    }
    let Some(rest) = rest else {
        return Err(AsmKind::Word);
    };
    let (word, rest) = cut(rest);
    let mode = mode_in(word)?;
    if is_end(rest) {
        Ok(mode)
    } else {
        Err(AsmKind::Word)
    }
}

// The line of a mode, and what is left behind it.
fn mode_at(lines: Lines<'_>) -> Result<(Mode, Lines<'_>), AsmFault>
    requires { IsNumbered lines }
    ensures exact { GivesAt (λ x. (x.0, unread x.1)) result (line_at mode_line (unread lines.entry)) }
    ensures numbered { IfOk result (λ x. IsNumbered x.1) }
{
    let (line, rest) = take_line(lines)?;
    match mode(line) {
        Ok(mode) => Ok((mode, rest)),
        Err(kind) => Err(refused(lines.number, kind)),
    }
}

/// The version, and in the second the mode, and what is left behind them.
pub fn head_at(lines: Lines<'_>) -> Result<(Option<Mode>, Lines<'_>), AsmFault>
    requires { IsNumbered lines }
    ensures exact { GivesAt (λ x. (x.0, unread x.1)) result (head_block.read (unread lines.entry)) }
    ensures numbered { IfOk result (λ x. IsNumbered x.1) }
{
    let (version, rest) = first_at(lines)?;
    if version == 2 {
        let (mode, rest) = mode_at(rest)?;
        Ok((Some(mode), rest))
    } else {
        Ok((None, rest))
    }
}

// The line `end`.
fn end(line: &[u8]) -> Result<(), AsmKind>
    ensures { Gives (λ u. tt) result (end_line (words_of line.now)) }
{
    let (first, rest) = cut(line);
    if is(first, b"end") && is_end(rest) {
        Ok(())
    } else {
        Err(AsmKind::Word)
    }
}

/// The line `end`, and what is left behind it.
pub fn end_at(lines: Lines<'_>) -> Result<Lines<'_>, AsmFault>
    requires { IsNumbered lines }
    ensures exact { GivesAt (λ x. (tt, unread x)) result (line_at end_line (unread lines.entry)) }
    ensures numbered { IfOk result (λ x. IsNumbered x) }
{
    let (line, rest) = take_line(lines)?;
    match end(line) {
        Ok(()) => Ok(rest),
        Err(kind) => Err(refused(lines.number, kind)),
    }
}

/// Nothing follows.
pub fn ended(lines: Lines<'_>) -> Result<(), AsmFault>
    ensures { GivesAt (λ u. tt {0}) result (ended (tt {0}) (unread lines.entry)) }
{
    if lines.rest.is_empty() {
        Ok(())
    } else {
        Err(refused(lines.number, AsmKind::Count))
    }
}
