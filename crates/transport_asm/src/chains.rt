//! The lines of chains.

ghost use Rattle.std.specs.Prelude.{◌≡◌, ◌-◌, ◌<◌, IfOk, option_copied};
ghost use Rattle.transport_asm.specs.Cursor.{words_left, size_left, Gives, GivesOp};
ghost use Rattle.transport_asm.specs.LineCursor.{unread, GivesAt, IsNumbered, ion_next};
ghost use Rattle.transport_asm.specs.Lines.{words_of, line_at, numbered};
ghost use Rattle.op_text.specs.Slots.{next_trap_slot};
ghost use Rattle.transport_asm.specs.Texts.{chain_line, ions_at};

use crate::faults::{AsmFault, OpFault};
use crate::lines::{Lines, refused, take_line};
use crate::words::{is_end, lettered, number, word};
use op_text::AsmKind;
use qccd_base::{Ion, IonList};
use std::alloc::Global;

// The trap of a chain's line, which has to be this one.
fn next_trap(word: &[u8], next: u64) -> Result<u64, AsmKind>
    ensures { result ≡ (next_trap_slot next).read word.now }
{
    let n = lettered(word, b'T', 255)?;
    if n == next {
        Ok(n)
    } else {
        Err(AsmKind::Count)
    }
}

// An ion, where one more may come.
fn ion_at(few: usize, words: Option<&[u8]>) -> Result<(Ion, Option<&[u8]>), AsmKind>
    ensures exact { Gives (λ x. (x.0, words_left (option_copied x.1))) result (ion_next few (words_left (option_copied words.entry))) }
    ensures shorter { IfOk result (λ x. size_left (option_copied x.1) < size_left (option_copied words.entry)) }
    ensures room { IfOk result (λ x. 0 < few) }
{
    let (word, rest) = word(words)?;
    let n = number(word, 65535)?;
    if few == 0 {
        return Err(AsmKind::TooMany);
    }
    Ok((Ion(n as u16), rest))
}

// The ions to the end of the line.
fn ions_at(alloc: Global, words: Option<&[u8]>) -> Result<Vec<Ion>, OpFault>
    ensures { GivesOp (λ x. x.items) result (ions_at 256 (words_left (option_copied words.entry))) }
{
    let mut ions = Vec::new(alloc);
    let mut few = 256;
    let mut left = words;
    while !is_end(left) {
        let (ion, rest) = ion_at(few, left)?;
        ions.push(ion)?;
        few -= 1;
        left = rest;
    }
    Ok(ions)
}

// The line of a chain.
fn chain(alloc: Global, t: u64, line: &[u8]) -> Result<IonList, OpFault>
    ensures { GivesOp (λ x. x) result (chain_line t (words_of line.now)) }
{
    let (first, rest) = word(Some(line))?;
    next_trap(first, t)?;
    let ions = ions_at(alloc, rest)?;
    Ok(IonList::of(ions))
}

// The next line, of the chain of this trap.
fn chain_at(alloc: Global, t: u64, lines: Lines<'_>) -> Result<(IonList, Lines<'_>), AsmFault>
    requires { IsNumbered lines }
    ensures exact { GivesAt (λ x. (x.0, unread x.1)) result (line_at (chain_line t) (unread lines.entry)) }
    ensures numbered { IfOk result (λ x. IsNumbered x.1) }
{
    let (line, rest) = take_line(lines)?;
    match chain(alloc, t, line) {
        Ok(chain) => Ok((chain, rest)),
        Err(OpFault::Refused { kind }) => Err(refused(lines.number, kind)),
        Err(OpFault::NoMemory) => Err(AsmFault::NoMemory),
    }
}

/// So many lines of chains.
pub fn chains_at(
    alloc: Global,
    count: u64,
    lines: Lines<'_>,
) -> Result<(Vec<IonList>, Lines<'_>), AsmFault>
    requires { IsNumbered lines }
    ensures exact { GivesAt (λ x. (x.0.items, unread x.1)) result (numbered chain_line count 0 (unread lines.entry)) }
    ensures numbered { IfOk result (λ x. IsNumbered x.1) }
{
    let mut chains = Vec::new(alloc);
    let mut left = lines;
    for k in 0..count {
        let (chain, rest) = chain_at(alloc, k, left)?;
        chains.push(chain)?;
        left = rest;
    }
    Ok((chains, left))
}
