//! Program texts, read whole.

ghost use Rattle.std.specs.Prelude.{◌≡◌, ◌≤◌, IfOk, codes, length, option_copied};
ghost use Rattle.transport_asm.specs.Cursor.{GivesOp};
ghost use Rattle.transport_asm.specs.LineCursor.{unread, GivesAt, IsNumbered, raw_data};
ghost use Rattle.transport_asm.specs.Lines.{words_of, line_at, numbered};
ghost use Rattle.transport_asm.specs.Texts.{op_line, chain_line, read_counted, program_block, value_of, read_text};

use crate::chains::chains_at;
use crate::faults::{AsmFault, OpFault};
use crate::lines::{Lines, end_at, ended, head_at, next_number, refused, size_at, take_line};
use crate::ops::op_of;
use crate::words::word;
use op_table::{Op, OpShelf};
use qccd_base::{IonList, Mode};
use std::alloc::Global;

/// What a program text spells: the numbers of qubits and bits, the mode where it names one, the chains at the
/// start and the operations. Nothing more is known of them than that they have texts.
#[derive(Debug, Drop)]
pub struct RawProgram {
    /// How many qubits.
    pub qubits: u16,
    /// How many classical bits.
    pub bits: u16,
    /// The mode that it names.
    pub mode: Option<Mode>,
    /// The ions of each trap at the start, from left to right.
    pub chains: Vec<IonList>,
    /// The operations, in order.
    pub ops: Vec<Op>,
}

// The line of an operation, with its number.
fn op(alloc: Global, shelf: &mut OpShelf, k: u64, line: &[u8]) -> Result<Op, OpFault>
    ensures { GivesOp (λ op. op) result (op_line k (words_of line.now)) }
{
    let (first, rest) = word(Some(line))?;
    next_number(first, k)?;
    op_of(alloc, shelf, rest)
}

// The next line, of the operation with this number.
fn op_at<'a>(
    alloc: Global,
    shelf: &mut OpShelf,
    k: u64,
    lines: Lines<'a>,
) -> Result<(Op, Lines<'a>), AsmFault>
    requires { IsNumbered lines }
    ensures exact { GivesAt (λ x. (x.0, unread x.1)) result (line_at (op_line k) (unread lines.entry)) }
    ensures numbered { IfOk result (λ x. IsNumbered x.1) }
{
    let (line, rest) = take_line(lines)?;
    match op(alloc, shelf, k, line) {
        Ok(op) => Ok((op, rest)),
        Err(OpFault::Refused { kind }) => Err(refused(lines.number, kind)),
        Err(OpFault::NoMemory) => Err(AsmFault::NoMemory),
    }
}

// So many lines of operations. Equal ones that move ions share their memory.
fn ops_at(alloc: Global, count: u64, lines: Lines<'_>) -> Result<(Vec<Op>, Lines<'_>), AsmFault>
    requires { IsNumbered lines }
    ensures exact { GivesAt (λ x. (x.0.items, unread x.1)) result (numbered op_line count 0 (unread lines.entry)) }
    ensures numbered { IfOk result (λ x. IsNumbered x.1) }
{
    let mut shelf = OpShelf::of(alloc)?;
    let mut ops = Vec::new(alloc);
    let mut left = lines;
    for k in 0..count {
        let (op, rest) = op_at(alloc, &mut shelf, k, left)?;
        ops.push(op)?;
        left = rest;
    }
    Ok((ops, left))
}

// The number of chains, and then their lines.
fn all_chains(alloc: Global, lines: Lines<'_>) -> Result<(Vec<IonList>, Lines<'_>), AsmFault>
    requires { IsNumbered lines }
    ensures exact { GivesAt (λ x. (x.0.items, unread x.1)) result (read_counted (codes "traps") 32 chain_line (unread lines.entry)) }
    ensures numbered { IfOk result (λ x. IsNumbered x.1) }
{
    let (count, rest) = size_at(b"traps", 32, lines)?;
    chains_at(alloc, count, rest)
}

// The number of operations, and then their lines.
fn all_ops(alloc: Global, lines: Lines<'_>) -> Result<(Vec<Op>, Lines<'_>), AsmFault>
    requires { IsNumbered lines }
    ensures exact { GivesAt (λ x. (x.0.items, unread x.1)) result (read_counted (codes "ops") 4194304 op_line (unread lines.entry)) }
    ensures numbered { IfOk result (λ x. IsNumbered x.1) }
{
    let (count, rest) = size_at(b"ops", 4194304, lines)?;
    ops_at(alloc, count, rest)
}

// All lines up to the last, and what is left behind it.
fn raw_at(alloc: Global, lines: Lines<'_>) -> Result<(RawProgram, Lines<'_>), AsmFault>
    requires { IsNumbered lines }
    ensures { GivesAt (λ x. (value_of (raw_data x.0), unread x.1)) result (program_block.read (unread lines.entry)) }
{
    let (mode, rest) = head_at(lines)?;
    let (qubits, rest) = size_at(b"qubits", 256, rest)?;
    let (bits, rest) = size_at(b"bits", 256, rest)?;
    let (chains, rest) = all_chains(alloc, rest)?;
    let (ops, rest) = all_ops(alloc, rest)?;
    let rest = end_at(rest)?;
    Ok((
        RawProgram {
            qubits: qubits as u16,
            bits: bits as u16,
            mode,
            chains,
            ops,
        },
        rest,
    ))
}

/// What the program text spells. Refused where it is no program text, with the first offending line and
/// the kind of its first offending word. Nothing is reserved for a number before that many things were
/// read.
pub fn read_ops(alloc: Global, text: &[u8]) -> Result<RawProgram, AsmFault>
    requires { length text.now ≤ 268435456 }
    ensures { GivesAt raw_data result (read_text text.now) }
{
    let lines = Lines {
        number: 1,
        rest: text,
    };
    let (raw, rest) = raw_at(alloc, lines)?;
    ended(rest)?;
    Ok(raw)
}
