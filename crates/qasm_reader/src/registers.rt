//! Declarations of registers.

ghost use Rattle.std.specs.Prelude.{◌≡◌, ◌+◌, ◌<◌, ◌≤◌, length, nat_lt, ℕ, IfOk, List, OnOk};
ghost use Rattle.qasm_lex.specs.declared.tokens.TokenKind.TheVariants as token;
ghost use Rattle.qasm_reader.specs.Known.{count_of, with_register};
ghost use Rattle.qasm_reader.specs.Expected.{between, ends, many_of, register_name, register_size};
ghost use Rattle.qasm_reader.specs.Expected as expected;
ghost use Rattle.qasm_reader.specs.Sound.{IsSound};
ghost use Rattle.qasm_reader.specs.Code.{Leads, ahead, answer_from, known};

use crate::cursor::Cursor;
use crate::fault::{Many, QasmFault, QasmKind};
use crate::kinds::{Register, RegisterKind};
use crate::pieces::{number, refused, sign, statement_end};
use crate::state::State;
use crate::words::{is, is_identifier};
use qasm_lex::TokenKind;
use std::alloc::{AllocError, Global};

// Takes the name of a new register.
#[tactic(auto, unfolding(crate::specs::Reading::reads))]
fn new_name<'a>(state: &State, cursor: &Cursor<'a>) -> Result<(&'a [u8], Cursor<'a>), QasmFault>
    ensures shorter { IfOk result (λ p. length (ahead p.1) < length (ahead cursor.now)) }
    ensures leads { (kind : RegisterKind) → Leads (answer_from (known state.now) (register_name kind) cursor.now)
        (λ p. answer_from (known state.now) (expected.sign token.LBracket (register_size kind p.0.now)) p.1) result }
{
    match cursor.next() {
        Some((piece, rest)) => {
            if !is_identifier(&piece) {
                Err(refused(piece.at, QasmKind::Syntax))
            } else if state.names.find(piece.bytes).is_some() {
                Err(refused(piece.at, QasmKind::DuplicateName))
            } else {
                Ok((piece.bytes, rest))
            }
        }
        None => Err(refused(cursor.end(), QasmKind::Syntax)),
    }
}

// How many cells of the kind there are.
fn count_of(state: &State, kind: RegisterKind) -> u16
    ensures { result ≡ count_of kind state.now.qubits state.now.bits }
{
    match kind {
        RegisterKind::Quantum => state.qubits,
        RegisterKind::Classical => state.bits,
    }
}

// Whether a register of this size is one of too many cells.
fn exceeds(state: &State, kind: RegisterKind, size: u32) -> bool
    ensures { result ≡ nat_lt 256 (count_of kind state.now.qubits state.now.bits + size) }
{
    256 < u64::from(count_of(state, kind)) + u64::from(size)
}

// What there is too much of.
fn many_of(kind: RegisterKind) -> Many
    ensures { result ≡ many_of kind }
{
    match kind {
        RegisterKind::Quantum => Many::Qubits,
        RegisterKind::Classical => Many::Bits,
    }
}

// Takes the size of a new register.
#[tactic(auto, unfolding(crate::specs::Reading::reads))]
fn new_size<'a>(
    state: &State,
    kind: RegisterKind,
    cursor: &Cursor<'a>,
) -> Result<(u16, Cursor<'a>), QasmFault>
    ensures shorter { IfOk result (λ p. length (ahead p.1) < length (ahead cursor.now)) }
    ensures some { IfOk result (λ p. 1 ≤ p.0) }
    ensures size { IfOk result (λ p. count_of kind state.now.qubits state.now.bits + p.0 ≤ 256) }
    ensures leads { (name : List ℕ) → Leads (answer_from (known state.now) (register_size kind name) cursor.now)
        (λ p. answer_from (known state.now) (expected.sign token.RBracket (ends (with_register (known state.now) kind name p.0))) p.1) result }
{
    match cursor.next() {
        Some((piece, rest)) => {
            if !is(TokenKind::Int, &piece) {
                return Err(refused(piece.at, QasmKind::Syntax));
            }
            let size = number(piece.bytes);
            if size == 0 {
                Err(refused(piece.at, QasmKind::EmptyRegister))
            } else if exceeds(state, kind, size) {
                let what = many_of(kind);
                Err(refused(piece.at, QasmKind::TooMany { what, limit: 256 }))
            } else {
                Ok((size as u16, rest))
            }
        }
        None => Err(refused(cursor.end(), QasmKind::Syntax)),
    }
}

impl State {
    // Lets the name stand for a register of this size, of new cells.
    fn declare(&mut self, kind: RegisterKind, name: Vec<u8>, size: u16) -> Result<(), AllocError>
        requires { count_of kind self.old.qubits self.old.bits + size ≤ 256 }
        ensures { OnOk result (known self.new ≡ with_register (known self.old) kind name.items size) }
    {
        let first = count_of(self, kind);
        self.names.add(name, Register { kind, first, size })?;
        match kind {
            RegisterKind::Quantum => self.qubits += size,
            RegisterKind::Classical => self.bits += size,
        }
        Ok(())
    }
}

/// Takes the declaration of a register behind its first word.
#[tactic(auto, using(crate::proofs::Leading::leads))]
pub(crate) fn register<'a>(
    alloc: Global,
    state: &mut State,
    kind: RegisterKind,
    cursor: &Cursor<'a>,
) -> Result<Cursor<'a>, QasmFault>
    requires { IsSound (known state.old) }
    ensures sound { OnOk result (IsSound (known state.new)) }
    ensures shorter { IfOk result (λ rest. length (ahead rest) < length (ahead cursor.now)) }
    ensures leads { Leads (answer_from (known state.old) (register_name kind) cursor.now)
        (answer_from (known state.new) between) result }
{
    let (name, rest) = new_name(state, cursor)?;
    let rest = sign(&rest, TokenKind::LBracket)?;
    let (size, rest) = new_size(state, kind, &rest)?;
    let rest = sign(&rest, TokenKind::RBracket)?;
    let rest = statement_end(&rest)?;
    state.declare(kind, Vec::from_slice(alloc, name)?, size)?;
    Ok(rest)
}
