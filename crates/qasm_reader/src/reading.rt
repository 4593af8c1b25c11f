//! From a text to its circuit.

ghost use Rattle.std.specs.Prelude.{◌≤◌, ◌<◌, ◌≡◌, ◌⊎◌, ◌∷◌, IfSome, IsErrAnd, OnOk, Ok, IfErr, IfOk, List, MatchResult, length, ℕ};
ghost use Rattle.qccd_circuit.specs.Circuit.{CircuitData};
ghost use Rattle.qasm_reader.specs.declared.fault.QasmKind.{QasmKind};
ghost use Rattle.qasm_reader.specs.declared.fault.QasmFault.TheVariants as fault;
ghost use Rattle.qasm_reader.specs.Reading.{IsCircuitOf, IsRefusedAt, answer, heading};
ghost use Rattle.qasm_lex.specs.declared.tokens.TokenKind.{TokenKind};
ghost use Rattle.qasm_reader.specs.Known.{Known, circuit_of, nothing};
ghost use Rattle.qasm_reader.specs.Expected.{behind_header, between, header};
ghost use Rattle.qasm_reader.specs.Sound.{IsSound};
ghost use Rattle.qasm_reader.specs.Code.{IsFaultOf, Leads, Tells, ahead, answer_from, behind_statement, known, lexemes_left};

use crate::cursor::Cursor;
use crate::fault::{QasmFault, QasmKind};
use crate::pieces::refused;
use crate::short::gates_on_cells;
use crate::state::State;
use crate::statements::statement;
use crate::words::{is, same};
use qasm_lex::{LexFault, TokenKind, check};
use qccd_circuit::Circuit;
use std::alloc::Global;

// The bytes of a short statement, and the most items.
const STATEMENT_BYTES: usize = 7;

const ITEMS: usize = 65536;

// Takes one of the first tokens.
#[tactic(auto, unfolding(crate::specs::Reading::reads))]
fn header_token<'a>(
    kind: TokenKind,
    bytes: &[u8],
    cursor: &Cursor<'a>,
) -> Result<Cursor<'a>, QasmFault>
    ensures { (k : Known) (ts : List (TokenKind × List ℕ)) → Leads (answer_from k (header ((kind, bytes.now) ∷ ts)) cursor.now)
        (answer_from k (behind_header ts)) result }
{
    match cursor.next() {
        Some((piece, rest)) => {
            if is(kind, &piece) && same(piece.bytes, bytes) {
                Ok(rest)
            } else {
                Err(refused(piece.at, QasmKind::Header))
            }
        }
        None => Err(refused(cursor.end(), QasmKind::Header)),
    }
}

// Takes the first three tokens.
#[tactic(auto, using(crate::proofs::Leading::leads))]
fn header<'a>(cursor: &Cursor<'a>) -> Result<Cursor<'a>, QasmFault>
    ensures { Leads (answer_from nothing (header heading) cursor.now) (answer_from nothing between) result }
{
    let rest = header_token(TokenKind::Word, b"OPENQASM", cursor)?;
    let rest = header_token(TokenKind::Real, b"2.0", &rest)?;
    header_token(TokenKind::Semi, b";", &rest)
}

// The circuit of what is known.
fn build(state: State) -> Circuit
    requires { IsSound (known state) }
    ensures { result ≡ circuit_of (known state) }
{
    let State {
        qubits,
        bits,
        items,
        ..
    } = state;
    Circuit::of(qubits, bits, items)
}

// Takes the next statement, whatever it is. `None` tells that the text has ended.
#[tactic(auto, unfolding(crate::specs::Reading::reads))]
fn any_statement<'a>(
    alloc: Global,
    state: &mut State,
    cursor: &Cursor<'a>,
) -> Result<Option<Cursor<'a>>, QasmFault>
    requires { IsSound (known state.old) }
    ensures sound { OnOk result (IsSound (known state.new)) }
    ensures shorter { IfOk result (λ o. IfSome o (λ rest. length (ahead rest) < length (ahead cursor.now))) }
    ensures leads { Leads (answer_from (known state.old) between cursor.now) (behind_statement (known state.new)) result }
{
    match cursor.next() {
        Some((first, rest)) => {
            let rest = statement(alloc, state, &first, &rest)?;
            Ok(Some(rest))
        }
        None => Ok(None),
    }
}

// Takes the statements up to one that no short way is for, and that one. `None` tells that the text has ended.
fn next_statements<'a>(
    alloc: Global,
    state: &mut State,
    cursor: &Cursor<'a>,
) -> Result<Option<Cursor<'a>>, QasmFault>
    requires { IsSound (known state.old) }
    ensures sound { OnOk result (IsSound (known state.new)) }
    ensures shorter { IfOk result (λ o. IfSome o (λ rest. length (ahead rest) < length (ahead cursor.now))) }
    ensures leads { Leads (answer_from (known state.old) between cursor.now) (behind_statement (known state.new)) result }
{
    let rest = gates_on_cells(alloc, state, cursor)?;
    any_statement(alloc, state, &rest)
}

// For how many items room is made at first. A gate's statement has seven bytes or more, so most texts find room for all
// their items; where one has more of them, for it names whole registers, further room is made as it is read.
fn room(text: &[u8]) -> usize
    ensures { result ≤ 65536 }
{
    (text.len() / STATEMENT_BYTES).min(ITEMS)
}

// The circuit of the tokens.
#[tactic(auto, unfolding(crate::specs::Reading::reads))]
fn circuit_from(alloc: Global, cursor: &Cursor<'_>) -> Result<Circuit, QasmFault>
    ensures { Leads (answer_from nothing (header heading) cursor.now) (λ c. Ok c) result }
{
    let mut state = State::new(alloc, room(cursor.text))?;
    let mut rest = header(cursor)?;
    while let Some(behind) = next_statements(alloc, &mut state, &rest)? {
        rest = behind;
    }
    Ok(build(state))
}

// What is told of a text of which this fault was read. That it has no list of tokens is told first.
fn first_fault(text: &[u8], read: QasmFault) -> QasmFault
    requires short { length text.now ≤ 16777216 }
    requires told { Tells (answer (length text.now) (lexemes_left text.now 0)) read }
    ensures { IsFaultOf text.now result }
{
    match check(text) {
        Ok(()) => read,
        Err(LexFault::BadByte { at }) => refused(at, QasmKind::Token),
        Err(LexFault::OpenString { at }) => refused(at, QasmKind::Token),
        Err(LexFault::NoMemory) => QasmFault::NoMemory,
    }
}

// The circuit of the text, or its fault.
fn answer(alloc: Global, text: &[u8]) -> Result<Circuit, QasmFault>
    requires { length text.now ≤ 16777216 }
    ensures circuit { IfOk result (IsCircuitOf text.now) }
    ensures fault { IfErr result (IsFaultOf text.now) }
{
    match circuit_from(alloc, &Cursor { text, place: 0 }) {
        Ok(circuit) => Ok(circuit),
        Err(read) => Err(first_fault(text, read)),
    }
}

/// The circuit of the text, which is OpenQASM 2.0 with the names of `qelib1.inc` and without
/// definitions of gates, opaque gates and conditions. The text has at most 16,777,216 bytes.
///
/// Tokens are read from left to right, and the first fault that is decided is told as `Refused`, with
/// its byte, counted from 0, and its kind. Of two faults that are decided at one token the one whose
/// kind stands first in `QasmKind` is told. Where the text has no list of tokens, that is told first.
/// `NoMemory` tells that memory ran out.
///
/// A gate on whole registers is applied to their first cells, then to their second cells, and so on;
/// a cell beside registers is repeated. `ccx` and `cswap` are given as gates on one and two qubits.
pub fn read(alloc: Global, text: &[u8]) -> Result<Circuit, QasmFault>
    requires { length text.now ≤ 16777216 }
    ensures circuit { IfOk result (IsCircuitOf text.now) }
    ensures fault { IfErr result (IsFaultOf text.now) }
    // A text of a circuit is answered with it, and one that is refused with its fault, unless memory runs out.
    ensures read { (c : CircuitData) → IsCircuitOf text.now c → MatchResult result (λ found. found ≡ c) (λ e. e ≡ fault.NoMemory) }
    ensures refused { (at : ℕ) (kind : QasmKind) → IsRefusedAt text.now at kind → IsErrAnd result (λ e. (e ≡ fault.Refused at kind) ⊎ (e ≡ fault.NoMemory)) }
{
    crate::laws::one_circuit();
    crate::laws::one_refusal();
    crate::laws::not_both();
    answer(alloc, text)
}
