//! Operands.

ghost use Rattle.std.specs.Prelude.{◌≡◌, ◌<◌, ◌≤◌, ℕ, false, length, IfNone, IfOk, IfSome, Some};
ghost use Rattle.qasm_lex.specs.declared.tokens.TokenKind.TheVariants as token;
ghost use Rattle.qasm_reader.specs.declared.kinds.Register.{Register};
ghost use Rattle.qasm_reader.specs.Known.{Known, count_of};
ghost use Rattle.qasm_reader.specs.Expected.{Role, behind_name, behind_operand, lacks_angles, operand, operand_done, wanted};
ghost use Rattle.qasm_reader.specs.Expected as expected;
ghost use Rattle.qasm_reader.specs.Sound.{IsRegisterOf, IsSound, LiesBelow};
ghost use Rattle.qasm_reader.specs.Code.{Leads, ahead, answer_behind, answer_from, begins, known};

use crate::cursor::Cursor;
use crate::fault::{QasmFault, QasmKind};
use crate::kinds::{Operand, Register, RegisterKind};
use crate::pieces::{number, refused};
use crate::state::State;
use crate::words::{is, is_identifier};
use qasm_lex::TokenKind;

// Takes the name of an operand.
#[tactic(auto, unfolding(crate::specs::Reading::reads))]
fn operand_name<'a>(
    state: &State,
    kind: RegisterKind,
    lacking: bool,
    cursor: &Cursor<'a>,
) -> Result<(u32, Register, Cursor<'a>), QasmFault>
    requires { IsSound (known state.now) }
    ensures kind { IfOk result (λ p. p.1.kind ≡ kind) }
    ensures register { IfOk result (λ p. IsRegisterOf state.now.qubits state.now.bits p.1) }
    ensures shorter { IfOk result (λ p. length (ahead p.2) < length (ahead cursor.now)) }
    ensures leads { (role : Role) → wanted role ≡ kind → lacks_angles role ≡ lacking
        → Leads (answer_from (known state.now) (operand role) cursor.now)
        (λ p. answer_from (known state.now) (behind_name role p.0 p.1) p.2) result }
{
    match cursor.next() {
        Some((piece, rest)) => {
            if !is_identifier(&piece) {
                return Err(refused(piece.at, QasmKind::Syntax));
            }
            match state.names.find(piece.bytes) {
                None => Err(refused(piece.at, QasmKind::UnknownName)),
                Some(register) => {
                    if register.kind != kind {
                        Err(refused(piece.at, QasmKind::WrongKind))
                    } else if lacking {
                        Err(refused(piece.at, QasmKind::AngleCount))
                    } else {
                        Ok((piece.at, register, rest))
                    }
                }
            }
        }
        None => Err(refused(cursor.end(), QasmKind::Syntax)),
    }
}

/// What stands behind a `[`, if one is next.
#[inline(always)]
#[tactic(auto, unfolding(crate::specs::Reading::reads))]
pub(crate) fn open_bracket<'a>(cursor: &Cursor<'a>) -> Option<Cursor<'a>>
    ensures shorter { IfSome result (λ rest. length (ahead rest) < length (ahead cursor.now)) }
    ensures found { IfSome result (λ rest. (k : Known) (role : Role) (at : ℕ) (r : Register)
        → answer_from k (behind_name role at r) cursor.now ≡ answer_from k (expected.index role at r) rest) }
    ensures none { IfNone result (begins token.LBracket (ahead cursor.now) ≡ false) }
{
    match cursor.next_sign(TokenKind::LBracket, b'[') {
        Some(rest) => Some(rest),
        None => None,
    }
}

// Takes the index of a cell of the register.
#[tactic(auto, unfolding(crate::specs::Reading::reads))]
fn index<'a>(register: &Register, cursor: &Cursor<'a>) -> Result<(u16, Cursor<'a>), QasmFault>
    ensures below { IfOk result (λ p. p.0 < register.now.size) }
    ensures shorter { IfOk result (λ p. length (ahead p.1) < length (ahead cursor.now)) }
    ensures leads { (k : Known) (role : Role) (at : ℕ) → Leads (answer_from k (expected.index role at register.now) cursor.now)
        (λ p. answer_from k (expected.behind_index role at (record { register = register.now; index = Some p.0 })) p.1) result }
{
    match cursor.next() {
        Some((piece, rest)) => {
            if !is(TokenKind::Int, &piece) {
                return Err(refused(piece.at, QasmKind::Syntax));
            }
            let index = number(piece.bytes);
            if index < u32::from(register.size) {
                Ok((index as u16, rest))
            } else {
                Err(refused(piece.at, QasmKind::IndexOut))
            }
        }
        None => Err(refused(cursor.end(), QasmKind::Syntax)),
    }
}

// Takes the bracket behind the index of a cell.
#[tactic(auto, unfolding(crate::specs::Reading::reads))]
fn close_bracket<'a>(operand: &Operand, cursor: &Cursor<'a>) -> Result<Cursor<'a>, QasmFault>
    ensures shorter { IfOk result (λ rest. length (ahead rest) < length (ahead cursor.now)) }
    ensures leads { (k : Known) (role : Role) (at : ℕ) → Leads (answer_from k (expected.behind_index role at operand.now) cursor.now)
        (answer_behind (operand_done k role at operand.now)) result }
{
    match cursor.next() {
        Some((piece, rest)) => {
            if is(TokenKind::RBracket, &piece) {
                Ok(rest)
            } else {
                Err(refused(piece.at, QasmKind::Syntax))
            }
        }
        None => Err(refused(cursor.end(), QasmKind::Syntax)),
    }
}

// Takes what stands behind the name of an operand: the index of a cell, or nothing. The byte of the name is told
// where a check of the operand's last token applies.
#[tactic(auto, using(crate::proofs::Leading::leads))]
fn operand_tail<'a>(
    register: &Register,
    cursor: &Cursor<'a>,
) -> Result<(Operand, Cursor<'a>), QasmFault>
    ensures below { IfOk result (λ p. (qubits bits : ℕ) → IsRegisterOf qubits bits register.now → LiesBelow (count_of register.now.kind qubits bits) p.0) }
    ensures shorter { IfOk result (λ p. length (ahead p.1) ≤ length (ahead cursor.now)) }
    ensures leads { (k : Known) (role : Role) (at : ℕ) → Leads (answer_from k (behind_name role at register.now) cursor.now)
        (λ p. answer_behind (operand_done k role at p.0) p.1) result }
{
    match open_bracket(cursor) {
        Some(rest) => {
            let (index, rest) = index(register, &rest)?;
            let cell = Operand {
                register: *register,
                index: Some(index),
            };
            let rest = close_bracket(&cell, &rest)?;
            Ok((cell, rest))
        }
        None => {
            let whole = Operand {
                register: *register,
                index: None,
            };
            Ok((whole, *cursor))
        }
    }
}

/// Takes an operand, and tells the byte of its first token.
#[inline(always)]
#[tactic(auto, using(crate::proofs::Leading::leads))]
pub(crate) fn operand<'a>(
    state: &State,
    kind: RegisterKind,
    lacking: bool,
    cursor: &Cursor<'a>,
) -> Result<(u32, Operand, Cursor<'a>), QasmFault>
    requires { IsSound (known state.now) }
    ensures below { IfOk result (λ p. LiesBelow (count_of kind state.now.qubits state.now.bits) p.1) }
    ensures shorter { IfOk result (λ p. length (ahead p.2) < length (ahead cursor.now)) }
    ensures leads { (role : Role) → wanted role ≡ kind → lacks_angles role ≡ lacking
        → Leads (answer_from (known state.now) (operand role) cursor.now)
        (λ p. answer_behind (operand_done (known state.now) role p.0 p.1) p.2) result }
{
    let (at, register, rest) = operand_name(state, kind, lacking, cursor)?;
    let (operand, rest) = operand_tail(&register, &rest)?;
    Ok((at, operand, rest))
}

/// What stands behind a comma, if one is next.
#[inline(always)]
#[tactic(auto, unfolding(crate::specs::Reading::reads))]
pub(crate) fn comma<'a>(cursor: &Cursor<'a>) -> Option<Cursor<'a>>
    ensures shorter { IfSome result (λ rest. length (ahead rest) < length (ahead cursor.now)) }
    ensures found { IfSome result (λ rest. (k : Known) (role : Role) → answer_from k (behind_operand role) cursor.now ≡ answer_from k (operand role) rest) }
    ensures none { IfNone result (begins token.Comma (ahead cursor.now) ≡ false) }
{
    match cursor.next_sign(TokenKind::Comma, b',') {
        Some(rest) => Some(rest),
        None => None,
    }
}
