//! Signs and numbers.

ghost use Rattle.std.specs.Prelude.{◌≡◌, ◌<◌, ◌∷◌, length, IfErr, IfOk, List, false, true};
ghost use Rattle.qasm_lex.specs.declared.tokens.TokenKind.TheVariants as token;
ghost use Rattle.qccd_circuit.specs.Item.{ItemData};
ghost use Rattle.qasm_reader.specs.declared.fault.QasmFault.TheVariants.{Refused};
ghost use Rattle.qasm_reader.specs.Lexeme.{is, number};
ghost use Rattle.qasm_reader.specs.Known.{Known};
ghost use Rattle.qasm_reader.specs.Expected.{Expected, Role, between, behind_operand, ends, ends_with};
ghost use Rattle.qasm_reader.specs.Expected as expected;
ghost use Rattle.qasm_reader.specs.Code.{Leads, Tells, ahead, answer_from, begins, seen};

use crate::cursor::{Cursor, Piece};
use crate::fault::{QasmFault, QasmKind};
use crate::words::is;
use qasm_lex::TokenKind;

/// The refusal at this byte.
pub(crate) fn refused(at: u32, kind: QasmKind) -> QasmFault
    ensures { result ≡ Refused at kind }
{
    QasmFault::Refused { at, kind }
}

/// Takes a sign.
#[tactic(auto, unfolding(crate::specs::Reading::reads))]
pub(crate) fn sign<'a>(cursor: &Cursor<'a>, kind: TokenKind) -> Result<Cursor<'a>, QasmFault>
    ensures shorter { IfOk result (λ rest. length (ahead rest) < length (ahead cursor.now)) }
    ensures leads { (k : Known) (p : Expected) → Leads (answer_from k (expected.sign kind p) cursor.now) (answer_from k p) result }
{
    match cursor.next() {
        Some((piece, rest)) => {
            if is(kind, &piece) {
                Ok(rest)
            } else {
                Err(refused(piece.at, QasmKind::Syntax))
            }
        }
        None => Err(refused(cursor.end(), QasmKind::Syntax)),
    }
}

/// Takes the sign that ends a statement after which this is known.
#[tactic(auto, unfolding(crate::specs::Reading::reads))]
pub(crate) fn statement_end<'a>(cursor: &Cursor<'a>) -> Result<Cursor<'a>, QasmFault>
    ensures shorter { IfOk result (λ rest. length (ahead rest) < length (ahead cursor.now)) }
    ensures leads { (k next : Known) → Leads (answer_from k (ends next) cursor.now) (answer_from next between) result }
{
    match cursor.next() {
        Some((piece, rest)) => {
            if is(TokenKind::Semi, &piece) {
                Ok(rest)
            } else {
                Err(refused(piece.at, QasmKind::Syntax))
            }
        }
        None => Err(refused(cursor.end(), QasmKind::Syntax)),
    }
}

/// The value of digits, and at most 4,294,967,295.
pub(crate) fn number(digits: &[u8]) -> u32
    ensures { result ≡ number digits.now }
{
    let mut value: u64 = 0;
    for digit in digits {
        value = (value * 10 + u64::from(digit.saturating_sub(48))).min(4294967295);
    }
    value as u32
}

/// Whether the next token is of this kind.
pub(crate) fn is_next(cursor: &Cursor<'_>, kind: TokenKind) -> bool
    ensures { result ≡ begins kind (ahead cursor.now) }
{
    match cursor.next() {
        Some((piece, _)) => is(kind, &piece),
        None => false,
    }
}

/// Takes the `;` of a statement that adds items. The caller looks at what else may be wrong there.
#[tactic(auto, unfolding(crate::specs::Reading::reads))]
pub(crate) fn semicolon<'a>(cursor: &Cursor<'a>) -> Result<(Piece<'a>, Cursor<'a>), QasmFault>
    ensures shorter { IfOk result (λ p. length (ahead p.1) < length (ahead cursor.now)) }
    ensures found { IfOk result (λ p. ahead cursor.now ≡ seen p.0 ∷ ahead p.1) }
    ensures same { IfOk result (λ p. p.1.text.now ≡ cursor.now.text.now) }
    ensures is_semicolon { IfOk result (λ p. is token.Semi (seen p.0) ≡ true) }
    ensures behind_list { IfErr result (λ e. (k : Known) (role : Role) → begins token.Comma (ahead cursor.now) ≡ false
        → Tells (answer_from k (behind_operand role) cursor.now) e) }
    ensures behind_items { IfErr result (λ e. (k : Known) (items : List ItemData) → Tells (answer_from k (ends_with items) cursor.now) e) }
{
    match cursor.next() {
        Some((piece, rest)) => {
            if is(TokenKind::Semi, &piece) {
                Ok((piece, rest))
            } else {
                Err(refused(piece.at, QasmKind::Syntax))
            }
        }
        None => Err(refused(cursor.end(), QasmKind::Syntax)),
    }
}
