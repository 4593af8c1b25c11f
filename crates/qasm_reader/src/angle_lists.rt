//! The angles of a gate.

ghost use Rattle.std.specs.Prelude.{◌≡◌, ℕ, List, ◌+◌, ◌<◌, ◌≤◌, ◌==◌, ◌∷◌, [], false, true, length, not, IfNone, IfOk, IfSome, IsTrue};
ghost use Rattle.std.specs.List.{list_all};
ghost use Rattle.qasm_lex.specs.declared.tokens.TokenKind.TheVariants as token;
ghost use Rattle.qccd_circuit.specs.Item.{AreAngles, is_angle};
ghost use Rattle.qasm_reader.specs.declared.angle.Phase.TheVariants.{Part, Whole};
ghost use Rattle.qasm_reader.specs.Angle.{angle_state};
ghost use Rattle.qasm_reader.specs.Known.{Known};
ghost use Rattle.qasm_reader.specs.Expected.{Call, angles_end, behind_gate, call, first_angle, lacking, of_gate, operand, with_angle, within_angle};
ghost use Rattle.qasm_reader.specs.Lexeme.{is};
ghost use Rattle.qasm_reader.specs.Named.{shape};
ghost use Rattle.qasm_reader.specs.Code.{Leads, Tells, ahead, answer_from, behind_paren, begins, begins_end, seen};

use crate::angles::angle;
use crate::cursor::{Cursor, Piece};
use crate::fault::{QasmFault, QasmKind};
use crate::gates::KnownGate;
use crate::pieces::refused;
use crate::words::is;
use qasm_lex::TokenKind;
use qccd_circuit::{Angle, AngleList};
use std::alloc::Global;

// What stands behind a comma that is behind an angle.
#[tactic(auto, unfolding(crate::specs::Reading::reads))]
fn next_angle<'a>(cursor: &Cursor<'a>) -> Option<Cursor<'a>>
    ensures shorter { IfSome result (λ rest. length (ahead rest) < length (ahead cursor.now)) }
    ensures found { IfSome result (λ rest. (k : Known) (c : Call) (text : List ℕ)
        → answer_from k (within_angle c (angle_state Whole 0) text) cursor.now ≡ answer_from k (within_angle (with_angle c text) (angle_state Part 0) []) rest) }
    ensures none { IfNone result (begins token.Comma (ahead cursor.now) ≡ false) }
{
    match cursor.next_sign(TokenKind::Comma, b',') {
        Some(rest) => Some(rest),
        None => None,
    }
}

// The fault of a wrong number of angles, where a comma or a `)` is next and it is no comma.
#[tactic(auto, unfolding(crate::specs::Reading::reads))]
fn wrong_count(cursor: &Cursor<'_>) -> QasmFault
    requires end { begins_end (ahead cursor.now) ≡ true }
    requires no_comma { begins token.Comma (ahead cursor.now) ≡ false }
    ensures { (k : Known) (c : Call) (text : List ℕ) → (c.gate.angles == length c.angles + 1) ≡ false
        → Tells (answer_from k (within_angle c (angle_state Whole 0) text) cursor.now) result }
{
    match cursor.next() {
        Some((piece, _)) => refused(piece.at, QasmKind::AngleCount),
        None => refused(cursor.end(), QasmKind::Syntax),
    }
}

// Takes the `)` behind the last of enough angles, where a comma or a `)` is next and it is no comma.
#[tactic(auto, unfolding(crate::specs::Reading::reads))]
fn close<'a>(cursor: &Cursor<'a>) -> Result<Cursor<'a>, QasmFault>
    requires end { begins_end (ahead cursor.now) ≡ true }
    requires no_comma { begins token.Comma (ahead cursor.now) ≡ false }
    ensures shorter { IfOk result (λ rest. length (ahead rest) < length (ahead cursor.now)) }
    ensures leads { (k : Known) (c : Call) (text : List ℕ) → (c.gate.angles == length c.angles + 1) ≡ true
        → Leads (answer_from k (within_angle c (angle_state Whole 0) text) cursor.now)
        (λ rest. answer_from k (operand (of_gate (with_angle c text))) rest) result }
{
    match cursor.next() {
        Some((_, rest)) => Ok(rest),
        None => Err(refused(cursor.end(), QasmKind::Syntax)),
    }
}

// The fault of angles of which there are too many already. They are read up to it, and not kept.
fn surplus(alloc: Global, cursor: &Cursor<'_>) -> QasmFault
    ensures { (k : Known) (c : Call) → c.gate.angles ≤ length c.angles
        → Tells (answer_from k (within_angle c (angle_state Part 0) []) cursor.now) result }
{
    let mut rest = *cursor;
    loop {
        let behind = match angle(alloc, &rest) {
            Ok((_, behind)) => behind,
            Err(fault) => return fault,
        };
        match next_angle(&behind) {
            Some(next) => rest = next,
            None => return wrong_count(&behind),
        }
    }
}

// Takes the angles of the gate behind their `(`, with their `)`.
#[tactic(auto, using(crate::proofs::Leading::leads))]
fn angle_list<'a>(
    alloc: Global,
    gate: &KnownGate,
    cursor: &Cursor<'a>,
) -> Result<(Vec<Angle>, Cursor<'a>), QasmFault>
    ensures each { IfOk result (λ p. IsTrue (list_all is_angle p.0.items)) }
    ensures count { IfOk result (λ p. length p.0.items ≡ gate.now.angles) }
    ensures shorter { IfOk result (λ p. length (ahead p.1) < length (ahead cursor.now)) }
    ensures leads { (k : Known) → Leads (answer_from k (within_angle (call (shape gate.now)) (angle_state Part 0) []) cursor.now)
        (λ p. answer_from k (operand (of_gate (record (call (shape gate.now)) { angles = p.0.items }))) p.1) result }
{
    let wanted = usize::from(gate.angles);
    let mut angles = Vec::new(alloc);
    let (mut text, mut rest) = angle(alloc, cursor)?;
    while let Some(next) = next_angle(&rest) {
        if wanted <= angles.len() + 1 {
            return Err(surplus(alloc, &next));
        }
        angles.push(Angle::of(text))?;
        let (further, behind) = angle(alloc, &next)?;
        text = further;
        rest = behind;
    }
    if angles.len() + 1 != wanted {
        return Err(wrong_count(&rest));
    }
    angles.push(Angle::of(text))?;
    let rest = close(&rest)?;
    Ok((angles, rest))
}

// What stands behind the `)` where no angle is in the parentheses. `None` tells that there is one.
#[tactic(auto, unfolding(crate::specs::Reading::reads))]
fn no_angles<'a>(enough: bool, cursor: &Cursor<'a>) -> Result<Option<Cursor<'a>>, QasmFault>
    ensures shorter { IfOk result (λ o. IfSome o (λ rest. length (ahead rest) < length (ahead cursor.now))) }
    ensures enough { IfOk result (λ o. IfSome o (λ _. enough ≡ true)) }
    ensures leads { (k : Known) (c : Call) → (c.gate.angles == 0) ≡ enough
        → Leads (answer_from k (first_angle c) cursor.now) (behind_paren k c cursor.now) result }
{
    match cursor.next() {
        Some((piece, rest)) => {
            if !is(TokenKind::RParen, &piece) {
                Ok(None)
            } else if enough {
                Ok(Some(rest))
            } else {
                Err(refused(piece.at, QasmKind::AngleCount))
            }
        }
        None => Ok(None),
    }
}

// Takes what is in the parentheses behind a gate's name, with the `)`.
#[tactic(auto, using(crate::proofs::Leading::leads))]
fn in_parentheses<'a>(
    alloc: Global,
    gate: &KnownGate,
    cursor: &Cursor<'a>,
) -> Result<(Vec<Angle>, Cursor<'a>), QasmFault>
    ensures each { IfOk result (λ p. IsTrue (list_all is_angle p.0.items)) }
    ensures count { IfOk result (λ p. length p.0.items ≡ gate.now.angles) }
    ensures shorter { IfOk result (λ p. length (ahead p.1) < length (ahead cursor.now)) }
    ensures leads { (k : Known) → Leads (answer_from k (first_angle (call (shape gate.now))) cursor.now)
        (λ p. answer_from k (operand (of_gate (record (call (shape gate.now)) { angles = p.0.items }))) p.1) result }
{
    match no_angles(gate.angles == 0, cursor)? {
        Some(rest) => Ok((Vec::new(alloc), rest)),
        None => angle_list(alloc, gate, cursor),
    }
}

// What stands behind a `(`, if one is next.
#[tactic(auto, unfolding(crate::specs::Reading::reads))]
fn open_paren<'a>(cursor: &Cursor<'a>) -> Option<Cursor<'a>>
    ensures shorter { IfSome result (λ rest. length (ahead rest) < length (ahead cursor.now)) }
    ensures found { IfSome result (λ rest. (k : Known) (c : Call) → answer_from k (behind_gate c) cursor.now ≡ answer_from k (first_angle c) rest) }
    ensures none { IfNone result ((k : Known) (c : Call) → answer_from k (behind_gate c) cursor.now ≡ answer_from k (operand (of_gate (lacking c))) cursor.now) }
{
    match cursor.next_sign(TokenKind::LParen, b'(') {
        Some(rest) => Some(rest),
        None => None,
    }
}

/// Takes the angles behind a gate's name, and tells whether they lack: the gate takes some, and there are no parentheses.
#[tactic(auto, using(crate::proofs::Leading::leads))]
pub(crate) fn gate_angles<'a>(
    alloc: Global,
    gate: &KnownGate,
    cursor: &Cursor<'a>,
) -> Result<(Vec<Angle>, bool, Cursor<'a>), QasmFault>
    requires { gate.now.angles ≤ 16 }
    ensures fits { IfOk result (λ p. AreAngles p.0.items) }
    ensures shorter { IfOk result (λ p. length (ahead p.2) ≤ length (ahead cursor.now)) }
    ensures leads { (k : Known) → Leads (answer_from k (behind_gate (call (shape gate.now))) cursor.now)
        (λ p. answer_from k (operand (of_gate (record (call (shape gate.now)) { angles = p.0.items; missing = p.1 }))) p.2) result }
{
    match open_paren(cursor) {
        Some(rest) => {
            let (angles, rest) = in_parentheses(alloc, gate, &rest)?;
            Ok((angles, false, rest))
        }
        None => Ok((Vec::new(alloc), gate.angles != 0, *cursor)),
    }
}
