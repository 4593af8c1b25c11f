//! An angle from its tokens.

ghost use Rattle.std.specs.Prelude.{◌≡◌, ◌<◌, ◌≤◌, ◌&&◌, [], true, false, length, IfOk, IsTrue};
ghost use Rattle.std.specs.List.{list_all};
ghost use Rattle.qccd_circuit.specs.Item.{is_angle, is_angle_byte};
ghost use Rattle.qasm_reader.specs.declared.angle.Phase.TheVariants.{Part, Whole};
ghost use Rattle.qasm_reader.specs.Angle.{angle_state};
ghost use Rattle.qasm_reader.specs.Known.{Known};
ghost use Rattle.qasm_reader.specs.Expected.{Call, is_whole_angle, within_angle};
ghost use Rattle.qasm_reader.specs.Code.{Leads, ahead, answer_from, begins_end};

use crate::angle::{AngleState, Phase, angle_step, ends_angle, is_whole};
use crate::cursor::{Cursor, Piece};
use crate::fault::{Many, QasmFault, QasmKind};
use crate::pieces::refused;
use std::alloc::Global;

// The most bytes of an angle.
const BYTES: usize = 1024;

// Takes one token of an angle.
#[tactic(auto, unfolding(crate::specs::Reading::reads))]
fn angle_token<'a>(
    angle_state: AngleState,
    text: &mut Vec<u8>,
    cursor: &Cursor<'a>,
) -> Result<(AngleState, Cursor<'a>), QasmFault>
    requires depth { angle_state.depth ≤ length text.old.items }
    requires few { length text.old.items ≤ 1024 }
    requires bytes { IsTrue (list_all is_angle_byte text.old.items) }
    requires goes_on { is_whole_angle angle_state && begins_end (ahead cursor.now) ≡ false }
    ensures depth { IfOk result (λ p. p.0.depth ≤ length text.new.items) }
    ensures some { IfOk result (λ p. 1 ≤ length text.new.items) }
    ensures few { IfOk result (λ p. length text.new.items ≤ 1024) }
    ensures bytes { IfOk result (λ p. IsTrue (list_all is_angle_byte text.new.items)) }
    ensures shorter { IfOk result (λ p. length (ahead p.1) < length (ahead cursor.now)) }
    ensures leads { (k : Known) (c : Call) → Leads (answer_from k (within_angle c angle_state text.old.items) cursor.now)
        (λ p. answer_from k (within_angle c p.0 text.new.items) p.1) result }
{
    match cursor.next() {
        Some((piece, rest)) => match angle_step(angle_state, &piece) {
            Some(next) => {
                if BYTES - text.len() < piece.bytes.len() {
                    let what = Many::AngleBytes;
                    Err(refused(piece.at, QasmKind::TooMany { what, limit: 1024 }))
                } else {
                    text.extend_from_slice(piece.bytes)?;
                    Ok((next, rest))
                }
            }
            None => Err(refused(piece.at, QasmKind::Syntax)),
        },
        None => Err(refused(cursor.end(), QasmKind::Syntax)),
    }
}

/// Takes an angle.
#[tactic(auto, using(crate::proofs::Leading::leads))]
pub(crate) fn angle<'a>(
    alloc: Global,
    cursor: &Cursor<'a>,
) -> Result<(Vec<u8>, Cursor<'a>), QasmFault>
    ensures fits { IfOk result (λ p. IsTrue (is_angle p.0.items)) }
    ensures shorter { IfOk result (λ p. length (ahead p.1) < length (ahead cursor.now)) }
    ensures end { IfOk result (λ p. begins_end (ahead p.1) ≡ true) }
    ensures leads { (k : Known) (c : Call) → Leads (answer_from k (within_angle c (angle_state Part 0) []) cursor.now)
        (λ p. answer_from k (within_angle c (angle_state Whole 0) p.0.items) p.1) result }
{
    let mut text = Vec::new(alloc);
    let mut angle_state = AngleState {
        phase: Phase::Part,
        depth: 0,
    };
    let mut rest = *cursor;
    while !is_end(angle_state, &rest) {
        let (next, behind) = angle_token(angle_state, &mut text, &rest)?;
        angle_state = next;
        rest = behind;
    }
    Ok((text, rest))
}

// Whether a whole angle ends here.
fn is_end(angle_state: AngleState, cursor: &Cursor<'_>) -> bool
    ensures { result ≡ is_whole_angle angle_state && begins_end (ahead cursor.now) }
{
    match cursor.next() {
        Some((piece, _)) => is_whole(angle_state) && ends_angle(&piece),
        None => false,
    }
}
