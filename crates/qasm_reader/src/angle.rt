//! Angles.

ghost use Rattle.std.specs.Prelude.{◌≡◌, ◌+◌, ◌^◌, ◌<◌, ◌≤◌, IfSome};
ghost use Rattle.qasm_reader.specs.Angle.{angle_state, angle_step, is_constant, is_function_word, is_operator};
ghost use Rattle.qasm_reader.specs.Lexeme.{is_function};
ghost use Rattle.qasm_reader.specs.Expected.{ends_angle, is_whole_angle};
ghost use Rattle.qasm_reader.specs.Code.{seen};

use crate::cursor::Piece;
use crate::words::{is, same};
use qasm_lex::TokenKind;

/// What may stand next in an angle.
#[derive(Clone, Copy, Debug, PartialEq, Eq, Hash)]
pub(crate) enum Phase {
    /// A number, or what begins one.
    Part,
    /// The parenthesis of a function.
    Paren,
    /// What may follow a number.
    Whole,
}

/// Where an angle stands: what may come next, and how many of its parentheses are open.
#[derive(Clone, Copy, Debug, PartialEq, Eq, Hash)]
pub(crate) struct AngleState {
    pub phase: Phase,
    pub depth: u32,
}

// Whether the word is a function.
fn is_function(word: &[u8]) -> bool
    ensures { result ≡ is_function word.now }
{
    same(word, b"sin")
        || same(word, b"cos")
        || same(word, b"tan")
        || same(word, b"exp")
        || same(word, b"ln")
        || same(word, b"sqrt")
}

// Whether the token is a number, or pi.
fn is_constant(piece: &Piece<'_>) -> bool
    ensures { result ≡ is_constant (seen piece.now) }
{
    is(TokenKind::Int, piece)
        || is(TokenKind::Real, piece)
        || is(TokenKind::Word, piece) && same(piece.bytes, b"pi")
}

fn is_function_word(piece: &Piece<'_>) -> bool
    ensures { result ≡ is_function_word (seen piece.now) }
{
    is(TokenKind::Word, piece) && is_function(piece.bytes)
}

fn is_operator(piece: &Piece<'_>) -> bool
    ensures { result ≡ is_operator (seen piece.now) }
{
    is(TokenKind::Plus, piece)
        || is(TokenKind::Minus, piece)
        || is(TokenKind::Times, piece)
        || is(TokenKind::Over, piece)
        || is(TokenKind::Power, piece)
}

/// Whether the token may stand behind an angle.
pub(crate) fn ends_angle(piece: &Piece<'_>) -> bool
    ensures { result ≡ ends_angle (seen piece.now) }
{
    is(TokenKind::Comma, piece) || is(TokenKind::RParen, piece)
}

/// Whether the angle may end here.
pub(crate) fn is_whole(angle_state: AngleState) -> bool
    ensures { result ≡ is_whole_angle angle_state }
{
    match angle_state.phase {
        Phase::Part => false,
        Phase::Paren => false,
        Phase::Whole => angle_state.depth == 0,
    }
}

// The state of this phase with so many open parentheses.
fn state_of(phase: Phase, depth: u32) -> AngleState
    ensures { result ≡ angle_state phase depth }
{
    AngleState { phase, depth }
}

/// Where the angle stands behind the token; `None` where the token cannot stand there.
pub(crate) fn angle_step(angle_state: AngleState, piece: &Piece<'_>) -> Option<AngleState>
    requires { angle_state.depth + 1 < 2 ^ 32 }
    ensures step { result ≡ angle_step angle_state (seen piece.now) }
    ensures depth { IfSome result (λ next. next.depth ≤ angle_state.depth + 1) }
{
    let depth = angle_state.depth;
    match angle_state.phase {
        Phase::Part => {
            if is(TokenKind::Minus, piece) {
                Some(angle_state)
            } else if is_constant(piece) {
                Some(state_of(Phase::Whole, depth))
            } else if is(TokenKind::LParen, piece) {
                Some(state_of(Phase::Part, depth + 1))
            } else if is_function_word(piece) {
                Some(state_of(Phase::Paren, depth))
            } else {
                None
            }
        }
        Phase::Paren => {
            if is(TokenKind::LParen, piece) {
                Some(state_of(Phase::Part, depth + 1))
            } else {
                None
            }
        }
        Phase::Whole => {
            if is_operator(piece) {
                Some(state_of(Phase::Part, depth))
            } else if depth != 0 && is(TokenKind::RParen, piece) {
                Some(state_of(Phase::Whole, depth - 1))
            } else {
                None
            }
        }
    }
}
