//! The longest number with which a text begins.

ghost use Rattle.std.specs.Prelude.{◌≡◌, ℕ, IfNone, IfSome, IsTrue};
ghost use Rattle.qasm_lex.specs.declared.tokens.TokenKind.TheVariants as token;
ghost use Rattle.qasm_lex.specs.Runs.{begins};
ghost use Rattle.qasm_lex.specs.Tokens.{BeginsNoToken, is_exponent_letter};
ghost use Rattle.qasm_lex.specs.Fronts.{ExponentAtFront, TokenAtFront, begins_number, fraction_size, sign_size};

use crate::runs::{begins_digit, begins_with, digits_len};
use crate::tokens::TokenKind;

// Whether the text begins with the letter of an exponent.
fn begins_exponent(text: &[u8]) -> bool
    ensures { result ≡ begins is_exponent_letter text.now }
{
    begins_with(text, b'e') || begins_with(text, b'E')
}

// How many bytes the sign of an exponent takes; 0 where there is none.
fn sign_len(text: &[u8]) -> usize
    ensures { result ≡ sign_size text.now }
{
    if begins_with(text, b'+') || begins_with(text, b'-') {
        1
    } else {
        0
    }
}

// How many bytes the exponent takes; 0 where there is none.
#[inline(always)]
#[tactic(auto, using(crate::proofs::RunLemmas::sizes))]
fn exponent_len(text: &[u8]) -> usize
    ensures { ExponentAtFront text.now result }
{
    if !begins_exponent(text) {
        return 0;
    }
    let sign = sign_len(&text[1..]);
    let digits = digits_len(&text[1 + sign..]);
    if digits == 0 { 0 } else { 1 + sign + digits }
}

// How many bytes the point and the digits behind it take; 0 where there is no point.
#[tactic(auto, using(crate::proofs::RunLemmas::sizes))]
fn fraction_len(text: &[u8]) -> usize
    ensures { result ≡ fraction_size text.now }
{
    if begins_with(text, b'.') {
        1 + digits_len(&text[1..])
    } else {
        0
    }
}

/// The number, and how many bytes it takes. `None` where there is a point alone.
#[tactic(auto, using(crate::proofs::FrontLemmas::number_sizes))]
pub(crate) fn number_at(text: &[u8]) -> Option<(TokenKind, usize)>
    requires { IsTrue (begins begins_number text.now) }
    ensures found { IfSome result (λ p. TokenAtFront text.now p.0 p.1) }
    ensures none { IfNone result (BeginsNoToken text.now) }
{
    let whole = digits_len(text);
    let fraction = fraction_len(&text[whole..]);
    if whole == 0 && fraction == 1 {
        return None;
    }
    let mantissa = whole + fraction;
    let len = mantissa + exponent_len(&text[mantissa..]);
    // Nothing but the digits before a point.
    let kind = if len == whole {
        TokenKind::Int
    } else {
        TokenKind::Real
    };
    Some((kind, len))
}

/// How many bytes the integer takes. `None` where the longest token of the text is no integer.
#[inline(always)]
#[tactic(auto, using(crate::proofs::RunLemmas::sizes))]
pub(crate) fn int_len(text: &[u8]) -> Option<usize>
    ensures found { IfSome result (TokenAtFront text.now token.Int) }
    ensures none { IfNone result ((len : ℕ) → TokenAtFront text.now token.Int len → ⊥) }
{
    if !begins_digit(text) {
        return None;
    }
    let digits = digits_len(text);
    let rest = &text[digits..];
    if begins_with(rest, b'.') {
        return None;
    }
    if exponent_len(rest) == 0 {
        Some(digits)
    } else {
        None
    }
}
