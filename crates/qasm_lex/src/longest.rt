//! The longest token with which a text begins.

ghost use Rattle.std.specs.Prelude.{◌==◌, ℕ, [], ◌∷◌, IfNone, IfSome, IsTrue};
ghost use Rattle.std.specs.Char.{is_ascii_alphabetic};
ghost use Rattle.qasm_lex.specs.declared.tokens.TokenKind.{TokenKind};
ghost use Rattle.qasm_lex.specs.declared.tokens.TokenKind.TheVariants as token;
ghost use Rattle.qasm_lex.specs.Runs.{begins};
ghost use Rattle.qasm_lex.specs.Tokens.{BeginsNoToken, IsToken};
ghost use Rattle.qasm_lex.specs.Fronts.{TokenAtFront, begins_no_long};

use crate::numbers::number_at;
use crate::runs::{begins_letter, begins_pair, begins_with, text_bytes_len, word_bytes_len};
use crate::tokens::TokenKind;

// The word, and how many bytes it takes.
fn word_at(text: &[u8]) -> (TokenKind, usize)
    requires { IsTrue (begins is_ascii_alphabetic text.now) }
    ensures { TokenAtFront text.now result.0 result.1 }
{
    (TokenKind::Word, word_bytes_len(text))
}

/// How many bytes the word takes. `None` where the longest token of the text is no word.
#[inline(always)]
pub(crate) fn word_len(text: &[u8]) -> Option<usize>
    ensures found { IfSome result (TokenAtFront text.now token.Word) }
    ensures none { IfNone result ((len : ℕ) → TokenAtFront text.now token.Word len → ⊥) }
{
    if begins_letter(text) {
        Some(word_bytes_len(text))
    } else {
        None
    }
}

// The string. `None` where it is not closed on its line.
#[tactic(auto, using(crate::proofs::RunLemmas::sizes))]
fn string_at(text: &[u8]) -> Option<(TokenKind, usize)>
    requires { IsTrue (begins (λ c. c == 34) text.now) }
    ensures found { IfSome result (λ p. TokenAtFront text.now p.0 p.1) }
    ensures none { IfNone result (BeginsNoToken text.now) }
{
    let inner = text_bytes_len(&text[1..]);
    if begins_with(&text[1 + inner..], b'"') {
        Some((TokenKind::Text, inner + 2))
    } else {
        None
    }
}

// The sign that the byte is alone.
fn short_sign(byte: u8) -> Option<TokenKind>
    requires { IsTrue (begins_no_long byte) }
    ensures found { IfSome result (λ kind. IsToken kind (byte ∷ [])) }
    ensures none { IfNone result ((kind : TokenKind) → IsToken kind (byte ∷ []) → ⊥) }
{
    match byte {
        b';' => Some(TokenKind::Semi),
        b',' => Some(TokenKind::Comma),
        b'(' => Some(TokenKind::LParen),
        b')' => Some(TokenKind::RParen),
        b'[' => Some(TokenKind::LBracket),
        b']' => Some(TokenKind::RBracket),
        b'{' => Some(TokenKind::LBrace),
        b'}' => Some(TokenKind::RBrace),
        b'+' => Some(TokenKind::Plus),
        b'-' => Some(TokenKind::Minus),
        b'*' => Some(TokenKind::Times),
        b'/' => Some(TokenKind::Over),
        b'^' => Some(TokenKind::Power),
        _ => None,
    }
}

// The sign, and how many bytes it takes.
fn sign_at(text: &[u8]) -> Option<(TokenKind, usize)>
    requires { IsTrue (begins begins_no_long text.now) }
    ensures found { IfSome result (λ p. TokenAtFront text.now p.0 p.1) }
    ensures none { IfNone result (BeginsNoToken text.now) }
{
    if begins_pair(text, b'-', b'>') {
        return Some((TokenKind::Arrow, 2));
    }
    if begins_pair(text, b'=', b'=') {
        return Some((TokenKind::Equal, 2));
    }
    let kind = short_sign(text[0])?;
    Some((kind, 1))
}

/// The longest token with which the text begins, and how many bytes it takes. `None` where no token
/// begins it.
pub(crate) fn token_at(text: &[u8]) -> Option<(TokenKind, usize)>
    ensures found { IfSome result (λ p. TokenAtFront text.now p.0 p.1) }
    ensures none { IfNone result (BeginsNoToken text.now) }
{
    let first = *text.first()?;
    if first.is_ascii_alphabetic() {
        Some(word_at(text))
    } else if first.is_ascii_digit() || first == b'.' {
        number_at(text)
    } else if first == b'"' {
        string_at(text)
    } else {
        sign_at(text)
    }
}
