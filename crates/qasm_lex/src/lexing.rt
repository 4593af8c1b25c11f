//! From a text to its tokens.

ghost use Rattle.std.specs.Prelude.{◌≡◌, ◌≢◌, ◌≤◌, ℕ, [], ◌∷◌, All, IfErr, IfNone, IfOk, IfSome, IsErrAnd, IsTrue, List, MatchResult, drop, length, ◌⊎◌};
ghost use Rattle.qasm_lex.specs.declared.fault.LexFault.{LexFault};
ghost use Rattle.qasm_lex.specs.declared.tokens.Token.{Token};
ghost use Rattle.qasm_lex.specs.declared.tokens.TokenKind.TheVariants as token;
ghost use Rattle.qasm_lex.specs.Gaps.{IsGap};
ghost use Rattle.qasm_lex.specs.Reading.{AreTokens, IsFaultOf, IsFirstFault, IsNext, IsTokenOf};
ghost use Rattle.qasm_lex.specs.Tokens.{IsToken};
ghost use Rattle.qasm_lex.specs.Fronts.{IsFaultFrom, IsNextIn, begins_alone};

use crate::fault::LexFault;
use crate::gaps::gap_len;
use crate::longest::{token_at, word_len};
use crate::numbers::int_len;
use crate::runs::begins_with;
use crate::tokens::{Token, TokenKind};
use std::alloc::Global;

/// The token behind the gap that begins at this place. `None` tells that the text ends behind it, and
/// `BadByte` or `OpenString` that no token begins there. The text has at most 16,777,216 bytes.
pub fn next_token(text: &[u8], from: usize) -> Result<Option<Token>, LexFault>
    requires short { length text.now ≤ 16777216 }
    requires within { from ≤ length text.now }
    ensures found { IfOk result (λ token. IfSome token (IsNextIn text.now from)) }
    ensures each { IfOk result (λ token. IfSome token (IsTokenOf text.now)) }
    ensures end { IfOk result (λ token. IfNone token (IsGap (drop from text.now) [])) }
    ensures fault { IfErr result (IsFaultFrom text.now from) }
{
    let start = from + gap_len(&text[from..]);
    let rest = &text[start..];
    if rest.is_empty() {
        return Ok(None);
    }
    let at = start as u32;
    if let Some((kind, len)) = token_at(rest) {
        let end = (start + len) as u32;
        return Ok(Some(Token {
            kind,
            start: at,
            end,
        }));
    }
    if begins_with(rest, b'"') {
        Err(LexFault::OpenString { at })
    } else {
        Err(LexFault::BadByte { at })
    }
}

/// The next token behind this place, if it is of this kind: that of a byte with which no other token begins. Where it
/// is not, only the gap before it is read. The text has at most 16,777,216 bytes.
#[inline(always)]
pub fn next_sign(text: &[u8], from: usize, kind: TokenKind, byte: u8) -> Option<Token>
    requires short { length text.now ≤ 16777216 }
    requires within { from ≤ length text.now }
    requires sign { IsToken kind (byte ∷ []) }
    requires alone { IsTrue (begins_alone byte) }
    ensures found { IfSome result (IsNextIn text.now from) }
    ensures each { IfSome result (IsTokenOf text.now) }
    ensures kind { IfSome result (λ t. t.kind ≡ kind) }
    ensures none { IfNone result ((t : Token) (follows : List ℕ) → IsNext (drop from text.now) from t follows → t.kind ≢ kind) }
{
    let start = from + gap_len(&text[from..]);
    if begins_with(&text[start..], byte) {
        Some(Token {
            kind,
            start: start as u32,
            end: (start + 1) as u32,
        })
    } else {
        None
    }
}

/// The next token behind this place, if it is a word. Where it is not, only the gap before it is read. The text has at
/// most 16,777,216 bytes.
#[inline(always)]
pub fn next_word(text: &[u8], from: usize) -> Option<Token>
    requires short { length text.now ≤ 16777216 }
    requires within { from ≤ length text.now }
    ensures found { IfSome result (IsNextIn text.now from) }
    ensures each { IfSome result (IsTokenOf text.now) }
    ensures kind { IfSome result (λ t. t.kind ≡ token.Word) }
    ensures none { IfNone result ((t : Token) (follows : List ℕ) → IsNext (drop from text.now) from t follows → t.kind ≢ token.Word) }
{
    let start = from + gap_len(&text[from..]);
    match word_len(&text[start..]) {
        Some(len) => Some(Token {
            kind: TokenKind::Word,
            start: start as u32,
            end: (start + len) as u32,
        }),
        None => None,
    }
}

/// The next token behind this place, if it is an integer. The text has at most 16,777,216 bytes.
#[inline(always)]
pub fn next_int(text: &[u8], from: usize) -> Option<Token>
    requires short { length text.now ≤ 16777216 }
    requires within { from ≤ length text.now }
    ensures found { IfSome result (IsNextIn text.now from) }
    ensures each { IfSome result (IsTokenOf text.now) }
    ensures kind { IfSome result (λ t. t.kind ≡ token.Int) }
    ensures none { IfNone result ((t : Token) (follows : List ℕ) → IsNext (drop from text.now) from t follows → t.kind ≢ token.Int) }
{
    let start = from + gap_len(&text[from..]);
    match int_len(&text[start..]) {
        Some(len) => Some(Token {
            kind: TokenKind::Int,
            start: start as u32,
            end: (start + len) as u32,
        }),
        None => None,
    }
}

/// The tokens of the text, in order. The text has at most 16,777,216 bytes.
///
/// White space (the bytes 9, 10, 12, 13 and 32) and comments stand between tokens. A comment runs from
/// `//` to the line feed that ends its line, or to the end of the text, and may hold any byte.
///
/// The longest token that begins at a byte is taken. Where none does, the answer is `BadByte` at
/// that byte, or `OpenString` where a string begins there that is not closed on its line; the first
/// such byte decides. `NoMemory` tells that memory ran out.
///
/// The tokens follow OpenQASM 2.0 (arXiv:1707.03429), but a word may begin with a capital letter and
/// a number with zeros, and an exponent needs no point before it.
pub fn lex(alloc: Global, text: &[u8]) -> Result<Vec<Token>, LexFault>
    requires { length text.now ≤ 16777216 }
    ensures tokens { IfOk result (λ found. AreTokens text.now found.items) }
    ensures fault { IfErr result (IsFaultOf text.now) }
    // A text of tokens is answered with them, and a fault with its place, unless memory runs out.
    ensures read { (ts : List Token) → AreTokens text.now ts → MatchResult result (λ found. found.items ≡ ts) (λ e. e ≡ LexFault.NoMemory) }
    ensures refused { (fault : LexFault) → IsFirstFault text.now fault → IsErrAnd result (λ e. (e ≡ fault) ⊎ (e ≡ LexFault.NoMemory)) }
    ensures each { IfOk result (λ found. All (IsTokenOf text.now) found.items) }
{
    let mut tokens = Vec::new(alloc);
    let mut from = 0;
    while let Some(token) = next_token(text, from)? {
        tokens.push(token)?;
        from = token.end as usize;
    }
    Ok(tokens)
}

/// The first fault of the text, or none where it has a list of tokens. The text has at most 16,777,216
/// bytes. It answers as `lex` does and takes no memory.
pub fn check(text: &[u8]) -> Result<(), LexFault>
    requires { length text.now ≤ 16777216 }
    ensures tokens { IfOk result (λ _. (ts : List Token) × AreTokens text.now ts) }
    ensures fault { IfErr result (IsFirstFault text.now) }
{
    let mut from = 0;
    while let Some(token) = next_token(text, from)? {
        from = token.end as usize;
    }
    Ok(())
}
