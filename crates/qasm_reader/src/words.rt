//! What a token is.

ghost use Rattle.std.specs.Prelude.{◌≡◌};
ghost use Rattle.std.specs.Str.{bytes_eq};
ghost use Rattle.qasm_reader.specs.Lexeme.{begins_small, is, is_identifier, is_reserved, opening_of};
ghost use Rattle.qasm_reader.specs.Code.{seen};

use crate::cursor::Piece;
use crate::kinds::Opening;
use qasm_lex::TokenKind;

/// Whether the two words are one.
pub(crate) fn same(word: &[u8], other: &[u8]) -> bool
    ensures { result ≡ bytes_eq word.now other.now }
{
    word == other
}

// Whether the word may not be a name.
#[inline(always)]
fn is_reserved(word: &[u8]) -> bool
    ensures { result ≡ is_reserved word.now }
{
    // Most names are one letter, and no reserved word is.
    word.len() != 1 && is_among_reserved(word)
}

// The same, by all reserved words.
fn is_among_reserved(word: &[u8]) -> bool
    ensures { result ≡ is_reserved word.now }
{
    same(word, b"include")
        || same(word, b"qreg")
        || same(word, b"creg")
        || same(word, b"gate")
        || same(word, b"opaque")
        || same(word, b"measure")
        || same(word, b"reset")
        || same(word, b"barrier")
        || same(word, b"if")
        || same(word, b"pi")
        || same(word, b"sin")
        || same(word, b"cos")
        || same(word, b"tan")
        || same(word, b"exp")
        || same(word, b"ln")
        || same(word, b"sqrt")
}

// Whether the word begins with a small letter.
fn begins_small(word: &[u8]) -> bool
    ensures { result ≡ begins_small word.now }
{
    match word {
        [] => false,
        [first, ..] => first.is_ascii_lowercase(),
    }
}

/// What the first word of a statement begins.
pub(crate) fn opening_of(word: &[u8]) -> Opening
    ensures { result ≡ opening_of word.now }
{
    if same(word, b"include") {
        Opening::Include
    } else if same(word, b"qreg") {
        Opening::Qreg
    } else if same(word, b"creg") {
        Opening::Creg
    } else if same(word, b"measure") {
        Opening::Measure
    } else if same(word, b"reset") {
        Opening::Reset
    } else if same(word, b"barrier") {
        Opening::Barrier
    } else if same(word, b"gate") || same(word, b"opaque") || same(word, b"if") {
        Opening::Later
    } else {
        Opening::Gate
    }
}

/// Whether the token is of this kind.
pub(crate) fn is(kind: TokenKind, piece: &Piece<'_>) -> bool
    ensures { result ≡ is kind (seen piece.now) }
{
    piece.kind == kind
}

/// Whether the token is an identifier.
#[inline(always)]
pub(crate) fn is_identifier(piece: &Piece<'_>) -> bool
    ensures { result ≡ is_identifier (seen piece.now) }
{
    is(TokenKind::Word, piece) && begins_small(piece.bytes) && !is_reserved(piece.bytes)
}
