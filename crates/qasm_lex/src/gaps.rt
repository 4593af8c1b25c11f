//! White space and comments.

ghost use Rattle.std.specs.Prelude.{◌≡◌, false, IfNone, IfSome};
ghost use Rattle.qasm_lex.specs.Gaps.{begins_gap, one_white, is_solid};
ghost use Rattle.qasm_lex.specs.Runs.{begins};
ghost use Rattle.qasm_lex.specs.Fronts.{BeginsGap, GapAtFront};

use crate::runs::{begins_pair, line_len};

// How many bytes the first piece of a gap takes: one byte of white space, or a comment.
fn piece_len(text: &[u8]) -> Option<usize>
    ensures found { IfSome result (BeginsGap text.now) }
    ensures none { IfNone result (begins_gap text.now ≡ false) }
{
    // Most gaps are one byte of white space, and so this is looked for first.
    let first = text.first()?;
    if first.is_ascii_whitespace() {
        return Some(1);
    }
    if begins_pair(text, b'/', b'/') {
        return Some(2 + line_len(&text[2..]));
    }
    None
}

// Whether the byte begins no piece of a gap.
#[inline(always)]
fn is_solid(byte: u8) -> bool
    ensures { result ≡ is_solid byte }
{
    !byte.is_ascii_whitespace() && byte != b'/'
}

// Whether such a byte is the first.
#[inline(always)]
fn begins_solid(text: &[u8]) -> bool
    ensures { result ≡ begins is_solid text.now }
{
    match text {
        [first, ..] => is_solid(*first),
        [] => false,
    }
}

// Whether white space is the first byte, and such a byte the second.
#[inline(always)]
fn one_white(text: &[u8]) -> bool
    ensures { result ≡ one_white text.now }
{
    match text {
        [first, second, ..] => first.is_ascii_whitespace() && is_solid(*second),
        _ => false,
    }
}

/// How many bytes of white space and comments the text begins with.
#[inline(always)]
pub(crate) fn gap_len(text: &[u8]) -> usize
    ensures { GapAtFront text.now result }
{
    // Before most tokens there is no gap, or one byte of white space.
    if begins_solid(text) {
        0
    } else if one_white(text) {
        1
    } else {
        any_gap_len(text)
    }
}

// The same for any gap, piece by piece.
fn any_gap_len(text: &[u8]) -> usize
    ensures { GapAtFront text.now result }
{
    let mut len = 0;
    while let Some(piece) = piece_len(&text[len..]) {
        len += piece;
    }
    len
}
