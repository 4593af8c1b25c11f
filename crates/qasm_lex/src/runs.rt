//! What a text begins with, byte by byte.

ghost use Rattle.std.specs.Prelude.{◌≡◌, ◌==◌};
ghost use Rattle.std.specs.Char.{is_ascii_alphabetic, is_ascii_digit};
ghost use Rattle.std.specs.List.{prefix_len};
ghost use Rattle.qasm_lex.specs.Gaps.{is_line_byte};
ghost use Rattle.qasm_lex.specs.Runs.{begins, begins_pair};
ghost use Rattle.qasm_lex.specs.Tokens.{is_text_byte, is_word_byte};

/// Whether the first byte is this one.
pub(crate) fn begins_with(text: &[u8], byte: u8) -> bool
    ensures { result ≡ begins (λ c. c == byte) text.now }
{
    match text {
        [first, ..] => *first == byte,
        [] => false,
    }
}

/// Whether the first two bytes are these.
pub(crate) fn begins_pair(text: &[u8], first: u8, second: u8) -> bool
    ensures { result ≡ begins_pair first second text.now }
{
    match text {
        [a, b, ..] => *a == first && *b == second,
        _ => false,
    }
}

/// Whether the first byte is a letter.
#[inline(always)]
pub(crate) fn begins_letter(text: &[u8]) -> bool
    ensures { result ≡ begins is_ascii_alphabetic text.now }
{
    match text {
        [first, ..] => first.is_ascii_alphabetic(),
        [] => false,
    }
}

/// Whether the first byte is a digit.
#[inline(always)]
pub(crate) fn begins_digit(text: &[u8]) -> bool
    ensures { result ≡ begins is_ascii_digit text.now }
{
    match text {
        [first, ..] => first.is_ascii_digit(),
        [] => false,
    }
}

/// How many digits there are at the front.
#[inline(always)]
pub(crate) fn digits_len(text: &[u8]) -> usize
    ensures { result ≡ prefix_len is_ascii_digit text.now }
{
    text.iter().take_while(|b| b.is_ascii_digit()).count()
}

/// How many letters, digits and underscores.
#[inline(always)]
pub(crate) fn word_bytes_len(text: &[u8]) -> usize
    ensures { result ≡ prefix_len is_word_byte text.now }
{
    text.iter()
        .take_while(|b| b.is_ascii_alphanumeric() || **b == b'_')
        .count()
}

/// How many bytes that may stand within a string.
pub(crate) fn text_bytes_len(text: &[u8]) -> usize
    ensures { result ≡ prefix_len is_text_byte text.now }
{
    text.iter()
        .take_while(|b| !(**b == b'"' || **b == b'\n'))
        .count()
}

/// How many bytes before the end of the line.
pub(crate) fn line_len(text: &[u8]) -> usize
    ensures { result ≡ prefix_len is_line_byte text.now }
{
    text.iter().take_while(|b| **b != b'\n').count()
}
