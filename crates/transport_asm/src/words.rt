//! The words of a line.

ghost use Rattle.std.specs.Prelude.{◌≡◌, ◌≢◌, ◌==◌, ℕ, ◌∷◌, ◌+◌, ◌^◌, ◌<◌, ◌≤◌, length, IfOk, IfSome, IfNone, bytes_eq, decimal, position, option_copied};
ghost use Rattle.std.specs.Char.{is_ascii_digit};
ghost use Rattle.std.specs.List.{list_all, slice_split};
ghost use Rattle.transport_asm.specs.Lines.{words_of};
ghost use Rattle.transport_asm.specs.Cursor.{words_left, parts_left, size_left, Gives};
ghost use Rattle.op_text.specs.Shapes.{first_word, is_end};
ghost use Rattle.op_text.specs.Slots.{are_digits, number_slot, lettered};

use op_text::AsmKind;
use qccd_base::read_number;

/// Where the byte is found first.
pub fn place_of(text: &[u8], byte: u8) -> Option<usize>
    ensures { result ≡ position (λ c. c == byte) text.now }
{
    text.iter().position(|other| *other == byte)
}

/// The text up to the byte, and what is left behind it where it is there.
pub fn cut_at(text: &[u8], byte: u8) -> (&[u8], Option<&[u8]>)
    ensures parts { slice_split (λ c. c == byte) text.now ≡ result.0.now ∷ parts_left byte (option_copied result.1) }
    ensures shorter { size_left (option_copied result.1) < 1 + length text.now }
{
    match place_of(text, byte) {
        None => (text, None),
        Some(at) => (&text[..at], Some(&text[at + 1..])),
    }
}

/// The first word of a line, and what is left behind it.
pub fn cut(line: &[u8]) -> (&[u8], Option<&[u8]>)
    ensures words { words_of line.now ≡ result.0.now ∷ words_left (option_copied result.1) }
    ensures shorter { size_left (option_copied result.1) < 1 + length line.now }
{
    cut_at(line, b' ')
}

// Whether each byte is a digit.
fn all_digits(bytes: &[u8]) -> bool
    ensures { result ≡ list_all is_ascii_digit bytes.now }
{
    bytes.iter().all(|byte| byte.is_ascii_digit())
}

/// Whether the bytes are digits, at least one.
pub fn are_digits(word: &[u8]) -> bool
    ensures { result ≡ are_digits word.now }
{
    match word {
        [] => false,
        [first, rest @ ..] => first.is_ascii_digit() && all_digits(rest),
    }
}

// The number up to a limit of which the bytes are the text.
fn number_within(word: &[u8], most: u64) -> Option<u64>
    ensures some { IfSome result (λ n. (word.now ≡ decimal n) × (n ≤ most)) }
    ensures none { IfNone result ((n : ℕ) → n ≤ most → word.now ≢ decimal n) }
{
    read_number(word).filter(|n| *n <= most)
}

/// The number up to a limit that the word writes.
pub fn number(word: &[u8], most: u64) -> Result<u64, AsmKind>
    ensures { result ≡ (number_slot most).read word.now }
{
    match number_within(word, most) {
        Some(n) => Ok(n),
        None if are_digits(word) => Err(AsmKind::Number),
        None => Err(AsmKind::Word),
    }
}

/// The number directly behind a letter.
pub fn lettered(word: &[u8], letter: u8, most: u64) -> Result<u64, AsmKind>
    ensures { result ≡ lettered letter most word.now }
{
    match word {
        [first, digits @ ..] if *first == letter => number(digits, most),
        _ => Err(AsmKind::Word),
    }
}

/// The next word of a line, and what is left behind it.
pub fn word(words: Option<&[u8]>) -> Result<(&[u8], Option<&[u8]>), AsmKind>
    ensures exact { Gives (λ x. (x.0.now, words_left (option_copied x.1))) result (first_word (words_left (option_copied words.entry))) }
    ensures shorter { IfOk result (λ x. size_left (option_copied x.1) < size_left (option_copied words.entry)) }
{
    match words {
        None => Err(AsmKind::Word),
        Some(line) => Ok(cut(line)),
    }
}

/// Whether no word is left.
pub fn is_end(words: Option<&[u8]>) -> bool
    ensures { result ≡ is_end (words_left (option_copied words.entry)) }
{
    match words {
        None => true,
        Some(_) => false,
    }
}

/// Whether the word is this text.
pub fn is(word: &[u8], text: &[u8]) -> bool
    ensures { result ≡ bytes_eq word.now text.now }
{
    word == text
}
