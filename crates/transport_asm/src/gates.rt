//! The words of gates, and of qubits at positions.

ghost use Rattle.std.specs.Prelude.{◌≡◌, [], ◌∷◌, ◌&&◌, ◌||◌, not, nat_lt, length, is_some, IfSome, option_copied};
ghost use Rattle.std.specs.List.{list_all, list_any};
ghost use Rattle.qccd_circuit.specs.Item.{is_word, is_angle_byte};
ghost use Rattle.transport_asm.specs.Cursor.{words_left, Gives};
ghost use Rattle.transport_asm.specs.Parts.{angles_left, gate_of};
ghost use Rattle.op_text.specs.Shapes.{read_one};
ghost use Rattle.op_text.specs.Slots.{before_parenthesis, behind_parenthesis, has_parenthesis, is_closed, without_last, is_long_angle, has_angle_form, has_letter, gate_slot, operand_numbers, operand_of_parts, operand_slot};

use crate::words::{are_digits, cut_at, number, place_of, word};
use op_text::AsmKind;
use qccd_base::Qubit;
use qccd_circuit::are_name_bytes;

/// The parts of a gate's word: its name, and the text of its angles where it has any.
#[derive(Clone, Copy)]
pub struct GateWord<'a> {
    pub name: &'a [u8],
    pub angles: Option<&'a [u8]>,
}

// The name, whether a parenthesis follows it, and what stands behind that.
fn split_name(word: &[u8]) -> (&[u8], bool, &[u8])
    ensures name { result.0.now ≡ before_parenthesis word.now }
    ensures has { result.1 ≡ has_parenthesis word.now }
    ensures behind { result.2.now ≡ behind_parenthesis word.now }
{
    match place_of(word, b'(') {
        None => (word, false, &[]),
        Some(at) => (&word[..at], true, &word[at + 1..]),
    }
}

// What stands in front of the last byte, where that closes the parenthesis.
fn closed(behind: &[u8]) -> Option<&[u8]>
    ensures is { is_some result ≡ is_closed behind.now }
    ensures inner { IfSome result (λ inner. inner.now ≡ without_last behind.now) }
{
    let (last, inner) = behind.split_last()?;
    if *last == b')' { Some(inner) } else { None }
}

// Whether the bytes are a letter, and then letters, digits and underscores.
fn is_word(bytes: &[u8]) -> bool
    ensures { result ≡ is_word bytes.now }
{
    match bytes {
        [] => false,
        [first, rest @ ..] => first.is_ascii_alphabetic() && are_name_bytes(rest),
    }
}

fn is_long_angle(angle: &[u8]) -> bool
    ensures { result ≡ is_long_angle angle.now }
{
    angle.len() > 1024
}

fn is_angle_byte(byte: u8) -> bool
    ensures { result ≡ is_angle_byte byte }
{
    byte.is_ascii_graphic() && byte != b','
}

fn are_angle_bytes(bytes: &[u8]) -> bool
    ensures { result ≡ list_all is_angle_byte bytes.now }
{
    bytes.iter().all(|byte| is_angle_byte(*byte))
}

fn has_angle_form(angle: &[u8]) -> bool
    ensures { result ≡ has_angle_form angle.now }
{
    !angle.is_empty() && are_angle_bytes(angle)
}

// Whether some angle is too long.
fn any_long(angles: Option<&[u8]>) -> bool
    ensures { result ≡ list_any is_long_angle (angles_left (option_copied angles.entry)) }
{
    let mut left = angles;
    while let Some(text) = left {
        let (angle, rest) = cut_at(text, b',');
        if is_long_angle(angle) {
            return true;
        }
        left = rest;
    }
    false
}

// Whether each angle is of the right form.
fn each_has_form(angles: Option<&[u8]>) -> bool
    ensures { result ≡ list_all has_angle_form (angles_left (option_copied angles.entry)) }
{
    let mut left = angles;
    while let Some(text) = left {
        let (angle, rest) = cut_at(text, b',');
        if !has_angle_form(angle) {
            return false;
        }
        left = rest;
    }
    true
}

// How many angles there are.
fn count(angles: Option<&[u8]>) -> usize
    ensures { result ≡ length (angles_left (option_copied angles.entry)) }
{
    match angles {
        None => 0,
        Some(text) => text.split(|byte| *byte == b',').count(),
    }
}

// Whether a name of the right form, the number of angles or an angle is past its limit.
fn passes_limit(name: &[u8], angles: Option<&[u8]>) -> bool
    ensures { result ≡ ((is_word name.now && nat_lt 64 (length name.now))
        || (nat_lt 16 (length (angles_left (option_copied angles.entry))) || list_any is_long_angle (angles_left (option_copied angles.entry)))) }
{
    (is_word(name) && name.len() > 64) || count(angles) > 16 || any_long(angles)
}

// Whether the name and the angles are of the right form, and the parenthesis is closed.
fn has_form(name: &[u8], has_parenthesis: bool, angles: Option<&[u8]>) -> bool
    ensures { result ≡ (is_word name.now
        && (not has_parenthesis || (is_some angles.entry && list_all has_angle_form (angles_left (option_copied angles.entry))))) }
{
    is_word(name) && (!has_parenthesis || (angles.is_some() && each_has_form(angles)))
}

/// The parts of a gate's word.
pub fn gate(word: &[u8]) -> Result<GateWord<'_>, AsmKind>
    ensures { Gives gate_of result (gate_slot.read word.now) }
{
    let (name, has_parenthesis, behind) = split_name(word);
    let angles = closed(behind);
    if passes_limit(name, angles) {
        return Err(AsmKind::TooMany);
    }
    if !has_form(name, has_parenthesis, angles) {
        return Err(AsmKind::Word);
    }
    Ok(GateWord { name, angles })
}

// Whether the word is a `q` and digits.
fn is_qubit(word: &[u8]) -> bool
    ensures { result ≡ has_letter 113 word.now }
{
    match word {
        [] => false,
        [first, digits @ ..] => *first == b'q' && are_digits(digits),
    }
}

// The numbers of a qubit and of its position.
fn operand_numbers(digits: &[u8], position: &[u8]) -> Result<(Qubit, u8), AsmKind>
    ensures { Gives (λ operand. operand) result (operand_numbers digits.now position.now) }
{
    let qubit = number(digits, 65535)?;
    let position = number(position, 255)?;
    Ok((Qubit(qubit as u16), position as u8))
}

fn operand_of(qubit: &[u8], position: &[u8]) -> Result<(Qubit, u8), AsmKind>
    ensures { Gives (λ operand. operand) result (operand_of_parts (qubit.now ∷ position.now ∷ [])) }
{
    if is_qubit(qubit) && are_digits(position) {
        operand_numbers(&qubit[1..], position)
    } else {
        Err(AsmKind::Word)
    }
}

/// A qubit and its position, as `q4@0`.
pub fn operand(word: &[u8]) -> Result<(Qubit, u8), AsmKind>
    ensures { Gives (λ operand. operand) result (operand_slot.read word.now) }
{
    let (qubit, position) = cut_at(word, b'@');
    match position {
        None => Err(AsmKind::Word),
        Some(position) => operand_of(qubit, position),
    }
}

/// The gate that the next word writes, and what is left behind it.
pub fn gate_at(words: Option<&[u8]>) -> Result<(GateWord<'_>, Option<&[u8]>), AsmKind>
    ensures { Gives (λ x. (gate_of x.0, words_left (option_copied x.1))) result (read_one gate_slot (words_left (option_copied words.entry))) }
{
    let (word, rest) = word(words)?;
    let gate = gate(word)?;
    Ok((gate, rest))
}

/// The qubit and position of the next word, and what is left behind it.
pub fn operand_at(words: Option<&[u8]>) -> Result<((Qubit, u8), Option<&[u8]>), AsmKind>
    ensures { Gives (λ x. (x.0, words_left (option_copied x.1))) result (read_one operand_slot (words_left (option_copied words.entry))) }
{
    let (word, rest) = word(words)?;
    let operand = operand(word)?;
    Ok((operand, rest))
}
