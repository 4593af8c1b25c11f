//! When an item fits, one function for each sentence of the rule.

ghost use Rattle.std.specs.Prelude.{◌≡◌, ◌↔◌, [], IsTrue};
ghost use Rattle.std.specs.List.{list_all};
ghost use Rattle.qccd_circuit.specs.Item.{is_name_byte, is_word, IsName, is_angle_byte, is_angle, AreAngles, IsCond, has_qubit, are_distinct, IsGateName, FitsKind, Fits};

use crate::kinds::{Cond, ItemKind};
use crate::texts::{Angle, AngleList, Name};
use qccd_base::{BitList, Qubit, QubitList};

// The longest name and angle in bytes, and the most angles of an item.
const NAME_BYTES: usize = 64;

const ANGLE_BYTES: usize = 1024;

const ANGLES: usize = 16;

// One more than the last number of a bit.
const BITS: u32 = 65536;

/// Whether an item of these parts fits: its name, angles, condition and qubits are well formed, and
/// its parts are those that its kind asks for.
///
/// Each qubit is compared with those after it, so the time grows with the square of their number.
pub fn fits(
    kind: ItemKind,
    name: &Name,
    angles: &AngleList,
    qubits: &QubitList,
    bits: &BitList,
    cond: &Option<Cond>,
) -> bool
    ensures { IsTrue result ↔ Fits (record { kind = kind; name = name.now; angles = angles.now; qubits = qubits.now; bits = bits.now; cond = cond.now }) }
{
    is_name(name)
        && are_angles(angles)
        && is_cond(cond)
        && are_distinct(qubits.as_slice())
        && fits_kind(kind, name, angles, qubits, bits, cond)
}

// Whether the byte may follow the first of a name.
fn is_name_byte(byte: u8) -> bool
    ensures { result ≡ is_name_byte byte }
{
    byte.is_ascii_alphanumeric() || byte == b'_'
}

/// Whether each byte may follow the first of a name: a letter, a digit or an underscore.
pub fn are_name_bytes(bytes: &[u8]) -> bool
    ensures { result ≡ list_all is_name_byte bytes.now }
{
    bytes.iter().all(|byte| is_name_byte(*byte))
}

// Whether the bytes are a letter, and then letters, digits and underscores.
fn is_word(bytes: &[u8]) -> bool
    ensures { result ≡ is_word bytes.now }
{
    match bytes {
        [] => false,
        [first, rest @ ..] => first.is_ascii_alphabetic() && are_name_bytes(rest),
    }
}

// Whether the name is such a word, and not too long.
fn is_name(name: &Name) -> bool
    ensures { IsTrue result ↔ IsName name.now }
{
    name.len() <= NAME_BYTES && is_word(name.as_slice())
}

// Whether the byte may stand in an angle.
fn is_angle_byte(byte: u8) -> bool
    ensures { result ≡ is_angle_byte byte }
{
    byte.is_ascii_graphic() && byte != b','
}

// Whether each byte may.
fn are_angle_bytes(bytes: &[u8]) -> bool
    ensures { result ≡ list_all is_angle_byte bytes.now }
{
    bytes.iter().all(|byte| is_angle_byte(*byte))
}

// Whether the angle is of such bytes, neither none nor too many.
fn is_angle(angle: &Angle) -> bool
    ensures { result ≡ is_angle angle.now }
{
    let len = angle.len();
    1 <= len && len <= ANGLE_BYTES && are_angle_bytes(angle.as_slice())
}

// Whether each angle is well formed.
fn each_is_angle(angles: &[Angle]) -> bool
    ensures { result ≡ list_all is_angle angles.now }
{
    angles.iter().all(|angle| is_angle(angle))
}

// Whether the angles are well formed, and not too many.
fn are_angles(angles: &AngleList) -> bool
    ensures { IsTrue result ↔ AreAngles angles.now }
{
    angles.len() <= ANGLES && each_is_angle(angles.as_slice())
}

// Whether the condition has a bit, and none above the last number.
fn is_cond(cond: &Option<Cond>) -> bool
    ensures { IsTrue result ↔ IsCond cond.now }
{
    match cond {
        None => true,
        Some(cond) => cond.count >= 1 && u32::from(cond.first.0) + u32::from(cond.count) <= BITS,
    }
}

// Whether the qubit stands in the list.
pub(crate) fn has_qubit(qubits: &[Qubit], qubit: Qubit) -> bool
    ensures { result ≡ has_qubit qubits.now qubit }
{
    qubits.iter().any(|other| other.0 == qubit.0)
}

// Whether no qubit stands twice in the list.
fn are_distinct(qubits: &[Qubit]) -> bool
    ensures { result ≡ are_distinct qubits.now }
{
    let mut left = qubits;
    while let [first, rest @ ..] = left {
        if has_qubit(rest, *first) {
            return false;
        }
        left = rest;
    }
    true
}

// Whether the name is this text.
fn is_text(name: &Name, text: &[u8]) -> bool
    ensures { IsTrue result ↔ (name.now ≡ text.now) }
{
    name.as_slice() == text
}

// Whether the name is none that the other kinds have.
fn is_gate_name(name: &Name) -> bool
    ensures { IsTrue result ↔ IsGateName name.now }
{
    !is_text(name, b"measure") && !is_text(name, b"reset") && !is_text(name, b"barrier")
}

// Whether there is no bit.
fn no_bits(bits: &BitList) -> bool
    ensures { IsTrue result ↔ (bits.now ≡ []) }
{
    bits.is_empty()
}

// Whether there is no angle.
fn no_angles(angles: &AngleList) -> bool
    ensures { IsTrue result ↔ (angles.now ≡ []) }
{
    angles.is_empty()
}

// Whether the parts are those that the kind asks for.
fn fits_kind(
    kind: ItemKind,
    name: &Name,
    angles: &AngleList,
    qubits: &QubitList,
    bits: &BitList,
    cond: &Option<Cond>,
) -> bool
    ensures { IsTrue result ↔ FitsKind kind (record { kind = kind; name = name.now; angles = angles.now; qubits = qubits.now; bits = bits.now; cond = cond.now }) }
{
    match kind {
        ItemKind::Gate1 => qubits.len() == 1 && no_bits(bits) && is_gate_name(name),
        ItemKind::Gate2 => qubits.len() == 2 && no_bits(bits) && is_gate_name(name),
        ItemKind::Measure => {
            qubits.len() == 1 && bits.len() == 1 && no_angles(angles) && is_text(name, b"measure")
        }
        ItemKind::Reset => {
            qubits.len() == 1 && no_bits(bits) && no_angles(angles) && is_text(name, b"reset")
        }
        ItemKind::Barrier => {
            !qubits.is_empty()
                && no_bits(bits)
                && no_angles(angles)
                && is_text(name, b"barrier")
                && cond.is_none()
        }
    }
}
