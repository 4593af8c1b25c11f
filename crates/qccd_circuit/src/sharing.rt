//! Which items share a qubit or a bit.

ghost use Rattle.std.specs.Prelude.{◌≡◌, ◌+◌, ◌≤◌};
ghost use Rattle.std.specs.List.{list_any};
ghost use Rattle.qccd_circuit.specs.Item.{bits_from, bits_of, cond_bits};
ghost use Rattle.qccd_circuit.specs.Sharing.{has_bit, share_qubit, shares};

use crate::fitting::has_qubit;
use crate::items::Item;
use crate::kinds::Cond;
use qccd_base::{Bit, Qubit};

/// Whether two items share: some qubit stands in both, or some bit does, the bits that their
/// conditions read included.
pub fn shares(a: &Item, b: &Item) -> bool
    ensures { result ≡ shares a.now b.now }
{
    share_qubit(a.qubits().as_slice(), b.qubits().as_slice())
        || share_written(a.bits().as_slice(), b)
        || share_read(a, b)
}

// Whether some qubit stands in both lists.
fn share_qubit(a: &[Qubit], b: &[Qubit]) -> bool
    ensures { result ≡ share_qubit a.now b.now }
{
    a.iter().any(|qubit| has_qubit(b, *qubit))
}

// Whether the bit stands in the list.
fn has_bit(bits: &[Bit], bit: Bit) -> bool
    ensures { result ≡ has_bit bits.now bit }
{
    bits.iter().any(|other| other.0 == bit.0)
}

// Whether the condition reads the bit.
fn reads_bit(cond: &Option<Cond>, bit: Bit) -> bool
    ensures { result ≡ has_bit (cond_bits cond.now) bit }
{
    match cond {
        None => false,
        Some(cond) => {
            let end = u32::from(cond.first.0) + u32::from(cond.count);
            cond.first.0 <= bit.0 && u32::from(bit.0) < end
        }
    }
}

// Whether the item writes the bit, or its condition reads it.
fn uses_bit(item: &Item, bit: Bit) -> bool
    ensures { result ≡ has_bit (bits_of item.now) bit }
{
    has_bit(item.bits().as_slice(), bit) || reads_bit(item.cond(), bit)
}

// Whether the item uses some bit of the list.
fn share_written(bits: &[Bit], item: &Item) -> bool
    ensures { result ≡ list_any (has_bit (bits_of item.now)) bits.now }
{
    bits.iter().any(|bit| uses_bit(item, *bit))
}

// Whether the second item uses some bit that the condition of the first reads.
fn share_read(a: &Item, b: &Item) -> bool
    ensures { result ≡ list_any (has_bit (bits_of b.now)) (cond_bits a.now.cond) }
{
    // The item fits, as the contract of its kind tells.
    let _kind = a.kind();
    match a.cond() {
        None => false,
        Some(cond) => share_from(cond.first, cond.count, b),
    }
}

// Whether the item uses some of so many bits from the first.
fn share_from(first: Bit, count: u16, item: &Item) -> bool
    requires { first.0 + count ≤ 65536 }
    ensures { result ≡ list_any (has_bit (bits_of item.now)) (bits_from first.0 count) }
{
    for step in 0..count {
        if uses_bit(item, Bit(first.0 + step)) {
            return true;
        }
    }
    false
}
