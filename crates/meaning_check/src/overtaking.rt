//! Items that stand before smaller ones that share with them.

ghost use Rattle.std.specs.Prelude.{◌≡◌, ◌∷◌, ℕ, List, All, IfNone, IfSome};
ghost use Rattle.op_table.specs.Run.{items_in};
ghost use Rattle.qccd_circuit.specs.Circuit.{IsWithin};
ghost use Rattle.qccd_circuit.specs.Item.{ItemData};
ghost use Rattle.qccd_circuit.specs.Sharing.{shares};
ghost use Rattle.meaning_check.specs.Verdict.{IsFirstToOvertake, NoneOvertakes};
ghost use Rattle.meaning_check.specs.Least.{AreLeast, HasRows, least_of};

use crate::items::item_of;
use op_table::Op;
use qccd_circuit::Item;

// A row for each of 256 qubits and each of 256 bits.
const ROWS: usize = 512;

// More than the number of any item.
const NONE: u32 = u32::MAX;

// The least number of the items that share with this one.
fn least_sharing(rows: &[u32; ROWS], item: &Item) -> u32
    requires within { IsWithin 256 256 item.now }
    ensures { (list : List (ℕ × ItemData)) → AreLeast list rows.now → result ≡ least_of (λ d. shares d item.now) list }
{
    let mut least = NONE;
    for k in 0..item.operand_count() {
        least = least.min(rows[item.operand(k)]);
    }
    least
}

// Puts the item's number on its operands where no lesser one is.
fn put(rows: &mut [u32; ROWS], number: u32, item: &Item)
    requires within { IsWithin 256 256 item.now }
    ensures { (list : List (ℕ × ItemData)) → AreLeast list rows.old → AreLeast ((number, item.now) ∷ list) rows.new }
{
    for k in 0..item.operand_count() {
        let row = item.operand(k);
        rows[row] = rows[row].min(number);
    }
}

/// The least item that stands behind a greater one that shares with it, and the first such greater one, in
/// program order. The time grows with the operands of the items.
///
/// The operations are gone through from their end, with the least number so far on each operand.
pub fn first_to_overtake(ops: &[Op]) -> Option<(u32, u32)>
    requires within { All HasRows ops.now }
    ensures none { IfNone result (NoneOvertakes (items_in ops.now)) }
    ensures some { IfSome result (λ x. IsFirstToOvertake (items_in ops.now) x.0 x.1) }
{
    let mut rows = [NONE; ROWS];
    let mut found = None;
    for k in (0..ops.len()).rev() {
        if let Some((number, item)) = item_of(&ops[k]) {
            let least = least_sharing(&rows, item);
            if least < number {
                found = Some((least, number));
            }
            put(&mut rows, number, item);
        }
    }
    found
}
