//! Which lists of item numbers keep the order of a circuit.

ghost use Rattle.std.specs.Prelude.{◌↔◌, IfOk, IsTrue};
ghost use Rattle.qccd_circuit.specs.Order.{SameOrder};

use crate::circuits::Circuit;
use crate::marks::Marks;
use qccd_base::NoMemory;
use std::alloc::Global;

/// Whether the list holds the number of each item once and no other, and of each two items that share the
/// earlier one's first. The time grows with the operands of the items that are listed.
///
/// An item's mark is one more than its number. So a number may come next where it is not below the marks
/// of the items before it that share with its own.
pub fn same_order(alloc: Global, circuit: &Circuit, list: &[u32]) -> Result<bool, NoMemory>
    ensures { IfOk result (λ same. IsTrue same ↔ SameOrder circuit.now.items list.now) }
{
    let items = circuit.items();
    if list.len() != items.len() {
        return Ok(false);
    }
    let mut listed = vec![in alloc; false; items.len()]?;
    let mut marks = Marks::none();
    for number in list {
        let index = *number as usize;
        if index >= items.len() || listed[index] || marks.before(&items[index]) > *number {
            return Ok(false);
        }
        listed[index] = true;
        marks.put(&items[index], *number + 1);
    }
    Ok(true)
}
