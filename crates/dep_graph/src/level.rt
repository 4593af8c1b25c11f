//! The levels of items.

ghost use Rattle.std.specs.Prelude.{◌≡◌, IfOk};
ghost use Rattle.dep_graph.specs.Levels.{levels};

use qccd_base::NoMemory;
use qccd_circuit::{Circuit, Marks};
use std::alloc::Global;

/// The level of each item: 0 where no earlier item shares with it, else 1 plus the greatest level of those
/// that do. The time grows with the operands of the items.
///
/// An item's mark is one more than its level.
pub fn levels(alloc: Global, circuit: &Circuit) -> Result<Vec<u32>, NoMemory>
    ensures { IfOk result (λ found. found.items ≡ levels circuit.now.items) }
{
    let items = circuit.items();
    let mut found = Vec::with_capacity(alloc, items.len())?;
    let mut marks = Marks::none();
    for item in items {
        let level = marks.before(item);
        found.push(level)?;
        marks.put(item, level + 1);
    }
    Ok(found)
}
