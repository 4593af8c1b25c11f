//! Chains before the first operation.

ghost use Rattle.std.specs.Prelude.{◌≡◌, ◌≤◌, length, map};
ghost use Rattle.op_cells.specs.Opening.{start_entry};

use arrayvec::ArrayVec;
use op_table::Entry;
use qccd_base::{Ion, Qubit};

/// The chain of these ions, each with the qubit of its number.
pub fn start_chain(ions: &[Ion]) -> ArrayVec<Entry, 32>
    requires { length ions.now ≤ 32 }
    ensures { result.items ≡ map start_entry ions.now }
{
    let mut chain = ArrayVec::new();
    for ion in ions {
        chain.push(Entry {
            ion: *ion,
            qubit: Qubit(ion.0),
        });
    }
    chain
}
