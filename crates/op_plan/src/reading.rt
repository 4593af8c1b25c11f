//! Where the qubits stand, by what a plan keeps.

ghost use Rattle.std.specs.Prelude.{◌≡◌, ◌<◌, ◌==◌, ℕ, List, Option, Some, length, position, slice_get, true};
ghost use Rattle.qccd_base.specs.declared.names.TrapId.{TrapId};
ghost use Rattle.op_table.specs.declared.contents.Entry.{Entry};
ghost use Rattle.op_table.specs.Contents.{chain};
ghost use Rattle.op_plan.specs.Kept.{Keeps};
ghost use Rattle.op_plan.specs.Place.{home, stands_in};
ghost use Rattle.op_plan.specs.Plan.{state_of, PlanData};

use crate::moving::held;
use op_cells::{Cells, chain_in};
use op_table::Entry;
use qccd_base::{Qubit, Res, TrapId};

/// The ions of the trap with their qubits.
pub(crate) fn chain_at(cells: &Cells, trap: TrapId) -> &[Entry]
    requires { (p : PlanData) × (traps : List (Option TrapId)) × Keeps p cells.now traps × (trap.0 < length p.capacities) }
    ensures { (p : PlanData) (traps : List (Option TrapId)) → Keeps p cells.now traps → trap.0 < length p.capacities → result.now ≡ chain (state_of p) trap.0 }
{
    chain_in(held(cells, Res::Trap(trap)))
}

/// The trap in which the qubit stands, or `None` while its ion is in no trap. No chain is searched.
pub(crate) fn home_at(cells: &Cells, homes: &[Option<TrapId>], qubit: Qubit) -> Option<TrapId>
    requires { (p : PlanData) × Keeps p cells.now homes.now × (qubit.0 < p.qubits) }
    ensures { (p : PlanData) → Keeps p cells.now homes.now → qubit.0 < p.qubits → result ≡ home (state_of p) qubit }
{
    homes[usize::from(qubit.0)]
}

/// The trap in which the qubit stands and its position there, or `None` while its ion is in no trap. Only
/// that trap's chain is searched, and first at this position.
pub(crate) fn place_at(
    cells: &Cells,
    homes: &[Option<TrapId>],
    seat: usize,
    qubit: Qubit,
) -> Option<(TrapId, u8)>
    requires { (p : PlanData) × Keeps p cells.now homes.now × (qubit.0 < p.qubits) }
    ensures { (p : PlanData) → Keeps p cells.now homes.now → qubit.0 < p.qubits → result ≡ stands_in (state_of p) qubit }
{
    match homes[usize::from(qubit.0)] {
        None => None,
        Some(trap) => match position_in(chain_at(cells, trap), seat, qubit) {
            None => None,
            Some(at) => Some((trap, at as u8)),
        },
    }
}

/// The position at which the qubit is looked for first.
pub(crate) fn seat_of(seats: &[usize], qubit: Qubit) -> usize {
    match seats.get(usize::from(qubit.0)) {
        None => 0,
        Some(seat) => *seat,
    }
}

// The position of the qubit in the chain, in which it stands once at most.
fn position_in(chain: &[Entry], seat: usize, qubit: Qubit) -> Option<usize>
    requires once { (j k : ℕ) (x y : Entry) → slice_get chain.now j ≡ Some x → slice_get chain.now k ≡ Some y → (x.qubit.0 == qubit.0) ≡ true → (y.qubit.0 == qubit.0) ≡ true → j ≡ k }
    ensures { result ≡ position (λ e. e.qubit.0 == qubit.0) chain.now }
{
    if seat >= chain.len() {
        return search_in(chain, qubit);
    }
    let entry = chain[seat];
    if entry.qubit.0 == qubit.0 {
        Some(seat)
    } else {
        search_in(chain, qubit)
    }
}

// The same position, by a search from the left.
fn search_in(chain: &[Entry], qubit: Qubit) -> Option<usize>
    ensures { result ≡ position (λ e. e.qubit.0 == qubit.0) chain.now }
{
    chain.iter().position(|entry| entry.qubit.0 == qubit.0)
}
