//! Room in a full trap: each trap on the way to the nearest free slot hands a qubit on.

ghost use Rattle.std.specs.Prelude.{◌≡◌, ◌≢◌, ◌≤◌, ◌<◌, ◌+◌, ◌-◌, ◌*◌, ℕ, OnErr, OnOk, Some, [], length, map, option_map, true, unwrap_or};
ghost use Rattle.qccd_base.specs.Names.{trap};
ghost use Rattle.qccd_base.specs.declared.names.End.TheVariants as end;
ghost use Rattle.qccd_machine.specs.Machine.{hop_bound};
ghost use Rattle.op_plan.specs.Place.{home};
ghost use Rattle.op_plan.specs.Plan.{state_of, with_ops, Agrees, Continues};
ghost use Rattle.router.specs.Hops.{are_neighbours, distance};
ghost use Rattle.router.specs.Paths.{hop_path};
ghost use Rattle.router.specs.Wiring.{wiring_of};
ghost use Rattle.rebalancer.specs.Hop.{leaving_end};
ghost use Rattle.rebalancer.specs.Goal.{better};
ghost use Rattle.rebalancer.specs.Moves.{MakesRoom};
ghost use Rattle.rebalancer.specs.Outside.{NothingOutside};
ghost use Rattle.rebalancer.specs.Room.{first_free, hand_ops, handed, hands_ops, has_room, is_kept, nearest, pair_of, room_ops, way_to, LeadsToRoom};

use crate::hopping::{hop, leaving_end};
use op_plan::Plan;
use op_table::Entry;
use qccd_base::{End, Mode, NoMemory, Qubit, TrapId};
use qccd_machine::Machine;
use router::Routes;
use std::alloc::Global;

/// Whether the trap has a free slot.
pub fn has_room(machine: &Machine, plan: &Plan, trap: TrapId) -> bool
    requires machine { Agrees machine.now plan.now }
    requires there { trap.0 < length machine.now.capacities }
    ensures { result ≡ has_room machine.now (state_of plan.now) trap.0 }
{
    let _ops = plan.ops();
    plan.chain(trap).len() < usize::from(machine.capacity(trap))
}

/// Appends the operations that leave the full trap with a free slot and the two kept qubits in their traps:
/// from the trap before the nearest one with a free slot back to this one, each hands a qubit on to the next
/// by a hop. They are no more than the bound of a hop for each other trap. Where memory runs out the plan may
/// have some of them.
pub fn make_room(
    alloc: Global,
    machine: &Machine,
    routes: &Routes,
    plan: &mut Plan,
    trap: TrapId,
    keep: [Qubit; 2],
    mode: Mode,
) -> Result<(), NoMemory>
    requires machine { Agrees machine.now plan.old }
    requires routes { routes.now ≡ wiring_of machine.now }
    requires there { trap.0 < length machine.now.capacities }
    requires free { (free : ℕ) × (has_room machine.now (state_of plan.old) free ≡ true) }
    requires first { (pair_of keep).0.0 < plan.old.qubits }
    requires second { (pair_of keep).1.0 < plan.old.qubits }
    requires two_traps { home (state_of plan.old) (pair_of keep).0 ≢ home (state_of plan.old) (pair_of keep).1 }
    requires outside { NothingOutside (state_of plan.old) }
    requires few { length plan.old.ops + (length machine.now.capacities - 1) * hop_bound machine.now ≤ 4194304 }
    ensures done { OnOk result (plan.new ≡ with_ops plan.old (room_ops machine.now (state_of plan.old) trap.0 (pair_of keep) mode)) }
    ensures makes { MakesRoom machine.now (state_of plan.old) trap.0 (pair_of keep) (room_ops machine.now (state_of plan.old) trap.0 (pair_of keep) mode) }
    ensures few { length (room_ops machine.now (state_of plan.old) trap.0 (pair_of keep) mode) ≤ (length machine.now.capacities - 1) * hop_bound machine.now }
    ensures refused { OnErr result (Continues plan.old plan.new) }
{
    let _traps = machine.traps();
    let _ops = plan.ops();
    match nearest(machine, routes, plan, trap) {
        None => unreachable!(),
        Some(goal) => hand_along(alloc, machine, routes, plan, trap, goal, keep, mode),
    }
}

// The nearest trap with a free slot, of equals the least.
fn nearest(machine: &Machine, routes: &Routes, plan: &Plan, from: TrapId) -> Option<TrapId>
    requires machine { Agrees machine.now plan.now }
    requires routes { routes.now ≡ wiring_of machine.now }
    requires there { from.0 < length machine.now.capacities }
    requires free { (free : ℕ) × (has_room machine.now (state_of plan.now) free ≡ true) }
    ensures { result ≡ option_map trap (nearest machine.now (state_of plan.now) from.0) }
{
    let mut best = None;
    for number in 0..machine.traps() {
        let other = TrapId(number);
        let goal = Goal {
            trap: other,
            distance: routes.distance(from, other),
        };
        best = better(has_room(machine, plan, other), goal, best);
    }
    match best {
        None => None,
        Some(goal) => Some(goal.trap),
    }
}

// A trap with a free slot, and how far it is.
#[derive(Clone, Copy)]
struct Goal {
    trap: TrapId,
    distance: u32,
}

// A trap in place of the best so far, where it has a free slot and is nearer.
fn better(has_room: bool, goal: Goal, best: Option<Goal>) -> Option<Goal>
    ensures { result ≡ better has_room goal best }
{
    match best {
        Some(known) if !has_room || goal.distance >= known.distance => best,
        None if !has_room => best,
        _ => Some(goal),
    }
}

// From the trap before the goal back to this one, each trap of the way hands a qubit on to the next.
fn hand_along(
    alloc: Global,
    machine: &Machine,
    routes: &Routes,
    plan: &mut Plan,
    from: TrapId,
    goal: TrapId,
    keep: [Qubit; 2],
    mode: Mode,
) -> Result<(), NoMemory>
    requires machine { Agrees machine.now plan.old }
    requires routes { routes.now ≡ wiring_of machine.now }
    requires way { LeadsToRoom machine.now (state_of plan.old) from.0 goal.0 }
    requires first { (pair_of keep).0.0 < plan.old.qubits }
    requires second { (pair_of keep).1.0 < plan.old.qubits }
    requires two_traps { home (state_of plan.old) (pair_of keep).0 ≢ home (state_of plan.old) (pair_of keep).1 }
    requires outside { NothingOutside (state_of plan.old) }
    requires few { length plan.old.ops + distance (wiring_of machine.now) from.0 goal.0 * hop_bound machine.now ≤ 4194304 }
    ensures done { OnOk result (plan.new ≡ with_ops plan.old (hands_ops machine.now (state_of plan.old) (pair_of keep) mode (way_to machine.now goal.0 (distance (wiring_of machine.now) from.0 goal.0) from.0))) }
    ensures refused { OnErr result (Continues plan.old plan.new) }
{
    let _traps = machine.traps();
    let _ops = plan.ops();
    match routes.next_hop(from, goal) {
        None => Ok(()),
        Some(next) => {
            hand_along(alloc, machine, routes, plan, next, goal, keep, mode)?;
            hand_on(alloc, machine, routes, plan, from, next, keep, mode)
        }
    }
}

// The trap hands a qubit to its neighbour.
fn hand_on(
    alloc: Global,
    machine: &Machine,
    routes: &Routes,
    plan: &mut Plan,
    from: TrapId,
    to: TrapId,
    keep: [Qubit; 2],
    mode: Mode,
) -> Result<(), NoMemory>
    requires machine { Agrees machine.now plan.old }
    requires routes { routes.now ≡ wiring_of machine.now }
    requires there { from.0 < length machine.now.capacities }
    requires neighbour { are_neighbours (wiring_of machine.now) from.0 to.0 ≡ true }
    requires to { to.0 < length machine.now.capacities }
    requires free { has_room machine.now (state_of plan.old) to.0 ≡ true }
    requires outside { NothingOutside (state_of plan.old) }
    requires few { length plan.old.ops + hop_bound machine.now ≤ 4194304 }
    ensures done { OnOk result (plan.new ≡ with_ops plan.old (hand_ops machine.now (state_of plan.old) (pair_of keep) mode from.0 to.0)) }
    ensures refused { OnErr result (Continues plan.old plan.new) }
{
    let _ops = plan.ops();
    match handed(machine, routes, plan, from, to, keep) {
        None => Ok(()),
        Some(qubit) => hop(alloc, machine, routes, plan, qubit, to, mode),
    }
}

// Of the qubits that are not kept, the one nearest to the end by which a hop to the neighbour leaves.
fn handed(
    machine: &Machine,
    routes: &Routes,
    plan: &Plan,
    from: TrapId,
    to: TrapId,
    keep: [Qubit; 2],
) -> Option<Qubit>
    requires machine { Agrees machine.now plan.now }
    requires routes { routes.now ≡ wiring_of machine.now }
    requires from { from.0 < length machine.now.capacities }
    requires to { to.0 < length machine.now.capacities }
    ensures { result ≡ handed machine.now (state_of plan.now) from.0 to.0 (pair_of keep) }
{
    let _ops = plan.ops();
    let end = end_towards(machine, routes, from, to);
    first_free(plan.chain(from), end, keep)
}

// The end of a trap by which a hop to its neighbour leaves.
fn end_towards(machine: &Machine, routes: &Routes, from: TrapId, to: TrapId) -> End
    requires routes { routes.now ≡ wiring_of machine.now }
    requires from { from.0 < length machine.now.capacities }
    requires to { to.0 < length machine.now.capacities }
    ensures { result ≡ leaving_end machine.now from.0 (unwrap_or (hop_path (wiring_of machine.now) from.0 to.0) []) }
{
    match routes.hop_path(from, to) {
        None => End::Left,
        Some(path) => leaving_end(machine, from, path),
    }
}

// The first qubit from that end that is not kept.
fn first_free(chain: &[Entry], end: End, keep: [Qubit; 2]) -> Option<Qubit>
    ensures { result ≡ first_free (map (λ e. e.qubit) chain.now) end (pair_of keep) }
{
    match end {
        End::Left => first_from_left(chain, keep),
        End::Right => first_from_right(chain, keep),
    }
}

fn first_from_left(chain: &[Entry], keep: [Qubit; 2]) -> Option<Qubit>
    ensures { result ≡ first_free (map (λ e. e.qubit) chain.now) end.Left (pair_of keep) }
{
    for entry in chain {
        if !is_kept(entry.qubit, keep) {
            return Some(entry.qubit);
        }
    }
    None
}

fn first_from_right(chain: &[Entry], keep: [Qubit; 2]) -> Option<Qubit>
    ensures { result ≡ first_free (map (λ e. e.qubit) chain.now) end.Right (pair_of keep) }
{
    for index in (0..chain.len()).rev() {
        let qubit = chain[index].qubit;
        if !is_kept(qubit, keep) {
            return Some(qubit);
        }
    }
    None
}

// Whether the qubit is one of the two.
fn is_kept(qubit: Qubit, keep: [Qubit; 2]) -> bool
    ensures { result ≡ is_kept (pair_of keep) qubit }
{
    qubit.0 == keep[0].0 || qubit.0 == keep[1].0
}
