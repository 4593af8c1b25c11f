//! A qubit hops to a neighbouring trap.

ghost use Rattle.std.specs.Prelude.{◌≡◌, ◌≤◌, ◌<◌, ◌+◌, ◌*◌, ◌∷◌, [], All, OnErr, OnOk, Some, length, map, true};
ghost use Rattle.qccd_base.specs.Resource.{same_res};
ghost use Rattle.qccd_machine.specs.Machine.{hop_bound, site};
ghost use Rattle.op_table.specs.Op.{IsOp};
ghost use Rattle.op_table.specs.Run.{IsRun};
ghost use Rattle.op_table.specs.declared.kinds.OpKind.TheVariants as kind;
ghost use Rattle.op_plan.specs.Place.{home, trap_of};
ghost use Rattle.op_plan.specs.Plan.{state_of, wired, with_ops, Agrees, Continues};
ghost use Rattle.router.specs.Hops.{are_neighbours};
ghost use Rattle.router.specs.Paths.{way_along};
ghost use Rattle.router.specs.Wiring.{wiring_of};
ghost use Rattle.rebalancer.specs.Hop.{along, arrive_by, crossing, hop_along, hop_ops, leave_by, leaving_end};
ghost use Rattle.rebalancer.specs.Moves.{Moves};
ghost use Rattle.rebalancer.specs.Outside.{NothingOutside};
ghost use Rattle.rebalancer.specs.Room.{has_room};

use chain_reorder::to_end;
use op_plan::Plan;
use op_table::OpKind;
use qccd_base::{End, Mode, NoMemory, Qubit, Res, SegId, TrapId};
use qccd_machine::{Machine, Place};
use router::Routes;
use std::alloc::Global;

/// Appends the operations that take the qubit to a neighbouring trap: it goes to the end of its chain, is
/// split off, moved along each segment of the hop's path, taken through each junction, and merged. They are
/// no more than the bound for a hop, each other qubit stays in its trap, and nothing is left outside the traps.
/// Where memory runs out the plan may have some of them.
pub fn hop(
    alloc: Global,
    machine: &Machine,
    routes: &Routes,
    plan: &mut Plan,
    qubit: Qubit,
    to: TrapId,
    mode: Mode,
) -> Result<(), NoMemory>
    requires machine { Agrees machine.now plan.old }
    requires routes { routes.now ≡ wiring_of machine.now }
    requires there { qubit.0 < plan.old.qubits }
    requires outside { NothingOutside (state_of plan.old) }
    requires neighbour { are_neighbours (wiring_of machine.now) (trap_of (state_of plan.old) qubit) to.0 ≡ true }
    requires free { has_room machine.now (state_of plan.old) to.0 ≡ true }
    requires few { length plan.old.ops + hop_bound machine.now ≤ 4194304 }
    ensures done { OnOk result (plan.new ≡ with_ops plan.old (hop_ops machine.now (state_of plan.old) qubit to.0 mode)) }
    ensures moves { Moves machine.now (state_of plan.old) qubit to.0 (hop_ops machine.now (state_of plan.old) qubit to.0 mode) }
    ensures few { length (hop_ops machine.now (state_of plan.old) qubit to.0 mode) ≤ hop_bound machine.now }
    ensures refused { OnErr result (Continues plan.old plan.new) }
{
    let _traps = machine.traps();
    let _ops = plan.ops();
    match plan.place_of(qubit) {
        None => unreachable!(),
        Some((from, _)) => match routes.hop_path(from, to) {
            None => unreachable!(),
            Some(path) => hop_along(alloc, machine, plan, qubit, from, path, mode),
        },
    }
}

// The qubit goes to the end of its chain by which the path leaves, and along the path.
fn hop_along(
    alloc: Global,
    machine: &Machine,
    plan: &mut Plan,
    qubit: Qubit,
    from: TrapId,
    path: &[SegId],
    mode: Mode,
) -> Result<(), NoMemory>
    requires machine { Agrees machine.now plan.old }
    requires there { qubit.0 < plan.old.qubits }
    requires outside { NothingOutside (state_of plan.old) }
    requires stands { home (state_of plan.old) qubit ≡ Some from }
    requires segments { All (λ g. g.0 < length machine.now.segments) path.now }
    requires short { length path.now ≤ machine.now.junctions + 1 }
    requires few { length plan.old.ops + hop_bound machine.now ≤ 4194304 }
    requires run { IsRun (wired plan.old) (state_of plan.old) (hop_along machine.now (state_of plan.old) qubit mode from.0 (map (λ g. g.0) path.now)) }
    ensures done { OnOk result (plan.new ≡ with_ops plan.old (hop_along machine.now (state_of plan.old) qubit mode from.0 (map (λ g. g.0) path.now))) }
    ensures refused { OnErr result (Continues plan.old plan.new) }
{
    let _ops = plan.ops();
    let end = leaving_end(machine, from, path);
    to_end(alloc, machine, plan, from, qubit, end, mode)?;
    go_along(alloc, machine, plan, Res::Trap(from), path)
}

/// The end of the trap by which the first segment of a path leaves.
pub(crate) fn leaving_end(machine: &Machine, trap: TrapId, path: &[SegId]) -> End
    requires { All (λ g. g.0 < length machine.now.segments) path.now }
    ensures { result ≡ leaving_end machine.now trap.0 (map (λ g. g.0) path.now) }
{
    match path.first() {
        None => End::Left,
        Some(seg) => match way_along(machine, Res::Trap(trap), *seg) {
            Some((Place::TrapEnd(_, end), _)) => end,
            _ => End::Left,
        },
    }
}

// Along each segment in turn, from a trap or a junction.
fn go_along(
    alloc: Global,
    machine: &Machine,
    plan: &mut Plan,
    from: Res,
    path: &[SegId],
) -> Result<(), NoMemory>
    requires machine { Agrees machine.now plan.old }
    requires segments { All (λ g. g.0 < length machine.now.segments) path.now }
    requires few { length plan.old.ops + 3 * length path.now ≤ 4194304 }
    requires run { IsRun (wired plan.old) (state_of plan.old) (along machine.now (map (λ g. g.0) path.now) from) }
    ensures done { OnOk result (plan.new ≡ with_ops plan.old (along machine.now (map (λ g. g.0) path.now) from)) }
    ensures refused { OnErr result (Continues plan.old plan.new) }
{
    let mut at = from;
    for seg in path {
        match way_along(machine, at, *seg) {
            None => return Ok(()),
            Some((near, far)) => {
                cross(alloc, machine, plan, *seg, near, far)?;
                at = site(far);
            }
        }
    }
    Ok(())
}

// A segment as it is gone along from a trap or a junction: the place at this end, and that at the other.
fn way_along(machine: &Machine, from: Res, seg: SegId) -> Option<(Place, Place)>
    requires { seg.0 < length machine.now.segments }
    ensures { result ≡ way_along (wiring_of machine.now) from seg.0 }
{
    let (near, far) = machine.ends(seg);
    if is_at(near, from) {
        Some((near, far))
    } else if is_at(far, from) {
        Some((far, near))
    } else {
        None
    }
}

// Whether the place is at this trap or junction.
fn is_at(place: Place, at: Res) -> bool
    ensures { result ≡ same_res (site place) at }
{
    match (place, at) {
        (Place::TrapEnd(trap, _), Res::Trap(other)) => trap.0 == other.0,
        (Place::Junction(junction), Res::Junc(other)) => junction.0 == other.0,
        _ => false,
    }
}

// The trap or the junction of a place.
fn site(place: Place) -> Res
    ensures { result ≡ site place }
{
    match place {
        Place::TrapEnd(trap, _) => Res::Trap(trap),
        Place::Junction(junction) => Res::Junc(junction),
    }
}

// Onto a segment from the place at one end of it, to its other end, and off it to the place there.
fn cross(
    alloc: Global,
    machine: &Machine,
    plan: &mut Plan,
    seg: SegId,
    near: Place,
    far: Place,
) -> Result<(), NoMemory>
    requires machine { Agrees machine.now plan.old }
    requires few { length plan.old.ops + 3 ≤ 4194304 }
    requires run { IsRun (wired plan.old) (state_of plan.old) (crossing seg.0 near far) }
    ensures done { OnOk result (plan.new ≡ with_ops plan.old (crossing seg.0 near far)) }
    ensures refused { OnErr result (Continues plan.old plan.new) }
{
    plan.append(alloc, machine, leave_by(seg, near))?;
    plan.append(alloc, machine, OpKind::Move { seg })?;
    plan.append(alloc, machine, arrive_by(seg, far))
}

fn leave_by(seg: SegId, place: Place) -> OpKind
    ensures value { result ≡ leave_by seg.0 place }
    ensures is_op { IsOp result }
{
    match place {
        Place::TrapEnd(trap, end) => OpKind::Split { trap, end, seg },
        Place::Junction(junc) => OpKind::Leave { junc, seg },
    }
}

fn arrive_by(seg: SegId, place: Place) -> OpKind
    ensures value { result ≡ arrive_by seg.0 place }
    ensures is_op { IsOp result }
{
    match place {
        Place::TrapEnd(trap, end) => OpKind::Merge { seg, trap, end },
        Place::Junction(junc) => OpKind::Enter { seg, junc },
    }
}
