//! Plans: operations with the places and bindings that they leave.

ghost use Rattle.std.specs.Prelude.{◌≡◌, ◌<◌, ◌∷◌, [], length, None, IfOk, OnErr, OnOk};
ghost use Rattle.std.specs.Result.{result_err};
ghost use Rattle.op_table.specs.Contents.{chain};
ghost use Rattle.op_table.specs.Op.{IsOp};
ghost use Rattle.op_table.specs.Run.{IsRun};
ghost use Rattle.op_table.specs.Start.{IsStart};
ghost use Rattle.op_table.specs.Step.{why};
ghost use Rattle.op_plan.specs.Place.{home, stands_in};
ghost use Rattle.op_plan.specs.Plan.{begun, state_of, wired, with_ops, Agrees, IsPlan};

use crate::moving::follow;
use crate::opening::{
    capacities_of, copied, opening_cells, opening_homes, opening_seats, segments_of,
};
use crate::reading::{chain_at, home_at, place_at, seat_of};
use op_cells::{Cells, legal};
use op_table::{Entry, Op, OpKind, OpShelf, Why};
use qccd_base::{IonList, NoMemory, Qubit, TrapId};
use qccd_machine::{Machine, Place};
use std::alloc::Global;
use std::marker::Model;

/// Operations on machines of one wiring that are a run from their start chains, and where they leave each
/// ion and qubit. No clock, heat or log is kept.
#[derive(Debug, Drop)]
pub struct Plan {
    capacities: Vec<u8>,
    junctions: u8,
    segments: Vec<(Place, Place)>,
    qubits: u16,
    bits: u16,
    start: Vec<IonList>,
    ops: Vec<Op>,
    // what each resource holds, always cold
    cells: Cells,
    // for each qubit the trap in which it stands
    homes: Vec<Option<TrapId>>,
    // for each qubit the position at which it is looked for first
    seats: Vec<usize>,
    // the operations made before, so that equal ones are one
    shelf: OpShelf,
}

impl Model for Plan {
    ghost use Rattle.op_plan.specs.Kept.{Keeps};
    ghost use Rattle.op_plan.specs.Plan.{PlanData, plan_data};

    ghost Value = { PlanData };

    ghost view = { λ a. plan_data a.capacities.items a.junctions a.segments.items a.qubits a.bits a.start.items a.ops.items };

    ghost invariant = { λ a. Keeps (plan_data a.capacities.items a.junctions a.segments.items a.qubits a.bits a.start.items a.ops.items) a.cells a.homes.items };
}

impl Plan {
    /// The plan of the machine's start chains, with no operation yet.
    pub fn begin(
        alloc: Global,
        machine: &Machine,
        qubits: u16,
        bits: u16,
        chains: &[IonList],
    ) -> Result<Plan, NoMemory>
        requires { IsStart machine.now qubits chains.now }
        ensures { IfOk result (λ plan. plan ≡ begun machine.now qubits bits chains.now) }
    {
        Plan::with_room(alloc, machine, qubits, bits, chains, 0)
    }

    /// The same plan, begun with room for so many operations.
    pub fn with_room(
        alloc: Global,
        machine: &Machine,
        qubits: u16,
        bits: u16,
        chains: &[IonList],
        room: usize,
    ) -> Result<Plan, NoMemory>
        requires { IsStart machine.now qubits chains.now }
        ensures { IfOk result (λ plan. plan ≡ begun machine.now qubits bits chains.now) }
    {
        let _traps = machine.traps();
        let capacities = capacities_of(alloc, machine)?;
        let segments = segments_of(alloc, machine)?;
        let start = copied(alloc, chains)?;
        let cells = opening_cells(alloc, machine, bits, chains)?;
        let homes = opening_homes(alloc, machine, qubits, chains)?;
        let seats = opening_seats(alloc, qubits, chains)?;
        let ops = Vec::with_capacity(alloc, room)?;
        let shelf = OpShelf::of(alloc)?;
        Ok(Plan {
            capacities,
            junctions: machine.junctions(),
            segments,
            qubits,
            bits,
            start,
            ops,
            cells,
            homes,
            seats,
            shelf,
        })
    }

    /// Appends a legal operation, with what it leaves. Where memory runs out the plan stays as it was.
    #[inline(always)]
    pub fn emit(&mut self, machine: &Machine, op: Op) -> Result<(), NoMemory>
        requires machine { Agrees machine.now self.old }
        requires few { length self.old.ops < 4194304 }
        requires legal { why machine.now (state_of self.old) op ≡ None }
        ensures done { OnOk result (self.new ≡ with_ops self.old (op ∷ [])) }
        ensures refused { OnErr result (self.new ≡ self.old) }
    {
        // Room is made first: then the operation is followed while its kind is known, and moved once.
        self.ops.reserve(1)?;
        follow(machine, &op, &mut self.cells, &mut self.homes);
        self.ops.push_reserved(op);
        Ok(())
    }

    /// Appends an operation of this kind that is legal next, with what it leaves. Where an equal one that moves
    /// ions was made before, that one is shared. Where memory runs out the plan stays as it was.
    #[inline(always)]
    pub fn append(&mut self, alloc: Global, machine: &Machine, kind: OpKind) -> Result<(), NoMemory>
        requires machine { Agrees machine.now self.old }
        requires few { length self.old.ops < 4194304 }
        requires is_op { IsOp kind }
        requires run { IsRun (wired self.old) (state_of self.old) (kind ∷ []) }
        ensures done { OnOk result (self.new ≡ with_ops self.old (kind ∷ [])) }
        ensures refused { OnErr result (self.new ≡ self.old) }
    {
        let op = self.shelf.op(alloc, kind)?;
        self.emit(machine, op)
    }

    /// Whether the operation is legal after those of the plan, and if not, why: the cause that stands first
    /// in `Why`. It takes no memory.
    pub fn legal(&self, machine: &Machine, op: &Op) -> Result<(), Why>
        requires { Agrees machine.now self.now }
        ensures { result_err result ≡ why machine.now (state_of self.now) op.now }
    {
        let _kind = op.kind();
        legal(machine, op, &self.cells)
    }

    /// The operations, in order.
    pub fn ops(&self) -> &[Op]
        ensures value { result.now ≡ self.now.ops }
        ensures is_plan { IsPlan self.now }
    {
        self.ops.as_slice()
    }

    /// Hands out the operations, in order. It takes no memory.
    pub fn into_ops(self) -> Vec<Op>
        ensures { result.items ≡ self.ops }
    {
        self.ops
    }

    /// The ions of the trap with their qubits, from left to right.
    pub fn chain(&self, t: TrapId) -> &[Entry]
        requires { t.0 < length self.now.capacities }
        ensures { result.now ≡ chain (state_of self.now) t.0 }
    {
        chain_at(&self.cells, t)
    }

    /// The trap in which the qubit stands, or `None` while its ion is in no trap. No chain is searched.
    pub fn home_of(&self, q: Qubit) -> Option<TrapId>
        requires { q.0 < self.now.qubits }
        ensures { result ≡ home (state_of self.now) q }
    {
        home_at(&self.cells, self.homes.as_slice(), q)
    }

    /// The trap in which the qubit stands and its position there, or `None` while its ion is in no trap.
    pub fn place_of(&self, q: Qubit) -> Option<(TrapId, u8)>
        requires { q.0 < self.now.qubits }
        ensures { result ≡ stands_in (state_of self.now) q }
    {
        let seat = seat_of(self.seats.as_slice(), q);
        place_at(&self.cells, self.homes.as_slice(), seat, q)
    }
}
