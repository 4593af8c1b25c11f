//! Programs that are legal by their type.

ghost use Rattle.std.specs.Prelude.{◌≡◌, ◌<◌, IfOk, Some, length, slice_get};
ghost use Rattle.qccd_base.specs.declared.names.Res.{Res};
ghost use Rattle.qccd_machine.specs.Machine.{IsValid};
ghost use Rattle.op_table.specs.declared.kinds.OpKind.{OpKind};
ghost use Rattle.op_table.specs.Touch.{touches, nth};
ghost use Rattle.qccd_program.specs.AllCells.{AtStep};
ghost use Rattle.qccd_program.specs.CellOfRun.{firsts};
ghost use Rattle.qccd_program.specs.Legal.{IsLegalProgram};
ghost use Rattle.qccd_program.specs.Program.{program_data};
ghost use Rattle.qccd_program.specs.Turns.{Counts};

use crate::first_cells::first_cells;
use crate::turn_table::{TurnTable, turn_table};
use op_cells::Cells;
use op_table::Op;
use qccd_base::{Ion, IonList, Mode, NoMemory, TrapId};
use qccd_machine::Machine;
use std::alloc::Global;
use std::marker::Model;

/// A transport program: operations on a machine that are a run from its start chains.
#[derive(Debug, Drop)]
pub struct Program {
    machine: Machine,
    qubits: u16,
    bits: u16,
    mode: Option<Mode>,
    start: Vec<IonList>,
    ops: Vec<Op>,
    table: TurnTable,
}

impl Model for Program {
    ghost use Rattle.std.specs.Prelude.{length};
    ghost use Rattle.qccd_program.specs.Legal.{IsLegalProgram};
    ghost use Rattle.qccd_program.specs.Program.{ProgramData, program_data};
    ghost use Rattle.qccd_program.specs.CellOfRun.{firsts};
    ghost use Rattle.qccd_program.specs.Turns.{Counts, HasTurns};

    ghost Value = { ProgramData };

    ghost view = { λ a. program_data a.machine a.qubits a.bits a.mode a.start.items a.ops.items };

    ghost invariant = { λ a. IsLegalProgram (program_data a.machine a.qubits a.bits a.mode a.start.items a.ops.items) × HasTurns a.ops.items (length a.ops.items) a.table.starts.items a.table.turns.items × Counts a.machine a.bits (firsts a.ops.items) a.table.rooms.items };
}

impl Program {
    /// The program of these parts, which are legal.
    pub fn of(
        alloc: Global,
        machine: Machine,
        qubits: u16,
        bits: u16,
        mode: Option<Mode>,
        start: Vec<IonList>,
        ops: Vec<Op>,
    ) -> Result<Program, NoMemory>
        requires legal { IsLegalProgram (program_data machine qubits bits mode start.items ops.items) }
        ensures { IfOk result (λ p. p ≡ program_data machine qubits bits mode start.items ops.items) }
    {
        let table = turn_table(alloc, &machine, bits, ops.as_slice())?;
        Ok(Program {
            machine,
            qubits,
            bits,
            mode,
            start,
            ops,
            table,
        })
    }

    /// The machine.
    pub fn machine(&self) -> &Machine
        ensures value { result.now ≡ self.now.machine }
        ensures valid { IsValid self.now.machine }
    {
        let _traps = self.machine.traps();
        &self.machine
    }

    /// How many qubits there are.
    pub fn qubits(&self) -> u16
        ensures { result ≡ self.now.qubits }
    {
        self.qubits
    }

    /// How many bits there are.
    pub fn bits(&self) -> u16
        ensures { result ≡ self.now.bits }
    {
        self.bits
    }

    /// The mode that the program names: of its operations none is of the other mode. Without one it may have
    /// operations of both.
    pub fn mode(&self) -> Option<Mode>
        ensures { result ≡ self.now.mode }
    {
        self.mode
    }

    /// The ions of the trap before the first operation, from left to right.
    pub fn start(&self, t: TrapId) -> &[Ion]
        requires there { t.0 < length self.now.machine.capacities }
        ensures { slice_get self.now.start t.0 ≡ Some result.now }
    {
        self.start[usize::from(t.0)].as_slice()
    }

    /// The operations, in order.
    pub fn ops(&self) -> &[Op]
        ensures value { result.now ≡ self.now.ops }
        ensures legal { IsLegalProgram self.now }
    {
        self.ops.as_slice()
    }

    /// How many operations before operation k touch the i-th of the resources that it touches.
    pub fn nth(&self, k: u32, i: usize) -> u32
        requires there { (op : OpKind) × (r : Res) × (slice_get self.now.ops k ≡ Some op) × (slice_get (touches op) i ≡ Some r) }
        ensures { (op : OpKind) (r : Res) → slice_get self.now.ops k ≡ Some op → slice_get (touches op) i ≡ Some r → result ≡ nth self.now.ops k r }
    {
        let from = self.table.starts[k as usize];
        self.table.turns[from as usize + i]
    }

    /// Of how many operations each resource is the first.
    pub(crate) fn rooms(&self) -> &[u32]
        ensures { Counts self.now.machine self.now.bits (firsts self.now.ops) result.now }
    {
        self.table.rooms.as_slice()
    }

    /// The machine, the start chains and the operations. It takes no memory.
    pub fn into_parts(self) -> (Machine, Vec<IonList>, Vec<Op>)
        ensures machine { result.0 ≡ self.machine }
        ensures start { result.1.items ≡ self.start }
        ensures ops { result.2.items ≡ self.ops }
    {
        (self.machine, self.start, self.ops)
    }

    /// The cells before the first operation, with room in their logs for the whole run.
    pub fn first_cells(&self, alloc: Global) -> Result<Cells, NoMemory>
        ensures { IfOk result (λ cells. AtStep self.now 0 cells) }
    {
        first_cells(alloc, self)
    }
}
