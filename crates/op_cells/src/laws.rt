//! What holds of the definitions. Each function does nothing: its contract is the law.

ghost use Rattle.std.specs.Prelude.{◌≡◌, List};
ghost use Rattle.qccd_base.specs.declared.names.Res.{Res};
ghost use Rattle.qccd_machine.specs.Machine.{MachineData};
ghost use Rattle.op_table.specs.State.{State};
ghost use Rattle.op_cells.specs.declared.cells.Cell.{Cell};
ghost use Rattle.op_cells.specs.Kinds.{place_of};
ghost use Rattle.op_cells.specs.Numbering.{index_of};
ghost use Rattle.op_cells.specs.Shows.{Shows};

/// In cells that show a state of a machine each resource has the place that the machine gives it.
pub fn in_order()
    ensures { (m : MachineData) (s : State) (cells : List Cell) (r : Res) → Shows m s cells → place_of cells r ≡ index_of m r }
{}
