//! What holds of plans and of cold states. Each function does nothing: its contract is the law.

ghost use Rattle.std.specs.Prelude.{◌≡◌};
ghost use Rattle.qccd_base.specs.declared.names.Res.{Res};
ghost use Rattle.qccd_machine.specs.Machine.{MachineData};
ghost use Rattle.op_table.specs.declared.kinds.OpKind.{OpKind};
ghost use Rattle.op_table.specs.State.{State};
ghost use Rattle.op_table.specs.Contents.{content};
ghost use Rattle.op_table.specs.Step.{effect, why};
ghost use Rattle.op_cells.specs.Cold.{cooled};
ghost use Rattle.op_plan.specs.Cold.{cold};
ghost use Rattle.op_plan.specs.Plan.{Agrees, PlanData, wired};

/// A cold state holds the same, cooled.
pub fn cold_holds_the_same()
    ensures { (s : State) (r : Res) → content (cold s) r ≡ cooled (content s r) }
{}

/// Machines with the plan's wiring tell the same causes of an operation, and it leaves the same state on
/// each of them, whatever their times.
pub fn same_whatever_the_times()
    ensures causes { (m : MachineData) (p : PlanData) (s : State) (op : OpKind) → Agrees m p → why m s op ≡ why (wired p) s op }
    ensures state { (m : MachineData) (p : PlanData) (s : State) (op : OpKind) → Agrees m p → effect m s op ≡ effect (wired p) s op }
{}
