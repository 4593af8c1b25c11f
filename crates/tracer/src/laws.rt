//! What holds of every program. Each function does nothing: its contract is the law.

ghost use Rattle.std.specs.Prelude.{◌≡◌, length, map};
ghost use Rattle.qccd_machine.specs.Machine.{IsValid};
ghost use Rattle.std.specs.List.{enumerate_from};
ghost use Rattle.op_table.specs.Clock.{timed};
ghost use Rattle.op_table.specs.Run.{IsRun, after};
ghost use Rattle.qccd_program.specs.Legal.{IsLegalProgram};
ghost use Rattle.qccd_program.specs.Program.{ProgramData, opening_of, end_of};
ghost use Rattle.op_text.specs.OpText.{op_text};
ghost use Rattle.tracer.specs.ItemOrder.{KeepsItemOrder};
ghost use Rattle.tracer.specs.Order.{Alike};
ghost use Rattle.tracer.specs.ReadOff.{AreLines, SameSizes};
ghost use Rattle.tracer.specs.Report.{report_text};
ghost use Rattle.tracer.specs.TimeOrder.{listed_ops, time_order, KeepsBoundsListed, KeepsOpOrder};

/// The operations of a program in the order of time are all its operations, each once with its number and times,
/// and a run too. It ends in the same state, keeps every bound, and keeps the order of each two operations that
/// share a resource and of each two items that share an operand.
pub fn listed_order()
    ensures all { (p : ProgramData) → Alike (time_order p) (enumerate_from 0 (timed p.machine p.ops)) }
    ensures run { (p : ProgramData) → IsLegalProgram p → IsRun p.machine (opening_of p) (listed_ops p) }
    ensures end { (p : ProgramData) → IsLegalProgram p → after p.machine (opening_of p) (listed_ops p) ≡ end_of p }
    ensures bounds { (p : ProgramData) → IsLegalProgram p → KeepsBoundsListed p }
    ensures ops { (p : ProgramData) → KeepsOpOrder (time_order p) }
    ensures items { (p : ProgramData) → IsLegalProgram p → KeepsItemOrder p.ops (listed_ops p) }
{}

/// Two programs with one report have the same sizes, the same start chains and as many operations. The texts of
/// their operations are the same, each in its place, where each text stands in one line.
pub fn equal_reports()
    ensures sizes { (p q : ProgramData) → IsLegalProgram p → IsLegalProgram q → IsValid p.machine → IsValid q.machine → report_text p ≡ report_text q → SameSizes p q }
    ensures start { (p q : ProgramData) → IsLegalProgram p → IsLegalProgram q → IsValid p.machine → IsValid q.machine → report_text p ≡ report_text q → p.start ≡ q.start }
    ensures count { (p q : ProgramData) → IsLegalProgram p → IsLegalProgram q → IsValid p.machine → IsValid q.machine → report_text p ≡ report_text q → length p.ops ≡ length q.ops }
    ensures ops { (p q : ProgramData) → IsLegalProgram p → IsLegalProgram q → IsValid p.machine → IsValid q.machine → AreLines p.ops → AreLines q.ops → report_text p ≡ report_text q → map op_text p.ops ≡ map op_text q.ops }
{}
