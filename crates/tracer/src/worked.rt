//! Worked examples over the definitions, each a function whose contract is the fact.

ghost use Rattle.std.specs.Prelude.{◌≡◌, ◌∷◌, [], codes, map};
ghost use Rattle.qccd_base.specs.Line.{line};
ghost use Rattle.op_table.specs.State.{is_on_segment, is_in_junction};
ghost use Rattle.tracer.specs.Report.{counts_line, end_line, report_text, stray_lines};
ghost use Rattle.tracer.specs.Bell.{bell, bell_report};
ghost use Rattle.tracer.specs.Scattered.{scattered};
ghost use Rattle.tracer.specs.Summary.{summary_text};
ghost use Rattle.tracer.specs.TimeOrder.{time_order};
ghost use Rattle.tracer.specs.Transported.{by_qubits, gates_in_turn, ion_lines, lines, of_all_kinds, qubit_lines, timeless};
ghost use Rattle.qccd_program.specs.Example.{two_gates_and_one};

/// The report of the Bell pair on one trap, byte by byte.
pub fn bell_pair()
    ensures { report_text bell ≡ bell_report }
{}

/// The lines of ions that are left outside the traps: the place, on a segment also the end at which
/// the ion stands, the ion's heat and its qubit. A segment with no ion has no line.
pub fn left_outside_traps()
    ensures end_a { stray_lines scattered (is_on_segment 13) ≡ line (codes "end S13 a heat 233 1:q3") }
    ensures end_b { stray_lines scattered (is_on_segment 0) ≡ line (codes "end S0 b heat 100 2:q0") }
    ensures junction { stray_lines scattered (is_in_junction 2) ≡ line (codes "end J2 heat 250 0:q1") }
    ensures empty { stray_lines scattered (is_on_segment 1) ≡ [] }
    ensures trap { end_line scattered 0 ≡ line (codes "end T0 heat 400 3:q2") }
{}

/// The reports of two programs that bring an ion to another trap: with exchanges of ions, and with one exchange
/// of qubits.
pub fn brought_to_another_trap()
    ensures ions { report_text two_gates_and_one ≡ lines ion_lines }
    ensures qubits { report_text by_qubits ≡ lines qubit_lines }
{}

/// Each kind is counted in its own column.
pub fn counts_of_all_kinds()
    ensures { counts_line of_all_kinds ≡ line (codes "counts split 2 merge 3 move 5 enter 4 leave 1 rot 6 gswap 8 gate1 7 gate2 9 measure 11 reset 12 fence 10") }
{}

/// The operations stand by start, then by number: where gates take 5 microseconds, those of the second trap come
/// between those of the first; where they take none, all start at once.
pub fn by_start_then_by_number()
    ensures times { map (λ e. e.0) (time_order gates_in_turn) ≡ 0 ∷ 2 ∷ 1 ∷ 3 ∷ 4 ∷ [] }
    ensures none { map (λ e. e.0) (time_order timeless) ≡ 0 ∷ 1 ∷ 2 ∷ 3 ∷ 4 ∷ [] }
{}

/// The summary of a program: its heat is that of all traps.
pub fn summary_of_eight_operations()
    ensures { summary_text two_gates_and_one 7 3 ≡ lines (codes "rehearsal 7 qubits 4 items 3 ops 8"
        ∷ codes "counts split 1 merge 1 move 1 enter 0 leave 0 rot 2 gswap 0 gate1 1 gate2 2 measure 0 reset 0 fence 0"
        ∷ codes "heat 710" ∷ codes "finish 770" ∷ []) }
{}
