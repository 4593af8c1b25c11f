//! Laws of the definitions: each function's contract is the law, and its body is empty.

ghost use Rattle.std.specs.Prelude.{◌≡◌, ℕ, ◌+◌, ◌<◌, ◌≤◌, List, length, All};
ghost use Rattle.qccd_base.specs.declared.times.Times.{Times};
ghost use Rattle.qccd_base.specs.Times.{times_of};
ghost use Rattle.time_heat.specs.declared.work.Work.{Work};
ghost use Rattle.time_heat.specs.declared.work.Work.TheVariants.{Split, Merge, Move, Cross, Rot};
ghost use Rattle.time_heat.specs.Duration.{duration_of, ions_inside};
ghost use Rattle.time_heat.specs.Heat.{split_ion_heat, split_trap_heat, merged_heat, rotated_heat, moved_heat, entered_heat};
ghost use Rattle.time_heat.specs.Sums.{time_of_all, heating, heating_of_all};

/// Where each of the times is a second at most, and no more than 30 ions stand between the two of
/// a gate, no step takes more than 93 seconds.
pub fn longest_step()
    ensures { (t : Times) (work : Work) → All (λ n. n ≤ 1000000) (times_of t) → ions_inside work ≤ 30
        → duration_of t work ≤ 93000000 }
{}

/// The greatest program has 4,194,304 operations. With such times its operations take less than
/// 4 * 10^14 microseconds, even one after another.
pub fn longest_program()
    ensures { (t : Times) (works : List Work) → All (λ n. n ≤ 1000000) (times_of t)
        → All (λ work. ions_inside work ≤ 30) works → length works ≤ 4194304 → time_of_all t works < 400000000000000 }
{}

/// By what each step raises the sum of the heats that it changes.
pub fn heat_of_steps()
    ensures split { (H n : ℕ) → 0 < n → split_ion_heat H n + split_trap_heat H n ≡ H + heating Split }
    ensures merge { (H h : ℕ) → merged_heat H h ≡ H + h + heating Merge }
    ensures move_ { (h : ℕ) → moved_heat h ≡ h + heating Move }
    ensures enter { (h degree : ℕ) → entered_heat h ≡ h + heating (Cross degree) }
    ensures rot { (H : ℕ) → rotated_heat H ≡ H + heating Rot }
{}

/// What the operations of the greatest program heat adds up to less than 10^10 thousandths.
pub fn hottest_program()
    ensures { (works : List Work) → length works ≤ 4194304 → heating_of_all works < 10000000000 }
{}
