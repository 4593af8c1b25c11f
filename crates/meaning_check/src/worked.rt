//! Worked examples of verdicts. Each function does nothing: its contract is the example.

ghost use Rattle.meaning_check.specs.Example.{four_gates, in_one_trap, in_order, on_three, other_qubit, out_of_order, two_missing, two_others};
ghost use Rattle.meaning_check.specs.Verdict.{IsVerdict};
ghost use Rattle.meaning_check.specs.declared.verdict.Verdict.TheVariants.{Differs, Missing, Order, Same, Sizes};

/// Gates that do not share may change places.
pub fn gates_apart_change_places()
    ensures { IsVerdict four_gates (in_one_trap in_order) Same }
{}

/// Of two items that stand before smaller ones that share with them the first is told, and of the smaller
/// ones the least, though another stands nearer.
pub fn the_first_and_the_least()
    ensures { IsVerdict four_gates (in_one_trap out_of_order) (Order 0 3) }
{}

/// Of two items that are missing the lesser is told, and before any order.
pub fn missing_before_order()
    ensures { IsVerdict four_gates (in_one_trap two_missing) (Missing 1) }
{}

/// Of two operations that differ the first is told, and before what is missing.
pub fn differing_before_missing()
    ensures number { IsVerdict four_gates (in_one_trap two_others) (Differs 1 9) }
    ensures item { IsVerdict four_gates (in_one_trap other_qubit) (Differs 0 1) }
{}

/// Other sizes are told before all else.
pub fn sizes_before_all()
    ensures { IsVerdict on_three (in_one_trap two_others) Sizes }
{}
