//! Cases worked out by hand: each function's contract is a fact by computation, and its body is
//! empty.

ghost use Rattle.std.specs.Prelude.{◌≡◌, ◌+◌, ◌-◌};
ghost use Rattle.time_heat.specs.Heat.{split_ion_heat, split_trap_heat};

/// A chain of three ions has a heat of 400, and an ion is split off: it takes 133, a third
/// rounded down, and the trap keeps the rest. The split adds 100 to each.
pub fn split_of_three()
    ensures ion { split_ion_heat 400 3 ≡ 133 + 100 }
    ensures trap { split_trap_heat 400 3 ≡ 400 - 133 + 100 }
{}
