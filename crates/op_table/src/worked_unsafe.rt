//! States on a machine with a junction that break one bound of a safe state and no other. Each function does
//! nothing: its contract is the fact.

ghost use Rattle.std.specs.Prelude.{◌∷◌, []};
ghost use Rattle.qccd_base.specs.declared.names.SegEnd.TheVariants.{A, B};
ghost use Rattle.op_table.specs.Crossing.{holding, ion_at, three_ways};
ghost use Rattle.op_table.specs.State.{InTrap, InJunction, IsSafe, OnSegment};

/// There are heats for two of three traps.
pub fn heat_missing()
    ensures { IsSafe three_ways (record (holding []) { heats = 0 ∷ 0 ∷ [] }) → ⊥ }
{}

/// A trap of two holds three ions, or an ion is in a trap that is not there.
pub fn over_capacity()
    ensures three_in_two { IsSafe three_ways (holding (ion_at (InTrap 1 0) 0 ∷ ion_at (InTrap 1 1) 1 ∷ ion_at (InTrap 1 2) 2 ∷ [])) → ⊥ }
    ensures no_trap { IsSafe three_ways (holding (ion_at (InTrap 3 0) 0 ∷ [])) → ⊥ }
{}

/// Two ions of a trap have the same index, or the first index has no ion.
pub fn wrong_indexes()
    ensures twice { IsSafe three_ways (holding (ion_at (InTrap 0 0) 0 ∷ ion_at (InTrap 0 0) 1 ∷ [])) → ⊥ }
    ensures gap { IsSafe three_ways (holding (ion_at (InTrap 0 1) 0 ∷ [])) → ⊥ }
{}

/// A segment holds two ions, one at each end, or an ion is on a segment that is not there.
pub fn full_segment()
    ensures two { IsSafe three_ways (holding (ion_at (OnSegment 0 A 0) 0 ∷ ion_at (OnSegment 0 B 0) 1 ∷ [])) → ⊥ }
    ensures no_segment { IsSafe three_ways (holding (ion_at (OnSegment 4 A 0) 0 ∷ [])) → ⊥ }
{}

/// The junction holds two ions, or an ion is in a junction that is not there.
pub fn full_junction()
    ensures two { IsSafe three_ways (holding (ion_at (InJunction 0 0) 0 ∷ ion_at (InJunction 0 0) 1 ∷ [])) → ⊥ }
    ensures no_junction { IsSafe three_ways (holding (ion_at (InJunction 1 0) 0 ∷ [])) → ⊥ }
{}

/// Two ions carry the same qubit, and then another is carried by none.
pub fn qubit_twice()
    ensures { IsSafe three_ways (holding (ion_at (InTrap 0 0) 0 ∷ ion_at (InTrap 0 1) 0 ∷ [])) → ⊥ }
{}
