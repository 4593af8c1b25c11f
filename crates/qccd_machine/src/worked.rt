//! Worked examples over the definitions, each a function whose contract is the fact.

ghost use Rattle.std.specs.Prelude.{length, ℕ, ◌<◌, ◌≡◌, [], ◌∷◌};
ghost use Rattle.qccd_base.specs.Names.{junction, segment, trap};
ghost use Rattle.qccd_base.specs.declared.names.JuncId.{JuncId};
ghost use Rattle.qccd_base.specs.declared.names.Res.TheVariants as res;
ghost use Rattle.qccd_base.specs.declared.names.TrapId.{TrapId};
ghost use Rattle.qccd_machine.specs.declared.fault.MachineFault.TheVariants as fault;
ghost use Rattle.qccd_machine.specs.declared.fault.PartKind.TheVariants as part;
ghost use Rattle.qccd_machine.specs.declared.place.Preset.{Preset};
ghost use Rattle.qccd_machine.specs.Fault.{Applies, IsFirst, IsToldBefore};
ghost use Rattle.qccd_machine.specs.Faulty.{two_traps};
ghost use Rattle.qccd_machine.specs.Machine.{IsReached, IsValid, degree_of, slots_of, worst_of};
ghost use Rattle.qccd_machine.specs.Line.{line, stray};
ghost use Rattle.qccd_machine.specs.Preset.{at_junction, at_left, at_right, preset_of};

/// A line of 32 traps that hold two ions each takes 63 qubits, and the bound that is stated for the
/// operations of one item is 3,969.
pub fn line_of_32_pairs()
    ensures segments { length (line 32 2).segments ≡ 31 }
    ensures slots { slots_of (line 32 2) ≡ 63 }
    ensures worst { worst_of (line 32 2) ≡ 3969 }
{}

/// A machine of one trap with a segment that leads to a second one is not valid, and is refused for
/// the place that the segment names.
pub fn missing_trap()
    ensures invalid { IsValid stray → ⊥ }
    ensures first { IsFirst stray (fault.BadEnd (segment 0)) }
{}

/// A segment from one end of a trap to the other joins a place to itself, and so does one from a
/// junction to the same.
pub fn joined_to_themselves()
    ensures trap { Applies (two_traps 0 ((at_left 0, at_right 0) ∷ [])) (fault.SelfJoined (segment 0)) }
    ensures junction { Applies (two_traps 1 ((at_junction 0, at_junction 0) ∷ [])) (fault.SelfJoined (segment 0)) }
    ensures between { Applies (two_traps 0 ((at_right 0, at_left 1) ∷ [])) (fault.SelfJoined (segment 0)) → ⊥ }
{}

/// The end of a trap is taken by the first segment that has it, whichever of the segment's two ends it is.
/// A junction never is.
pub fn taken_ends()
    ensures first { Applies (two_traps 0 ((at_right 0, at_left 1) ∷ (at_right 0, at_right 1) ∷ [])) (fault.EndTaken (segment 1)) }
    ensures second { Applies (two_traps 0 ((at_right 0, at_left 1) ∷ (at_left 0, at_left 1) ∷ [])) (fault.EndTaken (segment 1)) }
    ensures junction { Applies (two_traps 1 ((at_right 0, at_junction 0) ∷ (at_left 1, at_junction 0) ∷ [])) (fault.EndTaken (segment 1)) → ⊥ }
{}

/// A junction joins 2 to 4 ends of segments. A segment with both ends there counts twice.
pub fn degrees()
    ensures one { Applies (two_traps 1 ((at_right 0, at_left 1) ∷ (at_left 0, at_junction 0) ∷ [])) (fault.JunctionDegree (junction 0)) }
    ensures two { Applies (two_traps 1 ((at_right 0, at_junction 0) ∷ (at_left 1, at_junction 0) ∷ [])) (fault.JunctionDegree (junction 0)) → ⊥ }
    ensures four { Applies (two_traps 1 ((at_right 0, at_junction 0) ∷ (at_left 1, at_junction 0) ∷ (at_left 0, at_junction 0) ∷ (at_junction 0, at_right 1) ∷ [])) (fault.JunctionDegree (junction 0)) → ⊥ }
    ensures five { Applies (two_traps 2 ((at_right 0, at_junction 0) ∷ (at_left 1, at_junction 0) ∷ (at_left 0, at_junction 0) ∷ (at_junction 0, at_right 1) ∷ (at_junction 0, at_junction 1) ∷ [])) (fault.JunctionDegree (junction 0)) }
    ensures twice { degree_of (two_traps 1 ((at_junction 0, at_junction 0) ∷ [])) 0 ≡ 2 }
{}

/// A path leads over a junction to the second trap, and where there is no segment none does.
pub fn paths()
    ensures over { IsReached (two_traps 1 ((at_right 0, at_junction 0) ∷ (at_left 1, at_junction 0) ∷ [])) (res.Trap (trap 1)) }
    ensures none { Applies (two_traps 0 []) (fault.NotConnected (res.Trap (trap 1))) }
{}

/// Where the faults stand: the counts, the capacities, the segments, the degrees, what is out of reach,
/// the times. Of one segment it is an end that is not there, then that it is joined to itself, then that
/// an end is taken; an earlier segment stands before a later one, and each trap out of reach before each
/// junction.
pub fn first_told()
    ensures missing { (s : ℕ) → IsToldBefore (fault.BadEnd (segment s)) (fault.SelfJoined (segment s)) }
    ensures joined { (s : ℕ) → IsToldBefore (fault.SelfJoined (segment s)) (fault.EndTaken (segment s)) }
    ensures segments { (s u : ℕ) → s < u → IsToldBefore (fault.EndTaken (segment s)) (fault.BadEnd (segment u)) }
    ensures counts { IsToldBefore fault.NoTrap (fault.TooMany part.Traps) }
    ensures many { IsToldBefore (fault.TooMany part.Traps) (fault.TooMany part.Segments) }
    ensures more { IsToldBefore (fault.TooMany part.Segments) (fault.TooMany part.Junctions) }
    ensures capacities { (t : TrapId) → IsToldBefore (fault.TooMany part.Junctions) (fault.Capacity t) }
    ensures ends { (t : TrapId) (s : ℕ) → IsToldBefore (fault.Capacity t) (fault.BadEnd (segment s)) }
    ensures degrees { (s : ℕ) (j : JuncId) → IsToldBefore (fault.EndTaken (segment s)) (fault.JunctionDegree j) }
    ensures reach { (j : JuncId) (t : TrapId) → IsToldBefore (fault.JunctionDegree j) (fault.NotConnected (res.Trap t)) }
    ensures times { (j : JuncId) (field : ℕ) → IsToldBefore (fault.NotConnected (res.Junc j)) (fault.TableRange field) }
    ensures traps { (t : TrapId) (j : JuncId) → IsToldBefore (fault.NotConnected (res.Trap t)) (fault.NotConnected (res.Junc j)) }
{}

/// How many qubits the machines that are known by name take at most.
pub fn preset_slots()
    ensures line { slots_of (preset_of Preset.L6 16) ≡ 95 }
    ensures line_of_pairs { slots_of (preset_of Preset.L6 2) ≡ 11 }
    ensures two_rows { slots_of (preset_of Preset.G2x3 16) ≡ 95 }
    ensures single { slots_of (preset_of Preset.Single 16) ≡ 16 }
{}

/// The bounds that are stated for the operations of one item: 30 ordered pairs of traps in the line and
/// in the two rows, with 18 or 30 operations for each, and the item.
pub fn preset_worst()
    ensures line { worst_of (preset_of Preset.L6 16) ≡ 541 }
    ensures two_rows { worst_of (preset_of Preset.G2x3 16) ≡ 901 }
    ensures single { worst_of (preset_of Preset.Single 16) ≡ 1 }
{}

/// Each junction of the two rows joins three segments.
pub fn preset_degrees()
    ensures first { degree_of (preset_of Preset.G2x3 16) 0 ≡ 3 }
    ensures second { degree_of (preset_of Preset.G2x3 16) 1 ≡ 3 }
    ensures third { degree_of (preset_of Preset.G2x3 16) 2 ≡ 3 }
    ensures fourth { degree_of (preset_of Preset.G2x3 16) 3 ≡ 3 }
{}
