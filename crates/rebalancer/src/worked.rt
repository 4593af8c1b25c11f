//! Worked examples over the definitions, each a function whose contract is the fact.
#![tactic(auto, unfolding(crate::specs::Hop::hop_ops, crate::specs::Room::nearest, crate::specs::Room::room_ops, router::specs::Paths::hop_path, router::specs::Hops::distance, router::specs::Hops::next_hop))]

ghost use Rattle.std.specs.Prelude.{◌≡◌, ◌++◌, ◌∷◌, [], None, Some, true, false};
ghost use Rattle.qccd_base.specs.Names.{junction, qubit, segment, trap};
ghost use Rattle.qccd_base.specs.declared.names.End.TheVariants as end;
ghost use Rattle.qccd_base.specs.declared.names.Mode.TheVariants.{IonSwap, GateSwap};
ghost use Rattle.op_table.specs.declared.kinds.OpKind.TheVariants.{Split, Move, Enter, Leave, Merge, Rot, GSwap};
ghost use Rattle.rebalancer.specs.Example.{eleven, four, grid_of_four, on_from, six_of_five, six_of_two, the_two};
ghost use Rattle.rebalancer.specs.Hop.{hop_ops};
ghost use Rattle.rebalancer.specs.Room.{handed, has_room, nearest, room_ops, way_to};

/// The first of three qubits goes to the right end, by exchanges of neighbours or by one exchange of qubits,
/// and over one segment to the next trap.
pub fn to_the_next_trap()
    ensures ions { hop_ops six_of_five four (qubit 0) 1 IonSwap ≡ Rot (trap 0) 0 ∷ Rot (trap 0) 1 ∷ on_from 0 }
    ensures gate { hop_ops six_of_five four (qubit 0) 1 GateSwap ≡ GSwap (trap 0) 0 2 ∷ on_from 0 }
    ensures last { hop_ops six_of_five four (qubit 2) 1 IonSwap ≡ on_from 0 }
    ensures back { hop_ops six_of_five four (qubit 3) 0 GateSwap ≡ Split (trap 1) end.Left (segment 0) ∷ Move (segment 0) ∷ Merge (segment 0) (trap 0) end.Right ∷ [] }
{}

/// A qubit that stands at the end by which it leaves goes through a junction, or through two.
pub fn through_junctions()
    ensures one { hop_ops grid_of_four eleven (qubit 1) 1 IonSwap ≡ Split (trap 0) end.Right (segment 0) ∷ Move (segment 0) ∷ Enter (segment 0) (junction 0) ∷ Leave (junction 0) (segment 1) ∷ Move (segment 1) ∷ Merge (segment 1) (trap 1) end.Left ∷ [] }
    ensures two { hop_ops grid_of_four eleven (qubit 3) 5 IonSwap ≡ Split (trap 1) end.Right (segment 2) ∷ Move (segment 2) ∷ Enter (segment 2) (junction 1) ∷ Leave (junction 1) (segment 9) ∷ Move (segment 9) ∷ Enter (segment 9) (junction 3) ∷ Leave (junction 3) (segment 7) ∷ Move (segment 7) ∷ Merge (segment 7) (trap 5) end.Left ∷ [] }
{}

/// Eleven qubits on six traps of two: the one free slot is at the far end, and each trap on the way hands its
/// last qubit on, the one before the goal first.
pub fn room_at_the_far_end()
    ensures full { has_room six_of_two eleven 1 ≡ false }
    ensures free { has_room six_of_two eleven 5 ≡ true }
    ensures goal { nearest six_of_two eleven 1 ≡ Some 5 }
    ensures way { way_to six_of_two 5 4 1 ≡ 1 ∷ 2 ∷ 3 ∷ 4 ∷ 5 ∷ [] }
    ensures operations { room_ops six_of_two eleven 1 (the_two 0 10) IonSwap ≡ on_from 4 ++ on_from 3 ++ on_from 2 ++ on_from 1 }
{}

/// A kept qubit stays: its neighbour goes in its place, and is brought to the end first.
pub fn kept_qubits_stay()
    ensures last { handed six_of_two eleven 4 5 (the_two 0 10) ≡ Some (qubit 9) }
    ensures other { handed six_of_two eleven 4 5 (the_two 9 10) ≡ Some (qubit 8) }
    ensures left { handed six_of_two eleven 4 3 (the_two 0 10) ≡ Some (qubit 8) }
    ensures none { handed six_of_two eleven 4 5 (the_two 8 9) ≡ None }
    ensures operations { room_ops six_of_two eleven 4 (the_two 0 9) IonSwap ≡ Rot (trap 4) 0 ∷ on_from 4 }
{}
