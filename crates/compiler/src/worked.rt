//! Worked examples over the definitions, each a function whose contract is the fact.
#![tactic(auto, unfolding(crate::specs::Bring::hop_on, crate::specs::Chosen::chosen_first, crate::specs::Chosen::picked, rebalancer::specs::Hop::hop_ops, rebalancer::specs::Room::nearest, rebalancer::specs::Room::room_ops, router::specs::Paths::hop_path, router::specs::Hops::distance, router::specs::Hops::next_hop, ion_mapping::specs::Placement::chains_at_start))]

ghost use Rattle.std.specs.Prelude.{◌≡◌, ◌∷◌, [], drop, length, map};
ghost use Rattle.std.specs.List.{range_with_len};
ghost use Rattle.qccd_base.specs.Names.{qubit, trap};
ghost use Rattle.qccd_base.specs.declared.names.Mode.TheVariants.{IonSwap, GateSwap};
ghost use Rattle.op_table.specs.declared.kinds.OpKind.TheVariants.{Item};
ghost use Rattle.op_plan.specs.Place.{qubits_in};
ghost use Rattle.qccd_program.specs.Program.{end_of};
ghost use Rattle.ion_mapping.specs.Circuits.{cx_on, eleven};
ghost use Rattle.rebalancer.specs.Example.{grid_of_four, six_of_five, six_of_two};
ghost use Rattle.compiler.specs.Chosen.{chosen, chosen_first, picked};
ghost use Rattle.compiler.specs.Example.{far_then_near, fenced, four, four_by_gates, four_by_ions, into_one_bit, measured, near_first, six_of_four, six_of_three, through_junctions, with_barrier};

/// A gate on qubits of two traps: the first of the two is brought to the end of its chain, and over.
pub fn four_on_a_line()
    ensures ions { (chosen four six_of_five IonSwap).ops ≡ four_by_ions }
    ensures gates { (chosen four six_of_five GateSwap).ops ≡ four_by_gates }
{}

/// Eleven gates, and then one on qubits of the first trap of the grid and the last.
pub fn over_the_grid()
    ensures { drop 11 (chosen (eleven 1) grid_of_four IonSwap).ops ≡ through_junctions }
{}

/// Eleven qubits on six traps of two: for each hop room is made anew, by a shift of all traps up to the free
/// slot, which is then behind the moving qubit.
pub fn eleven_on_a_line()
    ensures long { length (chosen (eleven 0) six_of_two IonSwap).ops ≡ 72 }
    ensures last { drop 71 (chosen (eleven 0) six_of_two IonSwap).ops ≡ Item 11 (trap 5) (cx_on 0 10) (0 ∷ 1 ∷ []) ∷ [] }
    ensures chains { map (qubits_in (end_of (chosen (eleven 0) six_of_two IonSwap))) (range_with_len 0 6) ≡ (qubit 1 ∷ qubit 2 ∷ []) ∷ (qubit 3 ∷ qubit 4 ∷ []) ∷ (qubit 5 ∷ qubit 6 ∷ []) ∷ (qubit 7 ∷ qubit 8 ∷ []) ∷ (qubit 9 ∷ []) ∷ (qubit 0 ∷ qubit 10 ∷ []) ∷ [] }
{}

/// A barrier is a fence over the traps of its qubits, and what shares a bit keeps its order.
pub fn without_hops()
    ensures barrier { (chosen with_barrier six_of_three IonSwap).ops ≡ fenced }
    ensures bit { (chosen into_one_bit six_of_three IonSwap).ops ≡ measured }
{}

/// A gate whose qubits stand together comes before one of a lower number whose qubits don't.
pub fn near_items_first()
    ensures order { picked far_then_near six_of_four IonSwap ≡ 0 ∷ 1 ∷ 2 ∷ 3 ∷ 5 ∷ 4 ∷ [] }
    ensures program { (chosen far_then_near six_of_four IonSwap).ops ≡ near_first }
{}
