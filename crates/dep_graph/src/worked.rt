//! Worked examples of what the definitions say. Each function does nothing: its contract is the example.

ghost use Rattle.std.specs.Prelude.{◌≡◌, ◌∷◌, [], false, replicate, slice_set, true};
ghost use Rattle.dep_graph.specs.Direct.{directly_before};
ghost use Rattle.dep_graph.specs.Levels.{levels};
ghost use Rattle.dep_graph.specs.Ready.{is_ready, ready_items};
ghost use Rattle.qccd_circuit.specs.Example.{five_items, h_on, three_gates};

/// Two gates on two qubits have the lowest level, and a gate on both has the next one.
pub fn levels_of_gates()
    ensures { levels three_gates ≡ 0 ∷ 0 ∷ 1 ∷ [] }
{}

/// A gate under a bit is above the measurement into it, which shares nothing else with it. A barrier is above the
/// gates before it on its qubits, and below those that follow.
pub fn levels_of_bits_and_barriers()
    ensures { levels five_items ≡ 0 ∷ 1 ∷ 2 ∷ 3 ∷ 0 ∷ [] }
{}

/// Where nothing is taken, those are ready with which no earlier item shares.
pub fn ready_at_first()
    ensures one { is_ready three_gates (replicate 3 false) 0 ≡ true }
    ensures other { is_ready three_gates (replicate 3 false) 1 ≡ true }
    ensures both { is_ready three_gates (replicate 3 false) 2 ≡ false }
    ensures past { is_ready three_gates (replicate 3 false) 3 ≡ false }
    ensures gates { ready_items three_gates (replicate 3 false) ≡ 0 ∷ 1 ∷ [] }
    ensures items { ready_items five_items (replicate 5 false) ≡ 0 ∷ 4 ∷ [] }
{}

/// An item that is taken is not ready, and one that waits for another too is not yet.
pub fn ready_after_one()
    ensures gates { ready_items three_gates (slice_set (replicate 3 false) 1 true) ≡ 0 ∷ [] }
    ensures items { ready_items five_items (slice_set (replicate 5 false) 0 true) ≡ 1 ∷ 4 ∷ [] }
{}

/// Of three gates on one qubit the first stands directly before the second, and not before the third.
pub fn directly_before_the_next()
    ensures next { directly_before (h_on 0 ∷ h_on 0 ∷ h_on 0 ∷ []) 0 1 ≡ true }
    ensures later { directly_before (h_on 0 ∷ h_on 0 ∷ h_on 0 ∷ []) 0 2 ≡ false }
    ensures bit { directly_before five_items 0 1 ≡ true }
{}
