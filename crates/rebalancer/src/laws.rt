//! What holds of hops and of making room. Each function does nothing: its contract is the law.

ghost use Rattle.std.specs.Prelude.{◌≡◌, ◌≢◌, ◌≤◌, ◌<◌, ◌-◌, ◌*◌, ℕ, length, is_some, true, Some};
ghost use Rattle.qccd_base.specs.declared.names.Mode.{Mode};
ghost use Rattle.qccd_base.specs.declared.names.Qubit.{Qubit};
ghost use Rattle.qccd_machine.specs.Machine.{MachineData, IsValid, hop_bound};
ghost use Rattle.op_table.specs.State.{State, IsSafe, ions_in};
ghost use Rattle.op_plan.specs.Place.{home, trap_of};
ghost use Rattle.router.specs.Hops.{are_neighbours};
ghost use Rattle.router.specs.Wiring.{wiring_of};
ghost use Rattle.rebalancer.specs.Hop.{hop_ops};
ghost use Rattle.rebalancer.specs.Moves.{Moves, MakesRoom};
ghost use Rattle.rebalancer.specs.Outside.{NothingOutside};
ghost use Rattle.rebalancer.specs.Room.{handed, has_room, nearest, room_ops, IsNearest};

/// Where nothing is outside the traps, a hop to a neighbour with a free slot runs and takes the qubit there, in
/// no more operations than the bound.
pub fn hops_move()
    ensures moves { (m : MachineData) (s : State) (q : Qubit) (to : ℕ) (mode : Mode) → IsValid m → IsSafe m s → NothingOutside s → q.0 < length s.ions → are_neighbours (wiring_of m) (trap_of s q) to ≡ true → has_room m s to ≡ true → Moves m s q to (hop_ops m s q to mode) }
    ensures short { (m : MachineData) (s : State) (q : Qubit) (to : ℕ) (mode : Mode) → IsValid m → IsSafe m s → NothingOutside s → q.0 < length s.ions → are_neighbours (wiring_of m) (trap_of s q) to ≡ true → has_room m s to ≡ true → length (hop_ops m s q to mode) ≤ hop_bound m }
{}

/// Where some trap has a free slot there is a nearest one. It has a free slot, and every trap that is nearer is
/// full.
pub fn nearest_has_room()
    ensures { (m : MachineData) (s : State) (t free : ℕ) → IsValid m → t < length m.capacities → has_room m s free ≡ true → (goal : ℕ) × (nearest m s t ≡ Some goal) × IsNearest m s t goal }
{}

/// Where the kept qubits stand in two traps, a trap with two ions or more, as a full one, has a qubit to hand
/// on.
pub fn one_to_hand_on()
    ensures { (m : MachineData) (s : State) (t u : ℕ) (keep : Qubit × Qubit) → IsSafe m s → NothingOutside s → keep.0.0 < length s.ions → keep.1.0 < length s.ions → home s keep.0 ≢ home s keep.1 → 2 ≤ ions_in s t → is_some (handed m s t u keep) ≡ true }
{}

/// Where nothing is outside the traps, some trap has a free slot and the kept qubits stand in two traps, making
/// room runs and leaves a free slot and the kept qubits in their traps, in no more operations than a bound for
/// each other trap.
pub fn room_is_made()
    ensures makes { (m : MachineData) (s : State) (t free : ℕ) (keep : Qubit × Qubit) (mode : Mode) → IsValid m → IsSafe m s → NothingOutside s → t < length m.capacities → has_room m s free ≡ true → keep.0.0 < length s.ions → keep.1.0 < length s.ions → home s keep.0 ≢ home s keep.1 → MakesRoom m s t keep (room_ops m s t keep mode) }
    ensures short { (m : MachineData) (s : State) (t free : ℕ) (keep : Qubit × Qubit) (mode : Mode) → IsValid m → IsSafe m s → NothingOutside s → t < length m.capacities → has_room m s free ≡ true → keep.0.0 < length s.ions → keep.1.0 < length s.ions → home s keep.0 ≢ home s keep.1 → length (room_ops m s t keep mode) ≤ (length m.capacities - 1) * hop_bound m }
{}
