//! What holds of paths and hops. Each function does nothing: its contract is the law.

ghost use Rattle.std.specs.Prelude.{◌≡◌, ◌≢◌, ◌↔◌, ◌+◌, ◌<◌, ◌≤◌, ℕ, List, Some, None, true, false, find, length};
ghost use Rattle.qccd_base.specs.Names.{trap};
ghost use Rattle.qccd_base.specs.declared.names.Res.{Res};
ghost use Rattle.qccd_base.specs.declared.names.Res.TheVariants as res;
ghost use Rattle.qccd_machine.specs.Machine.{MachineData, IsValid};
ghost use Rattle.router.specs.Hops.{are_neighbours, distance, hops_lead, next_hop};
ghost use Rattle.router.specs.Paths.{hop_path, is_less, is_path, lists_of, path_of};
ghost use Rattle.router.specs.Wiring.{WiringData, IsWiring, wiring_of};

/// The least path of so many segments is the first path among all lists of so many numbers of segments, in
/// their order.
pub fn first_of_all_lists()
    ensures { (w : WiringData) (t count : ℕ) (from : Res) → path_of w t count from ≡ find (λ path. is_path w t path from) (lists_of (length w.segments) count) }
{}

/// The path of a hop is a path. None has fewer segments, and of those with as many none is less.
pub fn least_of_all_paths()
    ensures is_path { (w : WiringData) (a b : ℕ) (path : List ℕ) → hop_path w a b ≡ Some path → is_path w b path (res.Trap (trap a)) ≡ true }
    ensures fewest { (w : WiringData) (a b : ℕ) (path other : List ℕ) → hop_path w a b ≡ Some path → is_path w b other (res.Trap (trap a)) ≡ true → length path ≤ length other }
    ensures least { (w : WiringData) (a b : ℕ) (path other : List ℕ) → hop_path w a b ≡ Some path → is_path w b other (res.Trap (trap a)) ≡ true → length other ≡ length path → is_less other path ≡ false }
    ensures short { (w : WiringData) (a b : ℕ) (path : List ℕ) → hop_path w a b ≡ Some path → length path ≤ w.junctions + 1 }
{}

/// Two different traps are neighbours wherever any path joins them, however long it is.
pub fn neighbours_by_any_path()
    ensures { (w : WiringData) (a b : ℕ) (path : List ℕ) → IsWiring w → a ≢ b → is_path w b path (res.Trap (trap a)) ≡ true → are_neighbours w a b ≡ true }
{}

/// Hops lead from each trap to each other: as many as the distance, never fewer, and fewer than there are traps.
pub fn least_hops()
    ensures lead { (w : WiringData) (a b : ℕ) → IsWiring w → a < w.traps → b < w.traps → hops_lead w b (distance w a b) a ≡ true }
    ensures fewest { (w : WiringData) (a b count : ℕ) → IsWiring w → a < w.traps → b < w.traps → hops_lead w b count a ≡ true → distance w a b ≤ count }
    ensures below { (w : WiringData) (a b : ℕ) → IsWiring w → a < w.traps → b < w.traps → distance w a b < w.traps }
{}

/// There is a next hop exactly where the traps differ. It is to a neighbour that is one hop nearer, and of these to
/// the least.
pub fn one_hop_nearer()
    ensures none { (w : WiringData) (a b : ℕ) → IsWiring w → a < w.traps → b < w.traps → (next_hop w a b ≡ None) ↔ (a ≡ b) }
    ensures neighbour { (w : WiringData) (a b c : ℕ) → next_hop w a b ≡ Some c → are_neighbours w a c ≡ true }
    ensures there { (w : WiringData) (a b c : ℕ) → next_hop w a b ≡ Some c → c < w.traps }
    ensures nearer { (w : WiringData) (a b c : ℕ) → next_hop w a b ≡ Some c → distance w c b + 1 ≡ distance w a b }
    ensures least { (w : WiringData) (a b c d : ℕ) → next_hop w a b ≡ Some c → are_neighbours w a d ≡ true → d < w.traps → distance w d b + 1 ≡ distance w a b → c ≤ d }
{}

/// The wiring of a valid machine is one.
pub fn wiring_of_a_machine()
    ensures { (m : MachineData) → IsValid m → IsWiring (wiring_of m) }
{}
