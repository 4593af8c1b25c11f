//! What holds of the definitions. Each function does nothing: its contract is the law.

ghost use Rattle.std.specs.Prelude.{◌≡◌, ◌+◌, ◌<◌, ◌==◌, ℕ, Bool, List, IsTrue, Some, false, get_or, length, nat_lt, slice_get};
ghost use Rattle.dep_graph.specs.Direct.{shares_at};
ghost use Rattle.dep_graph.specs.Levels.{levels};
ghost use Rattle.dep_graph.specs.Ready.{is_ready, is_taken};
ghost use Rattle.qccd_circuit.specs.Item.{ItemData};
ghost use Rattle.qccd_circuit.specs.Sharing.{shares};

/// An item has a greater level than each earlier one with which it shares.
pub fn levels_rise()
    ensures { (items : List ItemData) (i j : ℕ) (a b : ItemData) → i < j → slice_get items i ≡ Some a → slice_get items j ≡ Some b
        → IsTrue (shares a b) → get_or (levels items) i 0 < get_or (levels items) j 0 }
{}

/// An item above the lowest level shares with an earlier item of the level below its own.
pub fn levels_are_reached()
    ensures { (items : List ItemData) (j : ℕ) (b : ItemData) → slice_get items j ≡ Some b → 0 < get_or (levels items) j 0
        → (i : ℕ) × (a : ItemData) × (i < j) × (slice_get items i ≡ Some a) × IsTrue (shares a b) × (get_or (levels items) i 0 + 1 ≡ get_or (levels items) j 0) }
{}

/// Two items that are ready do not share.
pub fn ready_items_do_not_share()
    ensures { (items : List ItemData) (taken : List Bool) (i j : ℕ) → i < j → IsTrue (is_ready items taken i) → IsTrue (is_ready items taken j)
        → shares_at items i j ≡ false }
{}

/// Where the items taken are those below a level, the items of that level are ready, and no others.
pub fn a_level_is_ready()
    ensures { (items : List ItemData) (taken : List Bool) (level : ℕ)
        → ((i : ℕ) → i < length items → is_taken taken i ≡ nat_lt (get_or (levels items) i 0) level)
        → (j : ℕ) → j < length items → is_ready items taken j ≡ (get_or (levels items) j 0 == level) }
{}
