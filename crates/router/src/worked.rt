//! Worked examples over the definitions, each a function whose contract is the fact.
#![tactic(auto, unfolding(crate::specs::Paths::hop_path, crate::specs::Hops::distance, crate::specs::Hops::next_hop))]

ghost use Rattle.std.specs.Prelude.{◌≡◌, Some, None, [], ◌∷◌, true, false, map};
ghost use Rattle.std.specs.List.{range_with_len};
ghost use Rattle.qccd_base.specs.Names.{junction, trap};
ghost use Rattle.qccd_base.specs.declared.names.Res.TheVariants as res;
ghost use Rattle.router.specs.Hops.{are_neighbours, distance, next_hop};
ghost use Rattle.router.specs.Paths.{hop_path, is_less, is_path, lists_of, path_of};
ghost use Rattle.router.specs.Wired.{around, looped, one_alone, parallel, ring, six_in_line, three_junctions, triangle, twice_joined, two_by_three};

/// Six traps in a line: one segment leads to the next trap, and five hops lead from end to end.
pub fn along_a_line()
    ensures forth { hop_path six_in_line 0 1 ≡ Some (0 ∷ []) }
    ensures back { hop_path six_in_line 4 3 ≡ Some (3 ∷ []) }
    ensures far { hop_path six_in_line 0 2 ≡ None }
    ensures own { hop_path six_in_line 2 2 ≡ None }
    ensures distances { map (λ a. distance six_in_line a 5) (range_with_len 0 6) ≡ 5 ∷ 4 ∷ 3 ∷ 2 ∷ 1 ∷ 0 ∷ [] }
    ensures next { map (λ a. next_hop six_in_line a 3) (range_with_len 0 6) ≡ Some 1 ∷ Some 2 ∷ Some 3 ∷ None ∷ Some 3 ∷ Some 4 ∷ [] }
{}

/// Two rows of three traps. From trap 1 to trap 4 two paths have three segments, and the lesser list is taken. Traps 1
/// and 4 are both one hop from trap 0 and one from trap 5, and the way from 0 to 5 is by trap 1.
pub fn over_the_grid()
    ensures through { hop_path two_by_three 1 5 ≡ Some (2 ∷ 9 ∷ 7 ∷ []) }
    ensures near { hop_path two_by_three 0 1 ≡ Some (0 ∷ 1 ∷ []) }
    ensures least { hop_path two_by_three 1 4 ≡ Some (1 ∷ 8 ∷ 5 ∷ []) }
    ensures other { is_path two_by_three 4 (2 ∷ 9 ∷ 6 ∷ []) (res.Trap (trap 1)) ≡ true }
    ensures apart { hop_path two_by_three 0 5 ≡ None }
    ensures distances { map (λ a. distance two_by_three a 5) (range_with_len 0 6) ≡ 2 ∷ 1 ∷ 1 ∷ 2 ∷ 1 ∷ 0 ∷ [] }
    ensures next { map (λ a. next_hop two_by_three a 5) (range_with_len 0 6) ≡ Some 1 ∷ Some 5 ∷ Some 5 ∷ Some 1 ∷ Some 5 ∷ None ∷ [] }
{}

/// Across a ring of four both neighbours are as near, and the next hop is to the least.
pub fn round_a_ring()
    ensures distances { map (λ a. distance ring a 2) (range_with_len 0 4) ≡ 2 ∷ 1 ∷ 0 ∷ 1 ∷ [] }
    ensures next { map (λ a. next_hop ring a 2) (range_with_len 0 4) ≡ Some 1 ∷ Some 2 ∷ None ∷ Some 2 ∷ [] }
    ensures across { next_hop ring 1 3 ≡ Some 0 }
    ensures closing { hop_path ring 0 3 ≡ Some (3 ∷ []) }
{}

/// A segment that joins the two neighbours of a trap makes them neighbours.
pub fn past_a_trap()
    ensures direct { hop_path triangle 0 2 ≡ Some (2 ∷ []) }
    ensures one { distance triangle 0 2 ≡ 1 }
    ensures next { next_hop triangle 0 2 ≡ Some 2 }
{}

/// Of two segments between two traps it is the one of lesser number, whichever ends it joins.
pub fn two_ways()
    ensures forth { hop_path twice_joined 0 1 ≡ Some (0 ∷ []) }
    ensures back { hop_path twice_joined 1 0 ≡ Some (0 ∷ []) }
{}

/// Fewer segments go before a lesser list.
pub fn fewer_segments_first()
    ensures direct { hop_path around 0 1 ≡ Some (2 ∷ []) }
    ensures longer { is_path around 1 (0 ∷ 1 ∷ []) (res.Trap (trap 0)) ≡ true }
    ensures less { is_less (0 ∷ 1 ∷ []) (2 ∷ []) ≡ true }
    ensures junction { hop_path three_junctions 0 1 ≡ Some (0 ∷ 3 ∷ 4 ∷ []) }
    ensures round { is_path three_junctions 1 (0 ∷ 1 ∷ 2 ∷ 4 ∷ []) (res.Trap (trap 0)) ≡ true }
{}

/// Of parallel segments between junctions it is the one of lesser number, in both directions.
pub fn parallel_segments()
    ensures forth { hop_path parallel 0 1 ≡ Some (3 ∷ 1 ∷ 0 ∷ []) }
    ensures back { hop_path parallel 1 0 ≡ Some (0 ∷ 1 ∷ 3 ∷ []) }
    ensures back_and_forth { is_path parallel 1 (3 ∷ 1 ∷ 2 ∷ 1 ∷ 0 ∷ []) (res.Trap (trap 0)) ≡ true }
{}

/// A loop from a trap to itself is a path and no hop.
pub fn loop_to_itself()
    ensures path { is_path looped 0 (0 ∷ 1 ∷ []) (res.Trap (trap 0)) ≡ true }
    ensures none { hop_path looped 0 0 ≡ None }
    ensures to_other { hop_path looped 0 1 ≡ Some (0 ∷ 2 ∷ []) }
    ensures from_other { hop_path looped 1 0 ≡ Some (2 ∷ 0 ∷ []) }
{}

/// No path comes through a trap, and none ends in a junction.
pub fn no_trap_inside()
    ensures through { is_path six_in_line 2 (0 ∷ 1 ∷ []) (res.Trap (trap 0)) ≡ false }
    ensures in_junction { is_path two_by_three 1 (0 ∷ []) (res.Trap (trap 0)) ≡ false }
    ensures unjoined { is_path six_in_line 1 (1 ∷ []) (res.Trap (trap 0)) ≡ false }
    ensures from_junction { path_of two_by_three 5 2 (res.Junc (junction 1)) ≡ Some (9 ∷ 7 ∷ []) }
    ensures none_of_one { path_of two_by_three 5 1 (res.Junc (junction 1)) ≡ None }
{}

/// A trap alone is at distance 0 from itself, and no hop leads away.
pub fn alone()
    ensures distance { distance one_alone 0 0 ≡ 0 }
    ensures next { next_hop one_alone 0 0 ≡ None }
    ensures path { hop_path one_alone 0 0 ≡ None }
{}

/// Lists of numbers in their order.
pub fn lists_in_order()
    ensures two { lists_of 2 2 ≡ (0 ∷ 0 ∷ []) ∷ (0 ∷ 1 ∷ []) ∷ (1 ∷ 0 ∷ []) ∷ (1 ∷ 1 ∷ []) ∷ [] }
    ensures first { is_less (0 ∷ 9 ∷ []) (1 ∷ 0 ∷ []) ≡ true }
    ensures second { is_less (1 ∷ 0 ∷ []) (1 ∷ 1 ∷ []) ≡ true }
    ensures own { is_less (1 ∷ 1 ∷ []) (1 ∷ 1 ∷ []) ≡ false }
    ensures later { is_less (1 ∷ 0 ∷ []) (0 ∷ 9 ∷ []) ≡ false }
    ensures shorter { is_less (1 ∷ []) (1 ∷ 0 ∷ []) ≡ true }
{}
