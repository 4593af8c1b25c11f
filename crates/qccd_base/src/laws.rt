//! What holds of the definitions. Where a function does nothing, its contract is the law; the others
//! compare, and their contracts say what the comparison is.

ghost use Rattle.std.specs.Prelude.{◌≡◌, ◌↔◌, ◌++◌, ◌∷◌, Bool, List, None, Some, false, true};
ghost use Rattle.std.specs.List.{AllByRecursion};
ghost use Rattle.qccd_base.specs.declared.names.Res.{Res};
ghost use Rattle.qccd_base.specs.FirstFailing.{first_failing};
ghost use Rattle.qccd_base.specs.Resource.{IsAscending, among, ascending, comes_before, same_res};

use crate::names::Res;
use std::cmp::Ordering;

/// Whether one resource comes before the other as they are compared: a trap before a segment, this
/// before a junction, this before a bit, and each by number.
pub fn is_before(one: Res, other: Res) -> bool
    ensures { result ≡ comes_before one other }
{
    one.cmp(&other) == Ordering::Less
}

/// Whether the two are one resource as they are compared.
pub fn is_same(one: Res, other: Res) -> bool
    ensures { result ≡ same_res one other }
{
    one == other
}

/// A list is made ascending: it ascends, with the same resources, and a list that ascends stays.
pub fn ascending_lists()
    ensures ascends { (rs : List Res) → IsAscending (ascending rs) }
    ensures same { (rs : List Res) (r : Res) → among (ascending rs) r ≡ among rs r }
    ensures stays { (rs : List Res) → IsAscending rs → ascending rs ≡ rs }
{}

/// The first test that fails: none does where each passes, and one is the first where it fails and each
/// before it passes.
pub fn first_that_fails<A>()
    ensures none { (tests : List (A × Bool)) → (first_failing tests ≡ None) ↔ AllByRecursion (λ test. test.1 ≡ true) tests }
    ensures first { (front back : List (A × Bool)) (cause : A) → AllByRecursion (λ test. test.1 ≡ true) front
        → first_failing (front ++ (cause, false) ∷ back) ≡ Some cause }
{}
