//! The ends of segments.

ghost use Rattle.std.specs.Prelude.{◌≡◌, ◌≤◌, ◌||◌, length, position};
ghost use Rattle.qccd_machine.specs.Machine.{count_at, same_place};

use crate::place::Place;

/// Whether the two places are one. The searches below know the test by this contract.
fn is_same(a: Place, b: Place) -> bool
    ensures { result ≡ same_place a b }
{
    a == b
}

/// The first of these segments with an end at the place, or `None` where none has one.
pub fn first_at(segments: &[(Place, Place)], place: Place) -> Option<usize>
    ensures { result ≡ position (λ ends. same_place place ends.0 || same_place place ends.1) segments.now }
{
    segments
        .iter()
        .position(|ends| is_same(place, ends.0) || is_same(place, ends.1))
}

/// How many ends of these segments are at the place.
pub fn ends_at(segments: &[(Place, Place)], place: Place) -> usize
    requires { length segments.now ≤ 128 }
    ensures { result ≡ count_at segments.now place }
{
    let mut count = 0;
    for ends in segments {
        count += usize::from(is_same(place, ends.0)) + usize::from(is_same(place, ends.1));
    }
    count
}
