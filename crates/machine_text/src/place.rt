//! The texts of the places of a segment's ends.

ghost use Rattle.std.specs.Prelude.{◌≡◌, ℕ, ◌<◌, ◌++◌, Some, IfSome, decimal};
ghost use Rattle.machine_text.specs.Place.{place_named};

use qccd_base::{End, JuncId, TrapId, read_number};
use qccd_machine::Place;

/// The place that the text names: the left or the right end of a trap, as `T0.left`, or a junction,
/// as `J3`, with a number up to 255 that has no sign and no leading zero.
pub(crate) fn place_named(text: &[u8]) -> Option<Place>
    ensures { result ≡ place_named text.now }
{
    if let Some(trap) = number_between(b"T", text, b".left") {
        return Some(Place::TrapEnd(TrapId(trap), End::Left));
    }
    if let Some(trap) = number_between(b"T", text, b".right") {
        return Some(Place::TrapEnd(TrapId(trap), End::Right));
    }
    let junction = number_between(b"J", text, b"")?;
    Some(Place::Junction(JuncId(junction)))
}

/// The number up to 255 whose decimal text stands in the text between these two.
fn number_between(front: &[u8], text: &[u8], back: &[u8]) -> Option<u8>
    ensures found { IfSome result (λ n. text.now ≡ front.now ++ (decimal n ++ back.now)) }
    ensures exact { (n : ℕ) → n < 256
        → text.now ≡ front.now ++ (decimal n ++ back.now) → result ≡ Some n }
{
    let rest = text.strip_prefix(front)?;
    let digits = rest.strip_suffix(back)?;
    u8::try_from(read_number(digits)?).ok()
}
