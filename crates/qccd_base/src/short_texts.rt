//! Short texts, put together without taking memory.

ghost use Rattle.std.specs.Prelude.{◌≡◌, ◌+◌, ◌≤◌, [], ◌∷◌, length, decimal};
ghost use Rattle.std.specs.List.{concat};

use crate::numbers::number_text;
use arrayvec::ArrayString;

/// Three texts in a row. It takes no memory.
pub fn joined<const N: usize>(before: &str, middle: &str, after: &str) -> ArrayString<N>
    requires { length before.now + length middle.now + length after.now ≤ N }
    ensures { result.bytes ≡ concat (before.now ∷ middle.now ∷ after.now ∷ []) }
{
    let mut text = ArrayString::new();
    text.push_str(before);
    text.push_str(middle);
    text.push_str(after);
    text
}

/// A number between two texts. A number has twenty digits at most. It takes no memory.
pub fn numbered<const N: usize>(before: &str, number: u64, after: &str) -> ArrayString<N>
    requires { length before.now + length after.now + 20 ≤ N }
    ensures { result.bytes ≡ concat (before.now ∷ decimal number ∷ after.now ∷ []) }
{
    joined(before, number_text(number).as_str(), after)
}
