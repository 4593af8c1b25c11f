//! Numbers and their decimal texts.

ghost use Rattle.std.specs.Prelude.{◌≡◌, ◌≢◌, ◌↔◌, ℕ, ◌^◌, ◌<◌, Some, IfSome, IfNone, true, decimal};
ghost use Rattle.qccd_base.specs.Numbers.{is_led};

use arrayvec::ArrayString;
use itoa::Buffer;

/// The decimal text of `n`, with no leading zero and no sign. It takes no memory.
pub fn number_text(n: u64) -> ArrayString<20>
    ensures { result.bytes ≡ decimal n }
{
    let mut text = ArrayString::new();
    text.push_str(Buffer::new().format(n));
    text
}

/// The number whose decimal text the bytes are, or `None` where they are that of no `u64`: an
/// empty text, a sign, a leading zero, a space or any other byte, and a number past the range
/// are refused.
pub fn read_number(bytes: &[u8]) -> Option<u64>
    ensures exact { (n : ℕ) → n < 2 ^ 64 → (result ≡ Some n) ↔ (bytes.now ≡ decimal n) }
    ensures some { IfSome result (λ n. bytes.now ≡ decimal n) }
    ensures none { IfNone result ((n : ℕ) → n < 2 ^ 64 → bytes.now ≢ decimal n) }
{
    if is_led(bytes) { parsed(bytes) } else { None }
}

// Whether the bytes begin as a number that is written does. `parse` takes a plus and leading zeros too.
fn is_led(bytes: &[u8]) -> bool
    ensures { result ≡ is_led bytes.now }
{
    match bytes {
        [] => false,
        [first, rest @ ..] => *first != b'+' && (*first != b'0' || rest.is_empty()),
    }
}

// What `parse` makes of the bytes: the number where they are its decimal text, and of bytes that begin as such a text
// do no other number.
fn parsed(bytes: &[u8]) -> Option<u64>
    ensures known { (n : ℕ) → n < 2 ^ 64 → bytes.now ≡ decimal n → result ≡ Some n }
    ensures written { IfSome result (λ n. is_led bytes.now ≡ true → bytes.now ≡ decimal n) }
{
    let Ok(text) = str::from_utf8(bytes) else {
        return None;
    };
    text.parse().ok()
}
