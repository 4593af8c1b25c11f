//! Numbers of up to 128 bits, as the values of conditions are, and their decimal texts.

ghost use Rattle.std.specs.Prelude.{◌≡◌, ◌≢◌, ◌↔◌, ℕ, ◌^◌, ◌<◌, Some, IfSome, IfNone, decimal, bytes_eq};

use arrayvec::ArrayString;
use itoa::Buffer;

/// The decimal text of `n`, with no leading zero and no sign. It takes no memory.
pub fn wide_text(n: u128) -> ArrayString<39>
    ensures { result.bytes ≡ decimal n }
{
    let mut text = ArrayString::new();
    text.push_str(Buffer::new().format(n));
    text
}

/// The number whose decimal text the bytes are, or `None` where they are that of no `u128`: an
/// empty text, a sign, a leading zero, a space or any other byte, and a number past the range
/// are refused.
pub fn read_wide(bytes: &[u8]) -> Option<u128>
    ensures exact { (n : ℕ) → n < 2 ^ 128 → (result ≡ Some n) ↔ (bytes.now ≡ decimal n) }
    ensures some { IfSome result (λ n. bytes.now ≡ decimal n) }
    ensures none { IfNone result ((n : ℕ) → n < 2 ^ 128 → bytes.now ≢ decimal n) }
{
    let n = parsed(bytes)?;
    if is_text(bytes, n) { Some(n) } else { None }
}

// Whether the bytes are the number's text. `parse` takes a plus and leading zeros too.
fn is_text(bytes: &[u8], n: u128) -> bool
    ensures { result ≡ bytes_eq bytes.now (decimal n) }
{
    bytes == wide_text(n).as_bytes()
}

// What `parse` makes of the bytes: the number where they are its decimal text.
fn parsed(bytes: &[u8]) -> Option<u128>
    ensures known { (n : ℕ) → n < 2 ^ 128 → bytes.now ≡ decimal n → result ≡ Some n }
{
    let Ok(text) = str::from_utf8(bytes) else {
        return None;
    };
    text.parse().ok()
}
