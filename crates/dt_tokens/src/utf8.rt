ghost use Rattle.std.specs.Prelude.{◌≡◌, ◌<◌, ◌+◌, length, take, drop, IsUtf8, slice_index};
ghost use Rattle.std.specs.Prelude.{string_bytes};

use dt_base::Text;

/// The text of these bytes, borrowed.
pub fn text_of(bytes: &[u8]) -> &str
    requires { IsUtf8 bytes.now }
    ensures { result.now ≡ bytes.now }
{
    match str::from_utf8(bytes) {
        Ok(s) => s,
        Err(_) => unreachable!(),
    }
}

/// The text of these bytes, owned.
pub fn string_of(bytes: Vec<u8>) -> Text
    requires { IsUtf8 bytes.items }
    ensures { result ≡ bytes.items }
{
    match String::from_utf8(bytes) {
        Ok(s) => Text::from_string(s),
        Err(_) => unreachable!(),
    }
}

/// The text between two ASCII bytes, of which the first stands at `at`, with `n` bytes between
/// them.
pub fn inside(s: &[u8], at: usize, n: usize) -> &str
    requires text { IsUtf8 s.now }
    requires at { at < length s.now }
    requires within { n + 1 < length (drop at s.now) }
    requires front { slice_index (drop at s.now) 0 < 128 }
    requires back { slice_index (drop at s.now) (n + 1) < 128 }
    ensures { result.now ≡ take n (drop 1 (drop at s.now)) }
{
    let (_, rest) = s.split_at(at);
    let (_, body) = rest.split_at(1);
    let (inner, _) = body.split_at(n);
    text_of(inner)
}
