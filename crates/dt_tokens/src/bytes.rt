ghost use Rattle.std.specs.Prelude.{◌≡◌, ◌≤◌, ◌<◌, ◌+◌, length, take, drop, ◌==◌, IsTrue};
ghost use Rattle.std.specs.Prelude.{slice_index};
ghost use Rattle.run_model.specs.Bytes.{is_in, run, head_is};

use dt_tree::Class;

/// Whether the byte is in the class.
pub fn is_in(class: Class, b: u8) -> bool
    ensures { result ≡ is_in class b }
{
    match class {
        Class::Name => b.is_ascii_alphanumeric() || b == b'.' || b == b'_',
        Class::Digit => b.is_ascii_digit(),
        Class::Blank => b == b' ' || b == b'\t' || b == b'\r',
        Class::Line => b != b'\n',
        Class::Quoted => b != b'\n' && b != b'`',
    }
}

/// Where what the first byte begins ends, if it goes on with bytes of the class.
pub fn run_end(class: Class, rest: &[u8]) -> usize
    requires { 0 < length rest.now }
    ensures value { result ≡ 1 + run (is_in class) (drop 1 rest.now) }
    ensures within { result ≤ length rest.now }
{
    let mut n = 1;
    while n < rest.len() && is_in(class, rest[n]) {
        n += 1;
    }
    n
}

/// The byte at `i` is `b`.
pub fn is_at(rest: &[u8], i: usize, b: u8) -> bool
    ensures value { result ≡ head_is (λ x. x == b) (drop i rest.now) }
    ensures found { IsTrue result → (i < length rest.now) × (slice_index rest.now i ≡ b) }
{
    i < rest.len() && rest[i] == b
}
