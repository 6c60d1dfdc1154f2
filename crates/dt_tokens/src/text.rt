ghost use Rattle.std.specs.Prelude.{◌≡◌, ◌≤◌, ◌<◌, ◌+◌, length, take, drop, IfOk, IfSome, IfErr};
ghost use Rattle.std.specs.Prelude.{OnOk, OnErr, IsUtf8, option_map, slice_index, false, true};
ghost use Rattle.run_model.specs.First.{text_len, meaning, escape, text_at, IsWithin};

use crate::utf8::{inside, string_of};
use dt_base::Text;
use dt_tree::{First, Piece, Token};
use std::alloc::{AllocError, Global};

/// The text between quotes that begins at `at`.
pub fn text_at(alloc: Global, s: &[u8], at: usize) -> Result<First, AllocError>
    requires text { IsUtf8 s.now }
    requires at { at < length s.now }
    requires ascii { slice_index (drop at s.now) 0 < 128 }
    ensures value { IfOk result (λ f. f ≡ text_at (drop at s.now)) }
    ensures within { IfOk result (IsWithin (length (drop at s.now))) }
{
    let (_, rest) = s.split_at(at);
    let quote = rest[0];
    let (_, body) = rest.split_at(1);
    let Some(n) = text_len(body, quote) else {
        return Ok(First::Bad { offset: 0 });
    };
    match meaning(alloc, inside(s, at, n))? {
        Ok(text) => Ok(First::Found {
            piece: Piece::Spelled(Token::Chr(text)),
            len: n + 2,
        }),
        Err(k) => Ok(First::Bad { offset: k + 1 }),
    }
}

/// How many bytes stand before the quote that ends a text.
#[tactic(auto, using(crate::proofs::Texts::lens))]
fn text_len(rest: &[u8], quote: u8) -> Option<usize>
    ensures value { result ≡ text_len quote false rest.now }
    ensures within { IfSome result (λ n. n < length rest.now) }
    ensures quote { IfSome result (λ n. slice_index rest.now n ≡ quote) }
{
    let mut escaped = false;
    for i in 0..rest.len() {
        let b = rest[i];
        if !escaped && b == quote {
            return Some(i);
        }
        escaped = !escaped && b == b'\\';
    }
    None
}

/// What the bytes between the quotes stand for, or where the first bad escape begins.
#[tactic(auto, using(crate::proofs::Texts::meanings))]
fn meaning(alloc: Global, inner: &str) -> Result<Result<Text, usize>, AllocError>
    ensures value { IfOk result (λ m. m ≡ meaning false inner.now) }
    ensures within { IfOk result (λ m. IfErr m (λ n. n < length inner.now)) }
{
    let bytes = inner.as_bytes();
    let mut out = Vec::new(alloc);
    let mut escaped = false;
    let mut begun = 0;
    for i in 0..bytes.len() {
        let b = bytes[i];
        if escaped {
            let Some(c) = escape(b) else {
                return Ok(Err(begun));
            };
            out.push(c)?;
            escaped = false;
            begun = i + 1;
        } else if b == b'\\' {
            escaped = true;
        } else {
            out.push(b)?;
            begun = i + 1;
        }
    }
    Ok(Ok(string_of(out)))
}

/// What a backslash and the byte stand for.
fn escape(b: u8) -> Option<u8>
    ensures { result ≡ escape b }
{
    match b {
        b'n' => Some(b'\n'),
        b't' => Some(b'\t'),
        b'r' => Some(b'\r'),
        b'\\' | b'"' | b'\'' => Some(b),
        _ => None,
    }
}
