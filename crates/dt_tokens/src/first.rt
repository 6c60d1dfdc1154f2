ghost use Rattle.std.specs.Prelude.{◌≡◌, ◌≤◌, ◌<◌, ◌+◌, ◌∷◌, length, drop, IfOk, IsUtf8};
ghost use Rattle.std.specs.Prelude.{slice_index, ◌≢◌};
ghost use Rattle.std.specs.Char.{is_ascii_digit};
ghost use Rattle.run_model.specs.Bytes.{head_is, is_in, run};
ghost use Rattle.run_model.specs.Signs.{sign_at};
ghost use Rattle.run_model.specs.First.{start_of, signed, IsWithin, first_by, first};

use crate::bytes::{is_in, run_end};
use crate::number::number_at;
use crate::sign::{sign_at, spelled};
use crate::text::text_at;
use crate::word::{quoted_at, word_at};
use dt_tree::{Class, First, Piece, Start, Token};
use std::alloc::{AllocError, Global};

/// What the text begins with at `at`.
pub fn first(alloc: Global, s: &[u8], at: usize) -> Result<First, AllocError>
    requires text { IsUtf8 s.now }
    requires at { at < length s.now }
    ensures value { IfOk result (λ f. f ≡ first (drop at s.now)) }
    ensures within { IfOk result (IsWithin (length (drop at s.now))) }
{
    let (_, rest) = s.split_at(at);
    match start_of(rest) {
        Start::Word => word_at(alloc, rest),
        Start::Number => Ok(number_at(rest)),
        Start::Text => text_at(alloc, s, at),
        Start::Quoted => quoted_at(alloc, s, at),
        Start::Comment => Ok(layout(Class::Line, rest)),
        Start::Feed => Ok(First::Found {
            piece: Piece::Feed,
            len: 1,
        }),
        Start::Blank => Ok(layout(Class::Blank, rest)),
        Start::Sign => Ok(signed(rest)),
    }
}

/// What the first byte begins.
fn start_of(rest: &[u8]) -> Start
    ensures value { result ≡ start_of rest.now }
    ensures ascii { result ≢ Start.Sign → slice_index rest.now 0 < 128 }
{
    if rest.is_empty() {
        return Start::Sign;
    }
    kind_of(rest[0], rest)
}

/// What the byte `b` begins, which is the first of `rest`.
fn kind_of(b: u8, rest: &[u8]) -> Start
    requires { drop 0 rest.now ≡ b ∷ drop 1 rest.now }
    ensures value { result ≡ start_of (b ∷ drop 1 rest.now) }
    ensures ascii { result ≢ Start.Sign → b < 128 }
{
    if b.is_ascii_alphabetic() || b == b'.' && !digit_at(rest, 1) {
        Start::Word
    } else if b.is_ascii_digit() {
        Start::Number
    } else if b == b'"' || b == b'\'' {
        Start::Text
    } else if b == b'`' {
        Start::Quoted
    } else if b == b'#' {
        Start::Comment
    } else if b == b'\n' {
        Start::Feed
    } else if is_in(Class::Blank, b) {
        Start::Blank
    } else {
        Start::Sign
    }
}

/// Whether a digit stands at `i`.
fn digit_at(rest: &[u8], i: usize) -> bool
    ensures { result ≡ head_is is_ascii_digit (drop i rest.now) }
{
    i < rest.len() && rest[i].is_ascii_digit()
}

/// Blanks, or a comment.
fn layout(class: Class, rest: &[u8]) -> First
    requires { 0 < length rest.now }
    ensures value { result ≡ First.Found Piece.Layout (1 + run (is_in class) (drop 1 rest.now)) }
    ensures within { IsWithin (length rest.now) result }
{
    First::Found {
        piece: Piece::Layout,
        len: run_end(class, rest),
    }
}

/// The symbol that the bytes begin with.
fn signed(rest: &[u8]) -> First
    requires { 0 < length rest.now }
    ensures value { result ≡ signed (sign_at rest.now) }
    ensures within { IsWithin (length rest.now) result }
{
    match sign_at(rest) {
        Some(sign) => First::Found {
            piece: Piece::Spelled(Token::Sign(sign)),
            len: spelled(sign).len(),
        },
        None => First::Bad { offset: 0 },
    }
}
