ghost use Rattle.std.specs.Prelude.{◌≡◌, ◌≤◌, ◌<◌, ◌+◌, ◌-◌, ◌*◌, ◌^◌, length, take, drop, min};
ghost use Rattle.run_model.specs.Bytes.{head_is};
ghost use Rattle.run_model.specs.First.{value_after, number_at, number_len, digits_len, IsWithin};
ghost use Rattle.run_model.specs.First.{spoils_number};

use crate::bytes::{is_at, run_end};
use dt_tree::{Class, First, Piece, Token};

/// No integer is as large as this.
const LIMIT: u64 = 1 << 63;

/// The integer that the bytes begin with.
pub fn number_at(rest: &[u8]) -> First
    requires { 0 < length rest.now }
    ensures value { result ≡ number_at rest.now }
    ensures within { IsWithin (length rest.now) result }
{
    let digits = run_end(Class::Digit, rest);
    let len = number_len(rest, digits);
    if spoils_at(rest, len) {
        return First::Bad { offset: 0 };
    }
    let (front, _) = rest.split_at(digits);
    let value = value_of(front);
    if value < LIMIT {
        First::Found {
            piece: Piece::Spelled(Token::Int(value as i64)),
            len,
        }
    } else {
        First::PastLimit
    }
}

/// The digits, and an `L` where one follows.
fn number_len(rest: &[u8], digits: usize) -> usize
    requires within { digits ≤ length rest.now }
    requires digits { digits ≡ digits_len rest.now }
    ensures value { result ≡ number_len rest.now }
    ensures longer { digits ≤ result }
    ensures within { result ≤ length rest.now }
{
    if is_at(rest, digits, b'L') {
        digits + 1
    } else {
        digits
    }
}

/// Whether the byte at `i` may not follow an integer.
fn spoils_at(rest: &[u8], i: usize) -> bool
    ensures { result ≡ head_is spoils_number (drop i rest.now) }
{
    i < rest.len() && spoils_number(rest[i])
}

/// Whether the byte may not follow an integer.
fn spoils_number(b: u8) -> bool
    ensures { result ≡ spoils_number b }
{
    b.is_ascii_alphabetic() || b == b'.' || b == b'_'
}

/// The number that the digits write, if it is below 2^63, else 2^63.
#[tactic(auto, using(crate::proofs::Numbers::more))]
fn value_of(digits: &[u8]) -> u64
    ensures { result ≡ min (2 ^ 63) (value_after 0 digits.now) }
{
    let mut value: u64 = 0;
    for digit in digits {
        value = with_digit(value, *digit);
    }
    value
}

/// The same with one digit more.
fn with_digit(value: u64, digit: u8) -> u64
    ensures { result ≡ min (2 ^ 63) (10 * value + (digit - 48)) }
{
    let next = value
        .saturating_mul(10)
        .saturating_add(digit.saturating_sub(48) as u64);
    if next < LIMIT { next } else { LIMIT }
}
