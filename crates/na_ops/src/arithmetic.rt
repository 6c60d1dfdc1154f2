ghost use Rattle.std.specs.Prelude.{◌≡◌, ◌≢◌, ◌<◌, ◌≤◌, ◌^◌, ◌+ℤ◌, ◌-ℤ◌, ◌*ℤ◌, ◌<ℤ◌, ℤ, pos};
ghost use Rattle.std.specs.Prelude.{negsuc, Option, nat_lt, unsigned_abs};
ghost use Rattle.dt_model.specs.Operations.{Outcome, number, whole, added, subtracted, multiplied};
ghost use Rattle.dt_model.specs.Operations.{quotient, remainder, rounded_down, floor_quotient};
ghost use Rattle.dt_model.specs.Operations.{floor_remainder};
ghost use Rattle.na_vector.specs.Words.{int_cell};
ghost use Rattle.na_common.specs.Answers.{Answers, vector_of};
ghost use Rattle.na_ops.specs.Families.{arithmetic_answer};
ghost use Rattle.na_words.specs.Shown.{shown, IsShown};
ghost use Rattle.na_ops.specs.Words.{IsWord};

use crate::places::{Kernel, over};
use dt_base::limits::{MAX_INTEGER, NA_WORD};
use na_common::OpFail;
use na_vector::Column;
use na_words::{Number, Words};
use std::alloc::Global;
use std::marker::PhantomData;

/// An operation on two numbers.
pub trait Arithmetic {
    ghost table: { Option ℤ → Option ℤ → Outcome };

    /// The word of the result, or none where it is outside.
    fn at(x: i64, y: i64) -> Option<i64>
        ensures { IsWord int_cell (table (number (int_cell x)) (number (int_cell y))) result };
}

/// An operation on the numbers that two words count as.
pub struct OnNumbers<K> {
    kernel: PhantomData<K>,
}

impl<A: Number, B: Number, K: Arithmetic> Kernel<A, B, i64> for OnNumbers<K> {
    ghost table = { λ a b. K.table (number a) (number b) };

    fn at(x: &A, y: &B) -> Option<i64> {
        K::at(x.number(), y.number())
    }
}

/// The operation on two columns.
pub fn calculate<K: Arithmetic>(alloc: Global, a: Words<'_>, b: Words<'_>) -> Result<Column, OpFail>
    requires left { IsShown a }
    requires right { IsShown b }
    ensures { Answers vector_of (arithmetic_answer K.table (shown a.entry) (shown b.entry)) result }
{
    match (a, b) {
        (Words::Lgl(x), Words::Lgl(y)) => over::<u8, u8, i64, OnNumbers<K>>(alloc, x, y),
        (Words::Lgl(x), Words::Int(y)) => over::<u8, i64, i64, OnNumbers<K>>(alloc, x, y),
        (Words::Int(x), Words::Lgl(y)) => over::<i64, u8, i64, OnNumbers<K>>(alloc, x, y),
        (Words::Int(x), Words::Int(y)) => over::<i64, i64, i64, OnNumbers<K>>(alloc, x, y),
        (Words::Chr(_), _) | (_, Words::Chr(_)) => Err(OpFail::BadType),
    }
}

pub struct Add;

pub struct Subtract;

pub struct Multiply;

pub struct Divide;

pub struct Modulo;

impl Arithmetic for Add {
    ghost table = { added };

    fn at(x: i64, y: i64) -> Option<i64> {
        if x == NA_WORD || y == NA_WORD {
            Some(NA_WORD)
        } else {
            word_of(sum(x, y))
        }
    }
}

impl Arithmetic for Subtract {
    ghost table = { subtracted };

    fn at(x: i64, y: i64) -> Option<i64> {
        if x == NA_WORD || y == NA_WORD {
            Some(NA_WORD)
        } else {
            word_of(difference(x, y))
        }
    }
}

impl Arithmetic for Multiply {
    ghost table = { multiplied };

    fn at(x: i64, y: i64) -> Option<i64> {
        if x == NA_WORD || y == NA_WORD {
            Some(NA_WORD)
        } else {
            word_of(product(x, y))
        }
    }
}

impl Arithmetic for Divide {
    ghost table = { quotient };

    fn at(x: i64, y: i64) -> Option<i64> {
        if x == NA_WORD || y == NA_WORD || y == 0 {
            Some(NA_WORD)
        } else {
            word_of(wide(floor_quotient(x, y)))
        }
    }
}

impl Arithmetic for Modulo {
    ghost table = { remainder };

    fn at(x: i64, y: i64) -> Option<i64> {
        if x == NA_WORD || y == NA_WORD || y == 0 {
            Some(NA_WORD)
        } else {
            word_of(floor_remainder(x, y))
        }
    }
}

/// Whether a cell holds the number.
fn is_inside(n: i128) -> bool
    ensures { result ≡ nat_lt (unsigned_abs n) (2 ^ 63) }
{
    -(MAX_INTEGER as i128) <= n && n <= MAX_INTEGER as i128
}

fn word_of(n: i128) -> Option<i64>
    ensures { IsWord int_cell (whole n) result }
{
    if is_inside(n) { Some(n as i64) } else { None }
}

fn wide(x: i64) -> i128
    ensures { result ≡ x }
{
    x as i128
}

fn sum(x: i64, y: i64) -> i128
    ensures { result ≡ x +ℤ y }
{
    x as i128 + y as i128
}

fn difference(x: i64, y: i64) -> i128
    ensures { result ≡ x -ℤ y }
{
    x as i128 - y as i128
}

fn product(x: i64, y: i64) -> i128
    ensures value { result ≡ x *ℤ y }
    ensures small { unsigned_abs result ≤ 2 ^ 126 }
{
    x as i128 * y as i128
}

/// The number n of which x is -(n + 1).
fn below_zero(x: i64) -> u64
    requires { x <ℤ pos 0 }
    ensures negative { x ≡ negsuc result }
    ensures small { result < 2 ^ 63 }
{
    (-(x + 1)) as u64
}

/// The number -(n + 1).
fn negative(n: u64) -> i64
    requires { n < 2 ^ 63 }
    ensures { result ≡ negsuc n }
{
    -(n as i64) - 1
}

/// `x / m`, rounded down.
#[tactic(auto, using(crate::proofs::Numbers::quotients))]
fn rounded_down(x: i64, m: u64) -> i64
    requires { 0 < m }
    ensures { result ≡ rounded_down x m }
{
    if x >= 0 {
        (x as u64 / m) as i64
    } else {
        negative(below_zero(x) / m)
    }
}

/// The quotient, rounded down. No number is -2^63, and the divisor is not 0.
fn floor_quotient(x: i64, y: i64) -> i64
    requires number { unsigned_abs x < 2 ^ 63 }
    requires divisor { y ≢ pos 0 }
    ensures { result ≡ floor_quotient x y }
{
    let m = y.unsigned_abs();
    if y < 0 {
        rounded_down(-x, m)
    } else {
        rounded_down(x, m)
    }
}

/// What a product leaves of a number.
fn rest(x: i64, product: i128) -> i128
    requires { unsigned_abs product ≤ 2 ^ 126 }
    ensures { result ≡ x -ℤ product }
{
    x as i128 - product
}

/// What the quotient leaves: 0, or a number with the divisor's sign.
fn floor_remainder(x: i64, y: i64) -> i128
    requires number { unsigned_abs x < 2 ^ 63 }
    requires divisor { y ≢ pos 0 }
    ensures { result ≡ floor_remainder x y }
{
    rest(x, product(floor_quotient(x, y), y))
}
