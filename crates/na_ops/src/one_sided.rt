ghost use Rattle.std.specs.Prelude.{◌≡◌, ◌+◌, ◌≤◌, length, map, Some, Ok};
ghost use Rattle.dt_base.specs.declared.cell.Cell.TheVariants as cell;
ghost use Rattle.dt_base.specs.declared.limits.TheConstants.{MAX_ROWS};
ghost use Rattle.dt_model.specs.Coercion.{is_na};
ghost use Rattle.dt_model.specs.Operations.{unary, negated, inverted, number, typed};
ghost use Rattle.na_vector.specs.Words.{int_cell, lgl_cell, IsLglWord};
ghost use Rattle.na_common.specs.Answers.{Answers, vector_of};
ghost use Rattle.na_words.specs.Shown.{shown, IsShown};

use dt_base::limits::NA_WORD;
use dt_base::{Steps, Text, UnOp};
use na_common::OpFail;
use na_vector::Column;
use na_words::{Change, NA_LGL, Number, Target, Word, Words, append, words_of};
use std::alloc::{AllocError, Global};
use std::sync::ledger::Ledger;

/// `-`
struct Negate;

/// `!`
struct Invert;

/// `is.na`
struct TestNa;

fn negative(n: i64) -> i64
    ensures { int_cell result ≡ negated (number (int_cell n)) }
{
    if n == NA_WORD { NA_WORD } else { -n }
}

fn inverse(b: u8) -> u8
    ensures word { lgl_cell result ≡ inverted (lgl_cell b) }
    ensures fine { IsLglWord result }
{
    match b {
        NA_LGL => NA_LGL,
        1 => 0,
        _ => 1,
    }
}

impl<A: Number> Change<A, i64> for Negate {
    ghost table = { λ c. negated (number c) };

    fn of(_alloc: Global, x: &A) -> Result<i64, AllocError> {
        Ok(negative(x.number()))
    }
}

impl Change<u8, u8> for Invert {
    ghost table = { inverted };

    fn of(_alloc: Global, x: &u8) -> Result<u8, AllocError> {
        Ok(inverse(*x))
    }
}

impl<A: Word> Change<A, u8> for TestNa {
    ghost table = { λ c. cell.Lgl (is_na c) };

    fn of(_alloc: Global, x: &A) -> Result<u8, AllocError> {
        Ok(x.is_na() as u8)
    }
}

/// The column of the changed words.
fn changed<A: Word, W: Target + Drop, C: Change<A, W>>(
    alloc: Global,
    a: &[A],
) -> Result<Column, OpFail>
    requires { length a.now ≤ MAX_ROWS }
    ensures { Answers vector_of (typed (Some W.kind) (Ok (map C.table (map A.cell a.now)))) result }
{
    let mut out = Vec::new(alloc);
    match append::<A, W, C>(alloc, &mut out, a) {
        Ok(()) => match W::column(out) {
            Ok(column) => Ok(column),
            Err(e) => Err(OpFail::NoMemory(e)),
        },
        Err(e) => Err(OpFail::NoMemory(e)),
    }
}

/// The operation on the words of a column.
fn operate(alloc: Global, op: UnOp, a: Words<'_>) -> Result<Column, OpFail>
    requires { IsShown a }
    ensures { Answers vector_of (unary op (shown a.entry)) result }
{
    match (op, a) {
        (UnOp::Neg, Words::Lgl(x)) => changed::<u8, i64, Negate>(alloc, x),
        (UnOp::Neg, Words::Int(x)) => changed::<i64, i64, Negate>(alloc, x),
        (UnOp::Not, Words::Lgl(x)) => changed::<u8, u8, Invert>(alloc, x),
        (UnOp::IsNa, Words::Lgl(x)) => changed::<u8, u8, TestNa>(alloc, x),
        (UnOp::IsNa, Words::Int(x)) => changed::<i64, u8, TestNa>(alloc, x),
        (UnOp::IsNa, Words::Chr(x)) => changed::<Option<Text>, u8, TestNa>(alloc, x),
        _ => Err(OpFail::BadType),
    }
}

/// The column of `-`, `!` or `is.na` at each cell. A type that the operation does not take is
/// `BadType`; else only memory can lack.
///
/// It touches each cell of the column once.
pub fn unary<L: Ledger>(
    alloc: Global,
    op: UnOp,
    a: &Column,
    steps: &mut Steps<L>,
) -> Result<Column, OpFail>
    ensures answer { Answers vector_of (unary op a.now.vector) result }
    ensures touches { steps.new ≡ steps.old + length a.now.vector.cells }
{
    let words = words_of(a, steps);
    operate(alloc, op, words)
}
