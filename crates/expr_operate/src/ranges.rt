ghost use Rattle.std.specs.Prelude.{◌≡◌, ◌≢◌, ◌+◌, ◌<◌, ◌≤◌, ◌^◌, ◌+ℤ◌, ◌-ℤ◌, ◌≤ℤ◌, pos, negsuc};
ghost use Rattle.std.specs.Prelude.{length, map, unsigned_abs, Some, ◌++◌, ◌∷◌, [], IfOk, IfSome};
ghost use Rattle.std.specs.Prelude.{OnOk, IfErr};
ghost use Rattle.std.specs.Int.{is_negative};
ghost use Rattle.std.specs.List.{range_with_len};
ghost use Rattle.eval_fail.specs.Answers.{Answers, AnswersAs, IsOwn};
ghost use Rattle.dt_model.specs.Operations.{number};
ghost use Rattle.dt_model.specs.Vector.{cell_at};
ghost use Rattle.expr_model.specs.Operators.{end_of, distance, towards, numbers_between, between};
ghost use Rattle.expr_model.specs.Operators.{range};
ghost use Rattle.na_vector.specs.Words.{int_cell, lgl_cell, text_cell};
ghost use Rattle.na_words.specs.Shown.{shown, IsShown};
ghost use Rattle.valued.specs.Valued.{vector_of};
ghost use Rattle.expr_operate.specs.Ranges.{IsNumber};

use crate::types::range_type;
use dt_base::limits::{MAX_ROWS, NA_WORD};
use dt_base::{Code, Steps, Text};
use eval_fail::{EvalFail, stop, stop_length};
use na_vector::Column;
use na_words::{NA_LGL, Words, words_of};
use std::alloc::{AllocError, Global};
use std::sync::ledger::Ledger;

/// The number of a logical word.
fn lgl_number(word: u8) -> Option<i64>
    ensures number { result ≡ number (lgl_cell word) }
    ensures inside { IfSome result IsNumber }
{
    if word == NA_LGL {
        return None;
    }
    if word == 1 { Some(1) } else { Some(0) }
}

/// The number of an integer word.
fn int_number(word: i64) -> Option<i64>
    ensures number { result ≡ number (int_cell word) }
    ensures inside { IfSome result IsNumber }
{
    if word == NA_WORD { None } else { Some(word) }
}

/// A text has no number.
fn text_number(text: &Option<Text>) -> Option<i64>
    ensures number { result ≡ number (text_cell text.now) }
    ensures inside { IfSome result IsNumber }
{
    match text {
        Some(_) => None,
        None => None,
    }
}

/// The number of the first word.
fn first_number(words: Words<'_>) -> Option<i64>
    requires { length (shown words).cells ≡ 1 }
    ensures number { result ≡ number (cell_at (shown words.entry).cells 0) }
    ensures inside { IfSome result IsNumber }
{
    match words {
        Words::Lgl(x) => lgl_number(x[0]),
        Words::Int(x) => int_number(x[0]),
        Words::Chr(x) => text_number(&x[0]),
    }
}

/// An end of a range: the number of the only cell. Another length is E05.
fn end_of<L: Ledger>(
    alloc: Global,
    column: &Column,
    steps: &mut Steps<L>,
) -> Result<Option<i64>, EvalFail>
    ensures end { Answers (end_of column.now.vector) result }
    ensures inside { IfOk result (λ o. IfSome o IsNumber) }
    ensures own { IfErr result IsOwn }
    ensures touches { steps.new ≤ steps.old + length column.now.vector.cells }
{
    let n = column.len();
    if n != 1 {
        return Err(stop_length(alloc, n, 1));
    }
    Ok(first_number(words_of(column, steps)))
}

/// How far the second number is above the first.
fn difference(x: i64, y: i64) -> i128
    ensures { result ≡ y -ℤ x }
{
    y as i128 - x as i128
}

/// How far two numbers are apart.
fn distance(x: i64, y: i64) -> u128
    ensures { result ≡ distance x y }
{
    difference(x, y).unsigned_abs()
}

/// The number k steps up from one, and not above another.
fn risen(x: i64, k: usize, y: i64) -> i64
    requires below { (x +ℤ pos k) ≤ℤ y }
    requires few { k ≤ MAX_ROWS }
    ensures { result ≡ x +ℤ pos k }
{
    x + k as i64
}

/// The number k steps down from one, and not below another.
fn fallen(x: i64, k: usize, y: i64) -> i64
    requires above { y ≤ℤ (x -ℤ pos k) }
    requires few { k ≤ MAX_ROWS }
    ensures { result ≡ x -ℤ pos k }
{
    x - k as i64
}

/// The two ends of a range.
#[derive(Clone, Copy)]
struct Ends {
    from: i64,
    to: i64,
}

/// Whether the range falls.
fn is_falling(ends: &Ends) -> bool
    ensures { result ≡ is_negative (ends.now.to -ℤ ends.now.from) }
{
    ends.to < ends.from
}

/// The word k steps from the one end towards the other.
fn word_towards(ends: &Ends, k: usize) -> i64
    requires from { IsNumber ends.now.from }
    requires to { IsNumber ends.now.to }
    requires within { k ≤ distance ends.now.from ends.now.to }
    requires few { k ≤ MAX_ROWS }
    ensures { int_cell result ≡ towards ends.now.from ends.now.to k }
{
    if is_falling(ends) {
        fallen(ends.from, k, ends.to)
    } else {
        risen(ends.from, k, ends.to)
    }
}

/// Puts the word k steps from the one end towards the other.
fn put_word(words: &mut Vec<i64>, ends: &Ends, k: usize) -> Result<(), AllocError>
    requires from { IsNumber ends.now.from }
    requires to { IsNumber ends.now.to }
    requires within { k ≤ distance ends.now.from ends.now.to }
    requires few { k ≤ MAX_ROWS }
    ensures cells { OnOk result
        (map int_cell words.new.items
        ≡ map int_cell words.old.items ++ towards ends.now.from ends.now.to k ∷ []) }
    ensures count { OnOk result (length words.new.items ≡ length words.old.items + 1) }
{
    words.push(word_towards(ends, k))?;
    Ok(())
}

/// The words of the first n numbers from the one end towards the other.
fn words_between(alloc: Global, ends: &Ends, n: usize) -> Result<Vec<i64>, AllocError>
    requires from { IsNumber ends.now.from }
    requires to { IsNumber ends.now.to }
    requires within { n ≤ distance ends.now.from ends.now.to + 1 }
    requires few { n ≤ MAX_ROWS }
    ensures cells { IfOk result
        (λ v. map int_cell v.items ≡ map (towards ends.now.from ends.now.to) (range_with_len 0 n)) }
    ensures count { IfOk result (λ v. length v.items ≡ n) }
{
    let mut words = Vec::new(alloc);
    for k in 0..n {
        put_word(&mut words, ends, k)?;
    }
    Ok(words)
}

/// Each whole number from the one end to the other. More than 16,777,216 are E07.
fn numbers_between(alloc: Global, ends: &Ends) -> Result<Column, EvalFail>
    requires from { IsNumber ends.now.from }
    requires to { IsNumber ends.now.to }
    ensures answer { AnswersAs vector_of (between (Some ends.now.from) (Some ends.now.to)) result }
    ensures own { IfErr result IsOwn }
{
    let far = distance(ends.from, ends.to);
    if far >= MAX_ROWS as u128 {
        return Err(stop(alloc, Code::E07, ""));
    }
    match words_between(alloc, ends, far as usize + 1) {
        Ok(words) => Ok(Column::from_ints(words)),
        Err(e) => Err(EvalFail::NoMemory(e)),
    }
}

/// The range between two ends. NA is E19 with `:`.
fn between(alloc: Global, x: Option<i64>, y: Option<i64>) -> Result<Column, EvalFail>
    requires from { IfSome x IsNumber }
    requires to { IfSome y IsNumber }
    ensures answer { AnswersAs vector_of (between x y) result }
    ensures own { IfErr result IsOwn }
{
    match (x, y) {
        (Some(from), Some(to)) => numbers_between(alloc, &Ends { from, to }),
        _ => Err(stop(alloc, Code::E19, ":")),
    }
}

/// `a:b`: each whole number from the one to the other, rising or falling. Texts are E04 with `:`, a
/// length that is not 1 is E05, NA is E19 with `:`, and more than 16,777,216 numbers are E07.
pub fn range_value<L: Ledger>(
    alloc: Global,
    a: &Column,
    b: &Column,
    steps: &mut Steps<L>,
) -> Result<Column, EvalFail>
    ensures answer { AnswersAs vector_of (range a.now.vector b.now.vector) result }
    ensures own { IfErr result IsOwn }
    ensures touches { steps.new
        ≤ steps.old + (length a.now.vector.cells + length b.now.vector.cells) }
{
    range_type(alloc, a.kind(), b.kind())?;
    let x = end_of(alloc, a, steps)?;
    let y = end_of(alloc, b, steps)?;
    between(alloc, x, y)
}
