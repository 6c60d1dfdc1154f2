ghost use Rattle.std.specs.Prelude.{◌≡◌, ◌≤◌, ◌++◌, nat_lt, Some, None, map, IfOk, IfErr, OnOk};
ghost use Rattle.std.specs.Prelude.{if◌then◌else◌};
ghost use Rattle.std.specs.List.{list_any, list_all};
ghost use Rattle.eval_fail.specs.Answers.{AnswersAs, IsOwn};
ghost use Rattle.dt_base.specs.declared.limits.TheConstants.{MAX_ROWS};
ghost use Rattle.row_model.specs.Rows.{by_place, is_below_or_zero, is_below_zero, named_row};
ghost use Rattle.row_model.specs.Rows.{named_rows};
ghost use Rattle.na_vector.specs.Words.{int_cell};

use crate::marks::left_rows;
use crate::place::{Place, is_below_or_zero, is_below_zero, place_of};
use dt_base::Code;
use eval_fail::{EvalFail, stop};
use std::alloc::{AllocError, Global};

/// Whether some word is negative.
fn has_below_zero(words: &[i64]) -> bool
    ensures { result ≡ list_any is_below_zero (map int_cell words.now) }
{
    for word in words {
        if is_below_zero(*word) {
            return true;
        }
    }
    false
}

/// Whether each word is negative or 0.
fn are_below_or_zero(words: &[i64]) -> bool
    ensures { result ≡ list_all is_below_or_zero (map int_cell words.now) }
{
    for word in words {
        if !is_below_or_zero(*word) {
            return false;
        }
    }
    true
}

/// The row, or none past the end.
fn row_within(rows: usize, p: u64) -> Option<u32>
    requires { rows ≤ MAX_ROWS }
    ensures { result ≡ (if nat_lt p rows then Some p else None) }
{
    if p < rows as u64 {
        Some(p as u32)
    } else {
        None
    }
}

/// Adds what a word names: nothing, a row, or a row of NA.
fn push_named(out: &mut Vec<Option<u32>>, rows: usize, word: i64) -> Result<(), AllocError>
    requires { rows ≤ MAX_ROWS }
    ensures { OnOk result (out.new.items ≡ out.old.items ++ named_row rows (int_cell word)) }
{
    match place_of(word) {
        Place::Zero => {}
        Place::Row(p) => out.push(row_within(rows, p))?,
        Place::Na | Place::Out(_) => out.push(None)?,
    }
    Ok(())
}

/// The rows that the words name, in their order.
fn named_rows(alloc: Global, rows: usize, words: &[i64]) -> Result<Vec<Option<u32>>, AllocError>
    requires { rows ≤ MAX_ROWS }
    ensures { IfOk result (λ v. v.items ≡ named_rows rows (map int_cell words.now)) }
{
    let mut out = Vec::with_capacity(alloc, words.len())?;
    for word in words {
        push_named(&mut out, rows, *word)?;
    }
    Ok(out)
}

/// The rows that integers choose: those that they name, or all but those that negative ones leave
/// out.
pub fn by_place(alloc: Global, rows: usize, words: &[i64]) -> Result<Vec<Option<u32>>, EvalFail>
    requires { rows ≤ MAX_ROWS }
    ensures answer { AnswersAs (λ v. v.items) (by_place rows (map int_cell words.now)) result }
    ensures own { IfErr result IsOwn }
{
    if !has_below_zero(words) {
        return Ok(named_rows(alloc, rows, words)?);
    }
    if !are_below_or_zero(words) {
        return Err(stop(alloc, Code::E13, ""));
    }
    Ok(left_rows(alloc, rows, words)?)
}
