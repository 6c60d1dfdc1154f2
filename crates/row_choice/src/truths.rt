ghost use Rattle.std.specs.Prelude.{◌≡◌, ◌≤◌, map, length, IfOk, IfErr};
ghost use Rattle.eval_fail.specs.Answers.{AnswersAs, IsOwn};
ghost use Rattle.dt_base.specs.declared.limits.TheConstants.{MAX_ROWS};
ghost use Rattle.row_model.specs.Rows.{all_or_none, by_truth, is_true, true_rows};
ghost use Rattle.na_vector.specs.Words.{lgl_cell};

use crate::listing::{all_rows, push_if};
use eval_fail::{EvalFail, stop_length};
use std::alloc::{AllocError, Global};

/// Whether the word is TRUE: NA is not.
fn is_true(word: u8) -> bool
    ensures { result ≡ is_true (lgl_cell word) }
{
    word == 1
}

/// The rows whose word is TRUE, in order.
fn true_rows(alloc: Global, words: &[u8]) -> Result<Vec<Option<u32>>, AllocError>
    requires { length words.now ≤ MAX_ROWS }
    ensures { IfOk result (λ v. v.items ≡ true_rows (map lgl_cell words.now)) }
{
    let mut out = Vec::new(alloc);
    for p in 0..words.len() {
        push_if(&mut out, p, is_true(words[p]))?;
    }
    Ok(out)
}

/// All rows or none.
fn all_or_none(alloc: Global, rows: usize, word: u8) -> Result<Vec<Option<u32>>, AllocError>
    requires { rows ≤ MAX_ROWS }
    ensures { IfOk result (λ v. v.items ≡ all_or_none rows (lgl_cell word)) }
{
    if is_true(word) {
        all_rows(alloc, rows)
    } else {
        Ok(Vec::new(alloc))
    }
}

/// The rows that logicals choose: one for each row, or one for all.
pub fn by_truth(alloc: Global, rows: usize, words: &[u8]) -> Result<Vec<Option<u32>>, EvalFail>
    requires { rows ≤ MAX_ROWS }
    ensures answer { AnswersAs (λ v. v.items) (by_truth rows (map lgl_cell words.now)) result }
    ensures own { IfErr result IsOwn }
{
    if words.len() == rows {
        return Ok(true_rows(alloc, words)?);
    }
    if words.len() != 1 {
        return Err(stop_length(alloc, words.len(), rows));
    }
    Ok(all_or_none(alloc, rows, words[0])?)
}
