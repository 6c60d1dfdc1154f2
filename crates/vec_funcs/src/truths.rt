ghost use Rattle.std.specs.Prelude.{◌≡◌, ◌+◌, map, length, if◌then◌else◌, IfErr};
ghost use Rattle.std.specs.List.{list_any};
ghost use Rattle.dt_base.specs.declared.cell.Cell.TheVariants as is;
ghost use Rattle.dt_model.specs.Coercion.{is_na};
ghost use Rattle.vector_model.specs.Functions.{is_true, is_false, any_cell, all_cell, any_value};
ghost use Rattle.vector_model.specs.Functions.{all_value};
ghost use Rattle.eval_fail.specs.Answers.{AnswersAs, IsOwn};
ghost use Rattle.na_vector.specs.Words.{lgl_cell, lgl_vector, IsLglWord};
ghost use Rattle.na_words.specs.Shown.{shown};
ghost use Rattle.valued.specs.Valued.{valued_of};

use crate::missing::has_na;
use dt_base::{Code, Steps};
use eval_fail::{EvalFail, stop};
use na_vector::Column;
use na_words::{NA_LGL, Words, words_of};
use std::alloc::Global;
use std::sync::ledger::Ledger;
use valued::{Valued, one};

fn is_true(word: u8) -> bool
    ensures { result ≡ is_true (lgl_cell word) }
{
    word == 1
}

fn is_false(word: u8) -> bool
    ensures { result ≡ is_false (lgl_cell word) }
{
    word != 1 && word != NA_LGL
}

/// Whether some word is TRUE.
fn has_true(words: &[u8]) -> bool
    ensures { result ≡ list_any is_true (map lgl_cell words.now) }
{
    for word in words {
        if is_true(*word) {
            return true;
        }
    }
    false
}

/// Whether some word is FALSE.
fn has_false(words: &[u8]) -> bool
    ensures { result ≡ list_any is_false (map lgl_cell words.now) }
{
    for word in words {
        if is_false(*word) {
            return true;
        }
    }
    false
}

/// NA where some word is NA, else the other word.
fn na_or(words: &[u8], other: u8) -> u8
    requires { IsLglWord other }
    ensures word { lgl_cell result ≡
        (if list_any is_na (map lgl_cell words.now) then is.Na else lgl_cell other) }
    ensures fine { IsLglWord result }
{
    if has_na(words) { NA_LGL } else { other }
}

/// The word of `any`.
fn any_word(words: &[u8]) -> u8
    ensures word { lgl_cell result ≡ any_cell (map lgl_cell words.now) }
    ensures fine { IsLglWord result }
{
    if has_true(words) { 1 } else { na_or(words, 0) }
}

/// The word of `all`.
fn all_word(words: &[u8]) -> u8
    ensures word { lgl_cell result ≡ all_cell (map lgl_cell words.now) }
    ensures fine { IsLglWord result }
{
    if has_false(words) { 0 } else { na_or(words, 1) }
}

/// `any` of logical words.
fn any_given(alloc: Global, words: &[u8]) -> Result<Valued, EvalFail>
    ensures answer { AnswersAs valued_of (any_value (lgl_vector words.now)) result }
    ensures own { IfErr result IsOwn }
{
    one::<u8>(alloc, any_word(words))
}

/// `all` of logical words.
fn all_given(alloc: Global, words: &[u8]) -> Result<Valued, EvalFail>
    ensures answer { AnswersAs valued_of (all_value (lgl_vector words.now)) result }
    ensures own { IfErr result IsOwn }
{
    one::<u8>(alloc, all_word(words))
}

/// `any` of the words of a column.
fn any_of(alloc: Global, words: Words<'_>) -> Result<Valued, EvalFail>
    ensures answer { AnswersAs valued_of (any_value (shown words.entry)) result }
    ensures own { IfErr result IsOwn }
{
    match words {
        Words::Lgl(x) => any_given(alloc, x),
        Words::Int(_) => Err(stop(alloc, Code::E04, "any")),
        Words::Chr(_) => Err(stop(alloc, Code::E04, "any")),
    }
}

/// `all` of the words of a column.
fn all_of(alloc: Global, words: Words<'_>) -> Result<Valued, EvalFail>
    ensures answer { AnswersAs valued_of (all_value (shown words.entry)) result }
    ensures own { IfErr result IsOwn }
{
    match words {
        Words::Lgl(x) => all_given(alloc, x),
        Words::Int(_) => Err(stop(alloc, Code::E04, "all")),
        Words::Chr(_) => Err(stop(alloc, Code::E04, "all")),
    }
}

/// Whether some cell is TRUE: TRUE where one is, else NA where one is NA, else FALSE. So that of
/// nothing is FALSE. Another type than logical is E04 with `any`.
///
/// It touches each cell of the column once.
///
/// From `any` of R; docs/LANGUAGE.md, section "Functions".
pub fn any<L: Ledger>(alloc: Global, x: &Column, steps: &mut Steps<L>) -> Result<Valued, EvalFail>
    ensures answer { AnswersAs valued_of (any_value x.now.vector) result }
    ensures touches { steps.new ≡ steps.old + length x.now.vector.cells }
    ensures own { IfErr result IsOwn }
{
    let words = words_of(x, steps);
    any_of(alloc, words)
}

/// Whether every cell is TRUE: FALSE where one is FALSE, else NA where one is NA, else TRUE. So
/// that of nothing is TRUE. Another type than logical is E04 with `all`.
///
/// It touches each cell of the column once.
///
/// From `all` of R; docs/LANGUAGE.md, section "Functions".
pub fn all<L: Ledger>(alloc: Global, x: &Column, steps: &mut Steps<L>) -> Result<Valued, EvalFail>
    ensures answer { AnswersAs valued_of (all_value x.now.vector) result }
    ensures touches { steps.new ≡ steps.old + length x.now.vector.cells }
    ensures own { IfErr result IsOwn }
{
    let words = words_of(x, steps);
    all_of(alloc, words)
}
