ghost use Rattle.std.specs.Prelude.{◌≡◌, ◌+◌, ◌^◌, ◌≤◌, ◌+ℤ◌, ◌≤ℤ◌, pos, neg_ℤ, nat_lt};
ghost use Rattle.std.specs.Prelude.{unsigned_abs, length, map, IfErr};
ghost use Rattle.dt_base.specs.declared.limits.TheConstants.{MAX_ROWS};
ghost use Rattle.dt_model.specs.Operations.{number, whole};
ghost use Rattle.vector_model.specs.Functions.{amount, total, total_value, sum_cells, sum_value};
ghost use Rattle.eval_fail.specs.Answers.{AnswersAs, IsOwn};
ghost use Rattle.na_vector.specs.Words.{int_cell};
ghost use Rattle.na_words.specs.Shown.{shown, IsShown};
ghost use Rattle.valued.specs.Valued.{valued_of};
ghost use Rattle.vec_funcs.specs.Words.{IsWord};

use crate::missing::meets_na;
use dt_base::limits::{MAX_INTEGER, NA_WORD};
use dt_base::{Code, Steps};
use eval_fail::{EvalFail, stop};
use na_vector::Column;
use na_words::{Number, Words, words_of};
use std::alloc::Global;
use std::sync::ledger::Ledger;
use valued::{Valued, one};

/// What an integer adds to a total; NA adds nothing.
fn amount(word: i64) -> i128
    ensures value { result ≡ amount (number (int_cell word)) }
    ensures low { neg_ℤ (pos (2 ^ 63)) ≤ℤ result }
    ensures high { result ≤ℤ pos (2 ^ 63) }
{
    if word == NA_WORD { 0 } else { word as i128 }
}

/// What a word adds to a total.
fn amount_of<A: Number>(x: &A) -> i128
    ensures value { result ≡ amount (number (A.cell x.now)) }
    ensures low { neg_ℤ (pos (2 ^ 63)) ≤ℤ result }
    ensures high { result ≤ℤ pos (2 ^ 63) }
{
    amount(x.number())
}

/// A total of up to 2^24 words and one more.
fn plus(t: i128, n: i128) -> i128
    requires low { neg_ℤ (pos (2 ^ 100)) ≤ℤ t }
    requires high { t ≤ℤ pos (2 ^ 100) }
    requires low_more { neg_ℤ (pos (2 ^ 63)) ≤ℤ n }
    requires high_more { n ≤ℤ pos (2 ^ 63) }
    ensures { result ≡ t +ℤ n }
{
    t + n
}

/// The exact total: 128 bits hold that of 2^24 integers.
fn total<A: Number>(words: &[A]) -> i128
    requires { length words.now ≤ MAX_ROWS }
    ensures { result ≡ total (map A.cell words.now) }
{
    let mut t: i128 = 0;
    for x in words {
        t = plus(t, amount_of(x));
    }
    t
}

/// Whether a cell holds the number.
fn is_inside(n: i128) -> bool
    ensures { result ≡ nat_lt (unsigned_abs n) (2 ^ 63) }
{
    -(MAX_INTEGER as i128) <= n && n <= MAX_INTEGER as i128
}

/// The word of a number, if a cell holds it.
fn word_of(n: i128) -> Option<i64>
    ensures { IsWord int_cell (whole n) result }
{
    if is_inside(n) { Some(n as i64) } else { None }
}

/// The total as an answer.
fn total_given(alloc: Global, n: i128) -> Result<Valued, EvalFail>
    ensures answer { AnswersAs valued_of (total_value (whole n)) result }
    ensures own { IfErr result IsOwn }
{
    match word_of(n) {
        Some(word) => one::<i64>(alloc, word),
        None => Err(stop(alloc, Code::E06, "sum")),
    }
}

/// The sum of words that are numbers.
fn sum_words<A: Number>(alloc: Global, words: &[A], na_rm: bool) -> Result<Valued, EvalFail>
    requires { length words.now ≤ MAX_ROWS }
    ensures answer { AnswersAs valued_of (sum_cells na_rm (map A.cell words.now)) result }
    ensures own { IfErr result IsOwn }
{
    if meets_na(na_rm, words) {
        return one::<i64>(alloc, NA_WORD);
    }
    total_given(alloc, total(words))
}

/// The sum of the words of a column.
fn sum_of(alloc: Global, words: Words<'_>, na_rm: bool) -> Result<Valued, EvalFail>
    requires { IsShown words }
    ensures answer { AnswersAs valued_of (sum_value na_rm (shown words.entry)) result }
    ensures own { IfErr result IsOwn }
{
    match words {
        Words::Lgl(x) => sum_words::<u8>(alloc, x, na_rm),
        Words::Int(x) => sum_words::<i64>(alloc, x, na_rm),
        Words::Chr(_) => Err(stop(alloc, Code::E04, "sum")),
    }
}

/// The sum of the cells, an integer: FALSE is 0 and TRUE is 1, and that of nothing is 0. NA gives
/// NA, or is left out under `na_rm`. A column of texts is E04 with `sum`. A total that no cell
/// holds is E06 with `sum`, whatever the order of the cells: it is looked at as a whole.
///
/// It touches each cell of the column once.
///
/// From `sum` of R, which gives NA with a warning on overflow; docs/LANGUAGE.md, section
/// "Functions".
pub fn sum<L: Ledger>(
    alloc: Global,
    x: &Column,
    na_rm: bool,
    steps: &mut Steps<L>,
) -> Result<Valued, EvalFail>
    ensures answer { AnswersAs valued_of (sum_value na_rm x.now.vector) result }
    ensures touches { steps.new ≡ steps.old + length x.now.vector.cells }
    ensures own { IfErr result IsOwn }
{
    let words = words_of(x, steps);
    sum_of(alloc, words, na_rm)
}
