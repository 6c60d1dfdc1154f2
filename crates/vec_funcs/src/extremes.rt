ghost use Rattle.std.specs.Prelude.{◌≡◌, ◌+◌, ◌<◌, map, length, IfErr};
ghost use Rattle.dt_model.specs.Vector.{IsWithin};
ghost use Rattle.vector_model.specs.Functions.{extreme_type, winner, found_value, extreme_cells};
ghost use Rattle.vector_model.specs.Functions.{min_value, max_value};
ghost use Rattle.eval_fail.specs.Answers.{AnswersAs, IsOwn};
ghost use Rattle.na_words.specs.Shown.{shown};
ghost use Rattle.valued.specs.Valued.{valued_of};

use crate::missing::meets_na;
use crate::ranked::Ranked;
use dt_base::{Steps, Text, Warn, Warns};
use eval_fail::EvalFail;
use na_vector::Column;
use na_words::{Target, Words, words_of};
use std::alloc::Global;
use std::sync::ledger::Ledger;
use valued::{Valued, one, one_warned};

/// Which of two cells is taken.
#[derive(Clone, Copy)]
enum Side {
    Least,
    Greatest,
}

ghost use Rattle.vec_funcs.specs.Sides.{beats, takes, after, standing, extreme_value};

/// Whether the first word is taken before the second.
fn beats<A: Ranked>(side: Side, x: &A, y: &A) -> bool
    ensures { result ≡ beats side (extreme_type A.kind) (A.cell x.now) (A.cell y.now) }
{
    match side {
        Side::Least => x.is_before(y),
        Side::Greatest => y.is_before(x),
    }
}

/// Whether the word at a place is taken before the best so far.
fn takes<A: Ranked>(side: Side, words: &[A], p: usize, best: Option<usize>) -> bool
    requires place { p < length words.now }
    requires best { IsWithin (length words.now) best }
    ensures { result ≡ takes (beats side (extreme_type A.kind)) (map A.cell words.now) p best }
{
    match best {
        Some(b) => beats(side, &words[p], &words[b]),
        None => !words[p].is_na(),
    }
}

/// The place of the best word so far, after the one at this place.
fn after<A: Ranked>(side: Side, words: &[A], p: usize, best: Option<usize>) -> Option<usize>
    requires place { p < length words.now }
    requires best { IsWithin (length words.now) best }
    ensures within { IsWithin (length words.now) result }
    ensures after { result ≡ after (beats side (extreme_type A.kind))
        (map A.cell words.now) p best }
{
    if takes(side, words, p, best) {
        Some(p)
    } else {
        best
    }
}

/// The place of the first word that no other beats, NA apart.
fn winner<A: Ranked>(side: Side, words: &[A]) -> Option<usize>
    ensures within { IsWithin (length words.now) result }
    ensures winner { winner (beats side (extreme_type A.kind)) (map A.cell words.now) ≡
        standing (map A.cell words.now) result }
{
    let mut best: Option<usize> = None;
    for p in 0..words.len() {
        best = after(side, words, p, best);
    }
    best
}

/// The word at a place, brought to its type, as an answer.
fn word_given<A: Ranked, W: Target + Drop>(
    alloc: Global,
    words: &[A],
    p: usize,
) -> Result<Valued, EvalFail>
    requires { p < length words.now }
    ensures answer { AnswersAs valued_of
        (found_value W.kind (standing (map A.cell words.now) (Some p))) result }
    ensures own { IfErr result IsOwn }
{
    match W::of::<A>(alloc, &words[p]) {
        Ok(word) => one::<W>(alloc, word),
        Err(e) => Err(EvalFail::NoMemory(e)),
    }
}

/// The answer where there is no cell but NA.
fn nothing_given<W: Target + Drop>(alloc: Global) -> Result<Valued, EvalFail>
    ensures answer { AnswersAs valued_of (found_value W.kind None) result }
    ensures own { IfErr result IsOwn }
{
    one_warned::<W>(alloc, W::na(), Warns::none().with(Warn::W03))
}

/// The word at a place, if there is one, as an answer.
fn found_given<A: Ranked, W: Target + Drop>(
    alloc: Global,
    words: &[A],
    found: Option<usize>,
) -> Result<Valued, EvalFail>
    requires { IsWithin (length words.now) found }
    ensures answer { AnswersAs valued_of
        (found_value W.kind (standing (map A.cell words.now) found)) result }
    ensures own { IfErr result IsOwn }
{
    match found {
        Some(p) => word_given::<A, W>(alloc, words, p),
        None => nothing_given::<W>(alloc),
    }
}

/// The least or the greatest of these words.
fn extreme_words<A: Ranked, W: Target + Drop>(
    alloc: Global,
    side: Side,
    words: &[A],
    na_rm: bool,
) -> Result<Valued, EvalFail>
    requires { W.kind ≡ extreme_type A.kind }
    ensures answer { AnswersAs valued_of
        (extreme_cells (beats side (extreme_type A.kind)) (extreme_type A.kind) na_rm
        (map A.cell words.now)) result }
    ensures own { IfErr result IsOwn }
{
    if meets_na(na_rm, words) {
        return one::<W>(alloc, W::na());
    }
    found_given::<A, W>(alloc, words, winner(side, words))
}

/// The least or the greatest of the words of a column.
fn extreme_of(alloc: Global, side: Side, words: Words<'_>, na_rm: bool) -> Result<Valued, EvalFail>
    ensures answer { AnswersAs valued_of (extreme_value side na_rm (shown words.entry)) result }
    ensures own { IfErr result IsOwn }
{
    match words {
        Words::Lgl(x) => extreme_words::<u8, i64>(alloc, side, x, na_rm),
        Words::Int(x) => extreme_words::<i64, i64>(alloc, side, x, na_rm),
        Words::Chr(x) => extreme_words::<Option<Text>, Option<Text>>(alloc, side, x, na_rm),
    }
}

/// The least cell: FALSE before TRUE, integers by value, texts by bytes. Logicals count as
/// integers; else the answer has the column's type. NA gives NA, or is left out under `na_rm`; of
/// nothing the answer is NA, with the warning W03. No type is refused.
///
/// It touches each cell of the column once.
///
/// From `min` of R, which gives an infinite number of nothing; docs/LANGUAGE.md, section
/// "Functions".
pub fn min<L: Ledger>(
    alloc: Global,
    x: &Column,
    na_rm: bool,
    steps: &mut Steps<L>,
) -> Result<Valued, EvalFail>
    ensures answer { AnswersAs valued_of (min_value na_rm x.now.vector) result }
    ensures touches { steps.new ≡ steps.old + length x.now.vector.cells }
    ensures own { IfErr result IsOwn }
{
    let words = words_of(x, steps);
    extreme_of(alloc, Side::Least, words, na_rm)
}

/// The greatest cell, in the same order and with the same rules as `min`.
///
/// It touches each cell of the column once.
///
/// From `max` of R, which gives an infinite number of nothing; docs/LANGUAGE.md, section
/// "Functions".
pub fn max<L: Ledger>(
    alloc: Global,
    x: &Column,
    na_rm: bool,
    steps: &mut Steps<L>,
) -> Result<Valued, EvalFail>
    ensures answer { AnswersAs valued_of (max_value na_rm x.now.vector) result }
    ensures touches { steps.new ≡ steps.old + length x.now.vector.cells }
    ensures own { IfErr result IsOwn }
{
    let words = words_of(x, steps);
    extreme_of(alloc, Side::Greatest, words, na_rm)
}
