ghost use Rattle.std.specs.Prelude.{◌≡◌, ◌+◌, ◌≤◌, nat_lt, length, map, All, IfOk, IfErr};
ghost use Rattle.dt_model.specs.Combine.{common_of, kinds_of, total_length, cells_as};
ghost use Rattle.vector_model.specs.Combine.{joined};
ghost use Rattle.eval_fail.specs.Answers.{AnswersAs, IsOwn};
ghost use Rattle.na_words.specs.Shown.{vector_from};
ghost use Rattle.valued.specs.Valued.{vector_in, vector_of};

use dt_base::limits::MAX_ROWS;
use dt_base::{Code, ColType, Steps, Text};
use eval_fail::{EvalFail, stop};
use na_ops::common;
use na_vector::Column;
use na_words::{Target, append_words, words_of};
use std::alloc::{AllocError, Global};
use std::sync::ledger::Ledger;
use valued::Valued;

/// The type that is common to all of these.
fn common_kind(values: &[Valued]) -> ColType
    ensures { result ≡ common_of (kinds_of (map vector_in values.now)) }
{
    let mut kind = ColType::Lgl;
    for v in values {
        kind = common(kind, v.column.kind());
    }
    kind
}

/// Whether there are more than 16,777,216 cells in all.
fn are_too_many(values: &[Valued]) -> bool
    ensures { result ≡ nat_lt MAX_ROWS (total_length (map vector_in values.now)) }
{
    let mut left = MAX_ROWS;
    for v in values {
        let n = v.column.len();
        if left < n {
            return true;
        }
        left -= n;
    }
    false
}

/// The words of all columns in a row, brought to the type.
fn words_as<W: Target + Drop, L: Ledger>(
    alloc: Global,
    values: &[Valued],
    steps: &mut Steps<L>,
) -> Result<Vec<W>, AllocError>
    ensures cells { IfOk result
        (λ v. map W.cell v.items ≡ cells_as W.kind (map vector_in values.now)) }
    ensures fine { IfOk result (λ v. All W.fine v.items) }
    ensures count { IfOk result (λ v. length v.items ≡ total_length (map vector_in values.now)) }
    ensures touches { steps.new ≤ steps.old + total_length (map vector_in values.now) }
    ensures once { IfOk result
        (λ v. steps.new ≡ steps.old + total_length (map vector_in values.now)) }
{
    let mut out = Vec::new(alloc);
    for v in values {
        append_words::<W>(alloc, &mut out, words_of(&v.column, steps))?;
    }
    Ok(out)
}

/// The column of the words of all columns in a row, brought to the type.
fn column_as<W: Target + Drop, L: Ledger>(
    alloc: Global,
    values: &[Valued],
    steps: &mut Steps<L>,
) -> Result<Column, AllocError>
    requires { total_length (map vector_in values.now) ≤ MAX_ROWS }
    ensures vector { IfOk result
        (λ c. c.vector ≡ vector_from W.kind (cells_as W.kind (map vector_in values.now))) }
    ensures touches { steps.new ≤ steps.old + total_length (map vector_in values.now) }
    ensures once { IfOk result
        (λ c. steps.new ≡ steps.old + total_length (map vector_in values.now)) }
{
    W::column(words_as::<W, L>(alloc, values, steps)?)
}

fn column_of_kind<L: Ledger>(
    alloc: Global,
    kind: ColType,
    values: &[Valued],
    steps: &mut Steps<L>,
) -> Result<Column, AllocError>
    requires { total_length (map vector_in values.now) ≤ MAX_ROWS }
    ensures vector { IfOk result
        (λ c. c.vector ≡ vector_from kind (cells_as kind (map vector_in values.now))) }
    ensures touches { steps.new ≤ steps.old + total_length (map vector_in values.now) }
    ensures once { IfOk result
        (λ c. steps.new ≡ steps.old + total_length (map vector_in values.now)) }
{
    match kind {
        ColType::Lgl => column_as::<u8, L>(alloc, values, steps),
        ColType::Int => column_as::<i64, L>(alloc, values, steps),
        ColType::Chr => column_as::<Option<Text>, L>(alloc, values, steps),
    }
}

/// All cells of these in order, in the one type that is common to all, at once: TRUE beside an
/// integer and a text is "TRUE". More than 16,777,216 cells are E07. It touches each cell once.
///
/// From `c` of R; the types are dtq's own rule, docs/LANGUAGE.md, section "Operators".
pub fn combine<L: Ledger>(
    alloc: Global,
    values: &[Valued],
    steps: &mut Steps<L>,
) -> Result<Column, EvalFail>
    ensures answer { AnswersAs vector_of (joined (map vector_in values.now)) result }
    ensures own { IfErr result IsOwn }
    ensures touches { steps.new ≤ steps.old + total_length (map vector_in values.now) }
    ensures once { IfOk result
        (λ c. steps.new ≡ steps.old + total_length (map vector_in values.now)) }
{
    if are_too_many(values) {
        return Err(stop(alloc, Code::E07, ""));
    }
    match column_of_kind(alloc, common_kind(values), values, steps) {
        Ok(column) => Ok(column),
        Err(e) => Err(EvalFail::NoMemory(e)),
    }
}
