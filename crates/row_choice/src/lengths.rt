ghost use Rattle.std.specs.Prelude.{◌≡◌, ◌≤◌, ◌+◌, ◌⊎◌, ◌==◌, ◌||◌, length, map, replicate, Some};
ghost use Rattle.std.specs.Prelude.{All, IfOk, IfErr};
ghost use Rattle.eval_fail.specs.Answers.{Answers, IsOwn};
ghost use Rattle.dt_base.specs.declared.limits.TheConstants.{MAX_ROWS};
ghost use Rattle.dt_model.specs.Vector.{cell_at};
ghost use Rattle.row_model.specs.Lengths.{common_length, fitting, longest, repeated};
ghost use Rattle.na_words.specs.Shown.{vector_from};
ghost use Rattle.valued.specs.Valued.{vector_in};

use dt_base::Steps;
use eval_fail::{EvalFail, stop_length};
use na_vector::Column;
use std::alloc::{AllocError, Global};
use std::sync::ledger::Ledger;
use valued::Valued;

/// The greatest length; of nothing 0.
fn longest(values: &[Valued]) -> usize
    ensures longest { result ≡ longest (map vector_in values.now) }
    ensures short { result ≤ MAX_ROWS }
{
    let mut n = 0;
    for v in values {
        n = n.max(v.column.len());
    }
    n
}

/// Whether a column goes with a length: it has one cell, or so many.
fn goes_with(n: usize, column: &Column) -> bool
    ensures { result ≡ (length column.now.vector.cells == 1
        || length column.now.vector.cells == n) }
{
    column.len() == 1 || column.len() == n
}

/// The length, where each goes with it.
fn fitting(alloc: Global, n: usize, values: &[Valued]) -> Result<usize, EvalFail>
    ensures answer { Answers (fitting n (map vector_in values.now)) result }
    ensures same { IfOk result (λ m. m ≡ n) }
    ensures own { IfErr result IsOwn }
{
    for v in values {
        if !goes_with(n, &v.column) {
            return Err(stop_length(alloc, v.column.len(), n));
        }
    }
    Ok(n)
}

/// The length that vectors side by side come to: that of the longest; of nothing 0. Each is as
/// long, or has one cell, which then stands in each place. The first of another length is E05 with
/// its length and the longest.
///
/// From the manual's page data.table, on recycling in j; the fault is dtq's own rule,
/// docs/LANGUAGE.md, section "Faults and warnings".
#[tactic(auto, using(crate::proofs::Fitting::fitting_all))]
pub fn common_length(alloc: Global, values: &[Valued]) -> Result<usize, EvalFail>
    ensures answer { Answers (common_length (map vector_in values.now)) result }
    ensures fitting { IfOk result
        (λ n. All (λ v. (length v.column.vector.cells ≡ 1) ⊎ (length v.column.vector.cells ≡ n))
        values.now) }
    ensures short { IfOk result (λ n. n ≤ MAX_ROWS) }
    ensures own { IfErr result IsOwn }
{
    fitting(alloc, longest(values), values)
}

/// The place of the first cell, n times over.
fn first_places(alloc: Global, n: usize) -> Result<Vec<Option<u32>>, AllocError>
    ensures { IfOk result (λ v. v.items ≡ replicate n (Some 0)) }
{
    vec![in alloc; Some(0); n]
}

/// The first cell, n times over.
#[tactic(auto, using(crate::proofs::Repeats::picked_first))]
fn first_cells<L: Ledger>(
    alloc: Global,
    column: &Column,
    n: usize,
    steps: &mut Steps<L>,
) -> Result<Column, AllocError>
    requires one { length column.now.vector.cells ≡ 1 }
    requires short { n ≤ MAX_ROWS }
    ensures cells { IfOk result (λ c. c.vector ≡
        vector_from column.now.vector.kind (replicate n (cell_at column.now.vector.cells 0))) }
    ensures touches { steps.new ≤ steps.old + n }
{
    let places = first_places(alloc, n)?;
    column.gather(alloc, places.as_slice(), steps)
}

/// A column of one cell brought to a length, its cell in each place; a column of that length as it
/// is.
///
/// It touches a cell for each place that it makes, and none of a column that it leaves.
///
/// From the manual's page data.table, on recycling in j.
pub fn repeated<L: Ledger>(
    alloc: Global,
    column: Column,
    n: usize,
    steps: &mut Steps<L>,
) -> Result<Column, AllocError>
    requires fits { (length column.vector.cells ≡ 1) ⊎ (length column.vector.cells ≡ n) }
    requires short { n ≤ MAX_ROWS }
    ensures vector { IfOk result (λ c. c.vector ≡ repeated n column.vector) }
    ensures rows { IfOk result (λ c. length c.vector.cells ≡ n) }
    ensures touches { steps.new ≤ steps.old + n }
{
    if column.len() == n {
        return Ok(column);
    }
    first_cells(alloc, &column, n, steps)
}
