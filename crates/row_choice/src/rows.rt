ghost use Rattle.std.specs.Prelude.{◌≡◌, ◌≤◌, ◌+◌, All, length, map, IfOk, IfErr};
ghost use Rattle.eval_fail.specs.Answers.{AnswersAs, IsOwn};
ghost use Rattle.dt_base.specs.declared.limits.TheConstants.{MAX_ROWS};
ghost use Rattle.dt_model.specs.Vector.{IsWithin};
ghost use Rattle.row_model.specs.Rows.{chosen};
ghost use Rattle.na_words.specs.Shown.{IsShown, shown};

use crate::places::by_place;
use crate::truths::by_truth;
use dt_base::Steps;
use eval_fail::{EvalFail, stop_unbuilt};
use na_vector::Column;
use na_words::{Words, words_of};
use std::alloc::Global;
use std::sync::ledger::Ledger;

/// The rows that the words of an i choose.
fn chosen_by(alloc: Global, words: Words<'_>, rows: usize) -> Result<Vec<Option<u32>>, EvalFail>
    requires { rows ≤ MAX_ROWS }
    ensures answer { AnswersAs (λ v. v.items) (chosen rows (shown words.entry)) result }
    ensures own { IfErr result IsOwn }
{
    match words {
        Words::Lgl(x) => by_truth(alloc, rows, x),
        Words::Int(x) => by_place(alloc, rows, x),
        Words::Chr(_) => Err(stop_unbuilt(alloc)),
    }
}

/// The rows that a value chooses as the i of a bracket, of a table of so many rows. Rows are
/// counted from 0, and none stands for a row of NA.
///
/// - Logicals, one for each row, choose the rows whose cell is TRUE; NA is not. One alone chooses
///   all rows or none. Another length is E05 with that length and the number of rows.
/// - Integers name rows, counted from 1, in their order: 0 names none, NA and a number past the end
///   name a row of NA. Where one is negative each must be negative or 0, else it is E13; they leave
///   out the rows that they name, and a number past the end leaves out none.
/// - Texts are E19 with `unbuilt`: a join is not served yet.
///
/// It touches each cell of the value once, and its time is linear in the cells and the rows.
///
/// From the manual's page data.table, argument i; the faults are dtq's own rule, docs/LANGUAGE.md,
/// section "Faults and warnings".
pub fn chosen_rows<L: Ledger>(
    alloc: Global,
    i: &Column,
    rows: usize,
    steps: &mut Steps<L>,
) -> Result<Vec<Option<u32>>, EvalFail>
    requires { rows ≤ MAX_ROWS }
    ensures answer { AnswersAs (λ v. v.items) (chosen rows i.now.vector) result }
    ensures within { IfOk result (λ v. All (IsWithin rows) v.items) }
    ensures short { IfOk result (λ v. length v.items ≤ MAX_ROWS) }
    ensures own { IfErr result IsOwn }
    ensures touches { steps.new ≡ steps.old + length i.now.vector.cells }
{
    let _short = i.len();
    chosen_by(alloc, words_of(i, steps), rows)
}
