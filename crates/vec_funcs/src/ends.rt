ghost use Rattle.std.specs.Prelude.{◌≡◌, ◌+◌, ◌-◌, ◌<◌, ◌≤◌, ◌∷◌, [], pos, min, length, take, drop};
ghost use Rattle.std.specs.Prelude.{IfOk, IfErr};
ghost use Rattle.dt_base.specs.declared.cell.Cell.TheVariants as is;
ghost use Rattle.dt_base.specs.declared.limits.TheConstants.{MAX_ROWS};
ghost use Rattle.dt_model.specs.Vector.{cell_at};
ghost use Rattle.vector_model.specs.Functions.{first_value, last_value, length_value};
ghost use Rattle.eval_fail.specs.Answers.{AnswersAs, IsOwn};
ghost use Rattle.na_vector.specs.Words.{int_cell};
ghost use Rattle.na_words.specs.Shown.{vector_from};
ghost use Rattle.valued.specs.Valued.{valued_of};

use dt_base::{Steps, Warns};
use eval_fail::EvalFail;
use na_vector::Column;
use std::alloc::{AllocError, Global};
use std::sync::ledger::Ledger;
use valued::{Valued, one};

/// The column of the one cell at a place.
fn cell_column<L: Ledger>(
    alloc: Global,
    x: &Column,
    p: u32,
    steps: &mut Steps<L>,
) -> Result<Column, AllocError>
    requires { p < length x.now.vector.cells }
    ensures cell { IfOk result (λ c. c.vector ≡
        vector_from x.now.vector.kind (cell_at x.now.vector.cells p ∷ [])) }
    ensures touches { steps.new ≡ steps.old + 1 }
{
    x.gather(alloc, &[Some(p)], steps)
}

/// The first cell as a column, and of no cell none.
fn first_column<L: Ledger>(
    alloc: Global,
    x: &Column,
    steps: &mut Steps<L>,
) -> Result<Column, AllocError>
    ensures cells { IfOk result (λ c. c.vector ≡
        vector_from x.now.vector.kind (take 1 x.now.vector.cells)) }
    ensures touches { steps.new ≡ steps.old + min 1 (length x.now.vector.cells) }
{
    if x.len() == 0 {
        return Ok(Column::new(alloc, x.kind()));
    }
    cell_column(alloc, x, 0, steps)
}

/// The last cell as a column, and of no cell none.
fn last_column<L: Ledger>(
    alloc: Global,
    x: &Column,
    steps: &mut Steps<L>,
) -> Result<Column, AllocError>
    ensures cells { IfOk result (λ c. c.vector ≡
        vector_from x.now.vector.kind (drop (length x.now.vector.cells - 1) x.now.vector.cells)) }
    ensures touches { steps.new ≡ steps.old + min 1 (length x.now.vector.cells) }
{
    let n = x.len();
    if n == 0 {
        return Ok(Column::new(alloc, x.kind()));
    }
    cell_column(alloc, x, (n - 1) as u32, steps)
}

/// The first cell, in a column of the same type; of nothing nothing. No type is refused.
///
/// It touches that cell.
///
/// From `first` of data.table; docs/LANGUAGE.md, section "Functions".
pub fn first<L: Ledger>(alloc: Global, x: &Column, steps: &mut Steps<L>) -> Result<Valued, EvalFail>
    ensures answer { AnswersAs valued_of (first_value x.now.vector) result }
    ensures touches { steps.new ≡ steps.old + min 1 (length x.now.vector.cells) }
    ensures own { IfErr result IsOwn }
{
    match first_column(alloc, x, steps) {
        Ok(column) => Ok(Valued {
            column,
            warns: Warns::none(),
        }),
        Err(e) => Err(EvalFail::NoMemory(e)),
    }
}

/// The last cell, in a column of the same type; of nothing nothing. No type is refused.
///
/// It touches that cell.
///
/// From `last` of data.table; docs/LANGUAGE.md, section "Functions".
pub fn last<L: Ledger>(alloc: Global, x: &Column, steps: &mut Steps<L>) -> Result<Valued, EvalFail>
    ensures answer { AnswersAs valued_of (last_value x.now.vector) result }
    ensures touches { steps.new ≡ steps.old + min 1 (length x.now.vector.cells) }
    ensures own { IfErr result IsOwn }
{
    match last_column(alloc, x, steps) {
        Ok(column) => Ok(Valued {
            column,
            warns: Warns::none(),
        }),
        Err(e) => Err(EvalFail::NoMemory(e)),
    }
}

/// The number of a length.
fn number(n: usize) -> i64
    requires { n ≤ MAX_ROWS }
    ensures { int_cell result ≡ is.Int (pos n) }
{
    n as i64
}

/// How many cells there are, NA among them: an integer. No type is refused.
///
/// It touches none.
///
/// From `length` of R; docs/LANGUAGE.md, section "Functions".
pub fn length(alloc: Global, x: &Column) -> Result<Valued, EvalFail>
    ensures answer { AnswersAs valued_of (length_value x.now.vector) result }
    ensures own { IfErr result IsOwn }
{
    one::<i64>(alloc, number(x.len()))
}
