ghost use Rattle.std.specs.Prelude.{◌≡◌, ◌≤◌, length, map, Some, IfOk, IfErr};
ghost use Rattle.eval_fail.specs.Answers.{AnswersAs, IsOwn};
ghost use Rattle.dt_base.specs.declared.cell.Cell.TheVariants as is;
ghost use Rattle.dt_base.specs.declared.cell.ColType.TheVariants as ty;
ghost use Rattle.dt_table.specs.Plain.{plain};
ghost use Rattle.expr_model.specs.Functions.{description_of};
ghost use Rattle.session_model.specs.Expression.{quiet};
ghost use Rattle.na_vector.specs.Words.{text_cell, text_vector};
ghost use Rattle.na_words.specs.Shown.{vector_from};
ghost use Rattle.valued.specs.Valued.{valued_of};

use crate::lent::{number_value, unwarned};
use dt_base::limits::MAX_ROWS;
use dt_base::{Code, ColName, Text};
use dt_table::Table;
use eval_fail::{EvalFail, stop, stop_unbuilt};
use func_table::Func;
use na_vector::Column;
use std::alloc::{AllocError, Global};
use valued::Valued;

/// The number of rows.
#[tactic(auto, using(dt_table::proofs::Plain::counts))]
fn rows_of(alloc: Global, table: &Table) -> Result<Valued, EvalFail>
    ensures answer { AnswersAs valued_of (quiet (description_of Func.Nrow (plain table.now)))
        result }
    ensures own { IfErr result IsOwn }
{
    number_value(alloc, table.frame().rows() as u64)
}

/// The number of columns.
#[tactic(auto, using(dt_table::proofs::Plain::counts))]
fn columns_of(alloc: Global, table: &Table) -> Result<Valued, EvalFail>
    ensures answer { AnswersAs valued_of (quiet (description_of Func.Ncol (plain table.now)))
        result }
    ensures own { IfErr result IsOwn }
{
    number_value(alloc, table.names().len() as u64)
}

/// The names as texts of their own.
fn copied_names(alloc: Global, names: &[ColName]) -> Result<Vec<Option<Text>>, AllocError>
    ensures texts { IfOk result (λ v. map text_cell v.items ≡ map is.Text names.now) }
    ensures count { IfOk result (λ v. length v.items ≡ length names.now) }
{
    let mut texts = Vec::new(alloc);
    for name in names {
        texts.push(Some(name.copy()?))?;
    }
    Ok(texts)
}

/// The column of the names.
fn name_column(alloc: Global, names: &[ColName]) -> Result<Column, AllocError>
    requires { length names.now ≤ MAX_ROWS }
    ensures { IfOk result (λ c. c.vector ≡ vector_from ty.Chr (map is.Text names.now)) }
{
    Column::from_texts(copied_names(alloc, names)?)
}

/// The names of the columns, in order. More than 16,777,216, which no script makes, are E07.
#[tactic(auto, using(dt_table::proofs::Plain::counts, crate::proofs::Plain::plain_names))]
fn names_of(alloc: Global, table: &Table) -> Result<Valued, EvalFail>
    ensures answer { AnswersAs valued_of (quiet (description_of Func.Names (plain table.now)))
        result }
    ensures own { IfErr result IsOwn }
{
    let names = table.names();
    if names.len() > MAX_ROWS {
        return Err(stop(alloc, Code::E07, ""));
    }
    match name_column(alloc, names) {
        Ok(column) => Ok(unwarned(column)),
        Err(e) => Err(EvalFail::NoMemory(e)),
    }
}

/// What `nrow`, `ncol` or `names` tells of a table.
pub fn description(alloc: Global, f: Func, table: &Table) -> Result<Valued, EvalFail>
    ensures answer { AnswersAs valued_of (quiet (description_of f (plain table.now))) result }
    ensures own { IfErr result IsOwn }
{
    match f {
        Func::Nrow => rows_of(alloc, table),
        Func::Ncol => columns_of(alloc, table),
        Func::Names => names_of(alloc, table),
        _ => Err(stop_unbuilt(alloc)),
    }
}
