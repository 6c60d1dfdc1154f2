//! The rows and the columns that `set` names, by their places or by name.
ghost use Rattle.std.specs.Prelude.{◌≡◌, ◌<◌, ◌≤◌, ◌++◌, ◌∷◌, [], All, IfErr, IfOk, IfSome, Ok};
ghost use Rattle.std.specs.Prelude.{length, OnOk};
ghost use Rattle.dt_base.specs.Cell.{seen};
ghost use Rattle.dt_base.specs.declared.cell.Cell.TheVariants.{Int};
ghost use Rattle.dt_base.specs.declared.limits.TheConstants.{MAX_ROWS};
ghost use Rattle.dt_model.specs.Table.{name_at};
ghost use Rattle.eval_fail.specs.Answers.{Answers, AnswersAs, IsOwn};
ghost use Rattle.session_model.specs.Set.{name_by_cell, names_named, place_below, rows_named};
ghost use Rattle.session_model.specs.Set.{text_cell, text_cells, wanted_place};
ghost use Rattle.vector_model.specs.Then.{then_do};

use assign_sides::name_at;
use dt_base::{CellRef, Code, ColName, Steps, Text};
use eval_fail::{EvalFail, stop};
use func_table::{Formal, formal_word};
use na_vector::Column;
use std::alloc::{AllocError, Global};
use std::sync::ledger::Ledger;

/// The place, counted from 0, that an integer from 1 to n names; any other names none.
fn place_of_number(k: i64, n: usize) -> Option<usize>
    ensures place { result ≡ place_below n (Int k) }
    ensures within { IfSome result (λ place. place < n) }
{
    if k < 1 {
        return None;
    }
    let place = (k - 1) as usize;
    if place < n { Some(place) } else { None }
}

/// The place, counted from 0, that a cell names of n.
fn place_below(cell: CellRef<'_>, n: usize) -> Option<usize>
    ensures place { result ≡ place_below n (seen cell.entry) }
    ensures within { IfSome result (λ place. place < n) }
{
    match cell {
        CellRef::Int(k) => place_of_number(k, n),
        CellRef::Na | CellRef::Lgl(_) | CellRef::Text(_) => None,
    }
}

/// The place that a cell names of n; where it names none, E19 with the formal.
fn wanted_place(
    alloc: Global,
    formal: Formal,
    cell: CellRef<'_>,
    n: usize,
) -> Result<usize, EvalFail>
    ensures answer { Answers (wanted_place formal (place_below n (seen cell.entry))) result }
    ensures within { IfOk result (λ place. place < n) }
    ensures own { IfErr result IsOwn }
{
    match place_below(cell, n) {
        Some(place) => Ok(place),
        None => Err(stop(alloc, Code::E19, formal_word(formal))),
    }
}

/// One more row.
fn add_row(rows: &mut Vec<u32>, row: u32) -> Result<(), AllocError>
    ensures { OnOk result (rows.new.items ≡ rows.old.items ++ row ∷ []) }
{
    rows.push(row)?;
    Ok(())
}

/// The rows of n that a column names, each by its place counted from 1, in order; counted from 0
/// then. The first cell that is no such place is E19 with `i`. It touches each cell up to that one.
#[tactic(auto, using(crate::proofs::Cells::cells))]
pub(crate) fn rows_named<L: Ledger>(
    alloc: Global,
    column: &Column,
    n: usize,
    steps: &mut Steps<L>,
) -> Result<Vec<u32>, EvalFail>
    requires { n ≤ MAX_ROWS }
    ensures answer { AnswersAs (λ v. v.items) (rows_named n column.now.vector) result }
    ensures rows { IfOk result (λ v. All (λ row. row < n) v.items) }
    ensures own { IfErr result IsOwn }
{
    let mut rows = Vec::new(alloc);
    for k in 0..column.len() {
        let row = wanted_place(alloc, Formal::I, column.cell(k, steps), n)?;
        add_row(&mut rows, row as u32)?;
    }
    Ok(rows)
}

/// One more name.
pub(crate) fn add_name(names: &mut Vec<ColName>, name: ColName) -> Result<(), AllocError>
    ensures { OnOk result (names.new.items ≡ names.old.items ++ name ∷ []) }
{
    names.push(name)?;
    Ok(())
}

/// The name that is this text.
fn own_name(alloc: Global, name: &str) -> Result<ColName, EvalFail>
    ensures answer { Answers (Ok name.now) result }
    ensures own { IfErr result IsOwn }
{
    Ok(Text::make(alloc, name)?)
}

/// The name of the column whose place, counted from 1, a cell is; else E19 with `j`.
fn name_by_place(alloc: Global, names: &[ColName], cell: CellRef<'_>) -> Result<ColName, EvalFail>
    ensures answer { Answers (then_do
        (wanted_place Formal.J (place_below (length names.now) (seen cell.entry)))
        (λ c. Ok (name_at names.now c))) result }
    ensures own { IfErr result IsOwn }
{
    let place = wanted_place(alloc, Formal::J, cell, names.len())?;
    own_name(alloc, name_at(names, place))
}

/// The name that a cell names: a text is a name, an integer the place of a column, counted from 1.
fn name_by_cell(alloc: Global, names: &[ColName], cell: CellRef<'_>) -> Result<ColName, EvalFail>
    ensures answer { Answers (name_by_cell names.now (seen cell.entry)) result }
    ensures own { IfErr result IsOwn }
{
    match cell {
        CellRef::Text(name) => own_name(alloc, name),
        CellRef::Na | CellRef::Lgl(_) | CellRef::Int(_) => name_by_place(alloc, names, cell),
    }
}

/// The names that a column names, in order: each text is a name, also of a column that is not
/// there, and each integer the place of one of these names, counted from 1. The first cell that is
/// neither is E19 with `j`. It touches each cell up to that one.
#[tactic(auto, using(crate::proofs::Cells::cells))]
pub(crate) fn names_named<L: Ledger>(
    alloc: Global,
    names: &[ColName],
    column: &Column,
    steps: &mut Steps<L>,
) -> Result<Vec<ColName>, EvalFail>
    ensures answer { AnswersAs (λ v. v.items) (names_named names.now column.now.vector) result }
    ensures own { IfErr result IsOwn }
{
    let mut named = Vec::new(alloc);
    for k in 0..column.len() {
        let name = name_by_cell(alloc, names, column.cell(k, steps))?;
        add_name(&mut named, name)?;
    }
    Ok(named)
}

/// The text of a cell; any other cell, and NA, is E19 with the formal.
fn text_of(alloc: Global, formal: Formal, cell: CellRef<'_>) -> Result<ColName, EvalFail>
    ensures answer { Answers (text_cell formal (seen cell.entry)) result }
    ensures own { IfErr result IsOwn }
{
    match cell {
        CellRef::Text(name) => own_name(alloc, name),
        CellRef::Na | CellRef::Lgl(_) | CellRef::Int(_) => {
            Err(stop(alloc, Code::E19, formal_word(formal)))
        }
    }
}

/// The texts of a column, in order. The first cell that is none, as NA is, is E19 with the formal.
/// It touches each cell up to that one.
#[tactic(auto, using(crate::proofs::Cells::cells))]
pub(crate) fn text_cells<L: Ledger>(
    alloc: Global,
    formal: Formal,
    column: &Column,
    steps: &mut Steps<L>,
) -> Result<Vec<ColName>, EvalFail>
    ensures answer { AnswersAs (λ v. v.items) (text_cells formal column.now.vector) result }
    ensures own { IfErr result IsOwn }
{
    let mut texts = Vec::new(alloc);
    for k in 0..column.len() {
        let text = text_of(alloc, formal, column.cell(k, steps))?;
        add_name(&mut texts, text)?;
    }
    Ok(texts)
}
