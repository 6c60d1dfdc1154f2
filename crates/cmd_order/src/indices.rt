ghost use Rattle.std.specs.Prelude.{◌≡◌, ◌<◌, ◌↔◌, All, IfErr, IfOk, IsTrue, Ok, Some, length, map};
ghost use Rattle.std.specs.List.{list_any};
ghost use Rattle.std.specs.Str.{bytes_eq};
ghost use Rattle.cmd_order.specs.Tables.{index_change, index_columns, with_new_index};
ghost use Rattle.dt_model.specs.Table.{names_at};
ghost use Rattle.dt_table.specs.Plain.{plain};
ghost use Rattle.dt_table.specs.Table.{HasIndex, IsColumnList};
ghost use Rattle.eval_fail.specs.Answers.{AnswersAs, IsOwn};
ghost use Rattle.session_model.specs.Indices.{has_index, with_index};
ghost use Rattle.session_model.specs.Meaning.{arg_meaning};
ghost use Rattle.session_model.specs.Orders.{set_index_effect};
ghost use Rattle.stmt_change.specs.Effects.{FitsIn, FitsTableIn, plain_effect, plain_table};
ghost use Rattle.stmt_change.specs.Places.{table_at};
ghost use Rattle.table_heap.specs.Seen.{IsAt};
ghost use Rattle.table_heap.specs.State.{state_of};
ghost use Rattle.written_forms.specs.Seen.{form_seen};

use crate::arguments::{columns_written, is_null_alone};
use crate::columns::columns_named;
use dt_base::{Code, Steps, Warns};
use dt_table::{Index, Table};
use dt_tree::Arg;
use eval_fail::{EvalFail, stop};
use keys_index::make_index;
use std::alloc::Global;
use std::sync::ledger::Ledger;
use stmt_change::{Altered, Change, Effect, TableChange};
use stmt_setting::Setting;
use table_argument::{named_table, table_of};
use table_heap::{Heap, Id};
use written_forms::Written;

/// Whether an index has just these columns, in this order.
fn is_over(index: &Index, cols: &[usize]) -> bool
    ensures { result ≡ bytes_eq cols.now index.now.cols }
{
    cols == index.cols.as_slice()
}

/// Whether one of the table's indices has just these columns. It looks at each index.
fn has_places(table: &Table, cols: &[usize]) -> bool
    ensures { result ≡ list_any (bytes_eq cols.now) (map (λ x. x.cols) table.now.indices) }
{
    for k in 0..table.index_count() {
        if is_over(table.index(k), cols) {
            return true;
        }
    }
    false
}

/// The same of columns of the table, by their places and by their names.
fn has_index(table: &Table, cols: &[usize]) -> bool
    requires { All (λ c. c < length table.now.names) cols.now }
    ensures named { result ≡ has_index (names_at table.now.names cols.now) (plain table.now) }
    ensures placed { IsTrue result ↔ HasIndex cols.now table.now.indices }
{
    let _ = table.names();
    has_places(table, cols)
}

/// A new index of a table over these columns, which no other has.
fn new_index<L: Ledger>(
    alloc: Global,
    heap: &Heap,
    id: Id,
    cols: &[usize],
    steps: &mut Steps<L>,
) -> Result<TableChange, EvalFail>
    requires live { IsAt heap.now id }
    requires cols { IsColumnList (length (table_at heap.now id).names) cols.now }
    requires some { 0 < length cols.now }
    requires once { HasIndex cols.now (table_at heap.now id).indices → ⊥ }
    ensures answer { AnswersAs (plain_table heap.now)
        (Ok (Some (
          id.number,
          with_index (names_at (table_at heap.now id).names cols.now)
              (plain (table_at heap.now id)),
        ))) result }
    ensures fits { IfOk result (FitsTableIn heap.now) }
    ensures own { IfErr result IsOwn }
{
    match make_index(alloc, table_of(heap, id), cols, steps) {
        Ok(index) => Ok(TableChange::Altered(Altered {
            id,
            index: Some(index),
            parts: None,
        })),
        Err(error) => Err(EvalFail::NoMemory(error)),
    }
}

/// An index over these columns; nothing where the table has it.
fn with_new_index<L: Ledger>(
    alloc: Global,
    heap: &Heap,
    id: Id,
    cols: &[usize],
    steps: &mut Steps<L>,
) -> Result<TableChange, EvalFail>
    requires live { IsAt heap.now id }
    requires cols { IsColumnList (length (table_at heap.now id).names) cols.now }
    requires some { 0 < length cols.now }
    ensures answer { AnswersAs (plain_table heap.now)
        (Ok (with_new_index (id.number, plain (table_at heap.now id))
        (names_at (table_at heap.now id).names cols.now))) result }
    ensures fits { IfOk result (FitsTableIn heap.now) }
    ensures own { IfErr result IsOwn }
{
    if has_index(table_of(heap, id), cols) {
        return Ok(TableChange::Nothing);
    }
    new_index(alloc, heap, id, cols, steps)
}

/// The columns of the index that `setindex` adds. Without any it is E19.
fn index_columns(
    alloc: Global,
    table: &Table,
    forms: &[Written<'_>],
) -> Result<Vec<usize>, EvalFail>
    ensures answer { AnswersAs (λ v. names_at table.now.names v.items)
        (index_columns (plain table.now) (map form_seen forms.now)) result }
    ensures columns { IfOk result (λ v. IsColumnList (length table.now.names) v.items) }
    ensures some { IfOk result (λ v. 0 < length v.items) }
    ensures own { IfErr result IsOwn }
{
    match forms {
        [] => Err(stop(alloc, Code::E19, "setindex")),
        _ => columns_named(alloc, "setindex", table, forms),
    }
}

/// What `setindex` makes of a table.
fn index_change<L: Ledger>(
    alloc: Global,
    heap: &Heap,
    id: Id,
    forms: &[Written<'_>],
    steps: &mut Steps<L>,
) -> Result<TableChange, EvalFail>
    requires { IsAt heap.now id }
    ensures answer { AnswersAs (plain_table heap.now)
        (index_change (id.number, plain (table_at heap.now id)) (map form_seen forms.now))
        result }
    ensures fits { IfOk result (FitsTableIn heap.now) }
    ensures own { IfErr result IsOwn }
{
    if is_null_alone(forms) {
        return Ok(TableChange::Unindexed { id });
    }
    let cols = index_columns(alloc, table_of(heap, id), forms)?;
    with_new_index(alloc, heap, id, &cols, steps)
}

/// What `setindex` does: its table gets an index over the columns that it names, behind the others,
/// and its rows stay as they stand. An index that is there already changes nothing. The word NULL
/// in the place of columns drops all indices.
///
/// The table is given as for `setkey`. Each column is a bare name, else E19 with `setindex`, as
/// without any column; of the table, else E03; and stands once, else E12, each with the column's
/// name. The manual's page setindex.
///
/// It touches each cell of these columns, or none where the index is there, and its memory is
/// linear in the rows. Nothing is changed yet.
pub fn set_index<L: Ledger>(
    alloc: Global,
    args: &[Arg],
    setting: &Setting<'_>,
    steps: &mut Steps<L>,
) -> Result<Effect, EvalFail>
    ensures answer { AnswersAs (plain_effect setting.now.heap.now)
        (set_index_effect (map arg_meaning args.now) (state_of setting.now.heap.now)) result }
    ensures fits { IfOk result (λ e. FitsIn setting.now.heap.now e.change) }
    ensures own { IfErr result IsOwn }
{
    let id = named_table(alloc, args, setting.heap)?;
    let forms = columns_written(alloc, args)?;
    let change = index_change(alloc, setting.heap, id, &forms, steps)?;
    Ok(Effect::changes(alloc, Change::of_table(change), Warns::none()))
}
