ghost use Rattle.std.specs.Prelude.{◌≡◌, IfErr, IfOk, Ok, Some, false, length, map};
ghost use Rattle.cmd_order.specs.Columns.{AreColumns, column_seen};
ghost use Rattle.cmd_order.specs.Tables.{becomes, order_of};
ghost use Rattle.dt_table.specs.Plain.{plain};
ghost use Rattle.eval_fail.specs.Answers.{AnswersAs, IsOwn};
ghost use Rattle.order_model.specs.Keys.{order_set};
ghost use Rattle.session_model.specs.Meaning.{arg_meaning};
ghost use Rattle.session_model.specs.OrderColumns.{sorting_by};
ghost use Rattle.session_model.specs.Orders.{order_change, set_order_effect};
ghost use Rattle.stmt_change.specs.Effects.{FitsIn, FitsTableIn, plain_effect, plain_table};
ghost use Rattle.stmt_change.specs.Places.{table_at};
ghost use Rattle.table_heap.specs.Seen.{IsAt};
ghost use Rattle.table_heap.specs.State.{state_of};
ghost use Rattle.written_forms.specs.Seen.{form_seen};

use crate::arguments::columns_written;
use crate::columns::distinct_columns;
use dt_base::{Code, Steps, Warns};
use dt_table::Table;
use dt_tree::Arg;
use eval_fail::{EvalFail, stop};
use keys_index::ordered;
use row_order::SortCol;
use std::alloc::Global;
use std::sync::ledger::Ledger;
use stmt_change::{Change, Effect, TableChange};
use stmt_setting::Setting;
use table_argument::{named_table, table_of};
use table_heap::{Heap, Id};
use written_forms::Written;

/// The columns by which `setorder` puts rows in order. Without any it is E19.
fn order_columns(
    alloc: Global,
    table: &Table,
    forms: &[Written<'_>],
) -> Result<Vec<SortCol>, EvalFail>
    ensures answer { AnswersAs (λ v. map (column_seen table.now.names) v.items)
        (order_of (plain table.now) (map form_seen forms.now)) result }
    ensures columns { IfOk result (λ v. AreColumns (length table.now.names) v.items) }
    ensures own { IfErr result IsOwn }
{
    let _ = table.names();
    match forms {
        [] => Err(stop(alloc, Code::E19, "setorder")),
        _ => distinct_columns(alloc, "setorder", true, table, forms),
    }
}

/// A table in the order of these columns.
fn ordered_change<L: Ledger>(
    alloc: Global,
    heap: &Heap,
    id: Id,
    by: &[SortCol],
    steps: &mut Steps<L>,
) -> Result<TableChange, EvalFail>
    requires live { IsAt heap.now id }
    requires columns { AreColumns (length (table_at heap.now id).names) by.now }
    ensures answer { AnswersAs (plain_table heap.now)
        (let t = plain (table_at heap.now id) in
        Ok (Some (
          id.number,
          order_set (map (sorting_by t false)
              (map (column_seen (table_at heap.now id).names) by.now)) t,
        ))) result }
    ensures fits { IfOk result (FitsTableIn heap.now) }
    ensures own { IfErr result IsOwn }
{
    match ordered(alloc, table_of(heap, id), by, steps) {
        Ok(table) => Ok(TableChange::Reordered { id, table }),
        Err(error) => Err(EvalFail::NoMemory(error)),
    }
}

/// What `setorder` makes of a table.
fn order_change<L: Ledger>(
    alloc: Global,
    heap: &Heap,
    id: Id,
    forms: &[Written<'_>],
    steps: &mut Steps<L>,
) -> Result<TableChange, EvalFail>
    requires { IsAt heap.now id }
    ensures answer { AnswersAs (plain_table heap.now)
        (becomes id.number (order_change (plain (table_at heap.now id)) (map form_seen forms.now)))
        result }
    ensures fits { IfOk result (FitsTableIn heap.now) }
    ensures own { IfErr result IsOwn }
{
    let by = order_columns(alloc, table_of(heap, id), forms)?;
    ordered_change(alloc, heap, id, &by, steps)
}

/// What `setorder` does: the rows of its table are put in the order of the columns that it names,
/// by the first of them in which two rows differ; rows that differ in none keep their order. Cells
/// rise, or fall where `-` stands before the name, and NA stands first either way. No key and no
/// index is left.
///
/// The table is given as for `setkey`. Each column is a bare name, or `-` before one, else E19 with
/// `setorder`, as without any column; of the table, else E03; and stands once, else E12, each with
/// the column's name. The manual's page setorder.
///
/// The rows are gathered in new columns: it touches each cell of these columns and each cell of the
/// table besides, and its memory is linear in the cells. Nothing is changed yet.
pub fn set_order<L: Ledger>(
    alloc: Global,
    args: &[Arg],
    setting: &Setting<'_>,
    steps: &mut Steps<L>,
) -> Result<Effect, EvalFail>
    ensures answer { AnswersAs (plain_effect setting.now.heap.now)
        (set_order_effect (map arg_meaning args.now) (state_of setting.now.heap.now)) result }
    ensures fits { IfOk result (λ e. FitsIn setting.now.heap.now e.change) }
    ensures own { IfErr result IsOwn }
{
    let id = named_table(alloc, args, setting.heap)?;
    let forms = columns_written(alloc, args)?;
    let change = order_change(alloc, setting.heap, id, &forms, steps)?;
    Ok(Effect::changes(alloc, Change::of_table(change), Warns::none()))
}
