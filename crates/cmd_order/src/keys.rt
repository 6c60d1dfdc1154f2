ghost use Rattle.std.specs.Prelude.{◌≡◌, IfErr, IfOk, Ok, Some, length, map};
ghost use Rattle.std.specs.List.{range_with_len};
ghost use Rattle.cmd_order.specs.Tables.{becomes, key_columns};
ghost use Rattle.dt_model.specs.Table.{names_at};
ghost use Rattle.dt_table.specs.Plain.{plain};
ghost use Rattle.dt_table.specs.Table.{HasTrueKey, IsColumnList};
ghost use Rattle.eval_fail.specs.Answers.{AnswersAs, IsOwn};
ghost use Rattle.na_vector.specs.Frame.{vectors_of};
ghost use Rattle.order_model.specs.Keys.{key_set};
ghost use Rattle.session_model.specs.Meaning.{arg_meaning};
ghost use Rattle.session_model.specs.Orders.{key_change, set_key_effect};
ghost use Rattle.stmt_change.specs.Effects.{FitsIn, FitsTableIn, plain_effect, plain_table};
ghost use Rattle.stmt_change.specs.Places.{table_at};
ghost use Rattle.table_heap.specs.Seen.{IsAt};
ghost use Rattle.table_heap.specs.State.{state_of};
ghost use Rattle.written_forms.specs.Seen.{form_seen};

use crate::arguments::{columns_written, is_null_alone};
use crate::columns::columns_named;
use dt_base::{Steps, Warns};
use dt_table::Table;
use dt_tree::Arg;
use eval_fail::EvalFail;
use keys_index::keyed;
use row_order::is_sorted;
use std::alloc::{AllocError, Global};
use std::sync::ledger::Ledger;
use stmt_change::{Change, Effect, TableChange};
use stmt_setting::Setting;
use table_argument::{named_table, table_of};
use table_heap::{Heap, Id};
use written_forms::Written;

/// The first places, so many.
fn first_places(alloc: Global, count: usize) -> Result<Vec<usize>, AllocError>
    ensures { IfOk result (λ v. v.items ≡ range_with_len 0 count) }
{
    let mut places = Vec::with_capacity(alloc, count)?;
    for place in 0..count {
        places.push(place)?;
    }
    Ok(places)
}

/// All columns, in their order.
fn all_columns(alloc: Global, table: &Table) -> Result<Vec<usize>, EvalFail>
    ensures answer { AnswersAs (λ v. names_at table.now.names v.items)
        (Ok table.now.names) result }
    ensures columns { IfOk result (λ v. IsColumnList (length table.now.names) v.items) }
    ensures own { IfErr result IsOwn }
{
    match first_places(alloc, table.names().len()) {
        Ok(places) => Ok(places),
        Err(error) => Err(EvalFail::NoMemory(error)),
    }
}

/// The columns of the key that `setkey` sets: those that are named, or all where none is.
fn key_columns(alloc: Global, table: &Table, forms: &[Written<'_>]) -> Result<Vec<usize>, EvalFail>
    ensures answer { AnswersAs (λ v. names_at table.now.names v.items)
        (key_columns (plain table.now) (map form_seen forms.now)) result }
    ensures columns { IfOk result (λ v. IsColumnList (length table.now.names) v.items) }
    ensures own { IfErr result IsOwn }
{
    let _ = table.names();
    match forms {
        [] => all_columns(alloc, table),
        _ => columns_named(alloc, "setkey", table, forms),
    }
}

/// A table in the order of a key. Where its rows stand so already, it only gets the key, and its
/// indices go: no row is sorted or copied.
fn keyed_change<L: Ledger>(
    alloc: Global,
    heap: &Heap,
    id: Id,
    key: Vec<usize>,
    steps: &mut Steps<L>,
) -> Result<TableChange, EvalFail>
    requires live { IsAt heap.now id }
    requires key { IsColumnList (length (table_at heap.now id).names) key.items }
    ensures answer { AnswersAs (plain_table heap.now)
        (Ok (Some (
          id.number,
          key_set (names_at (table_at heap.now id).names key.items)
              (plain (table_at heap.now id)),
        ))) result }
    ensures in_place { HasTrueKey (table_at heap.now id).frame.rows
        (vectors_of (table_at heap.now id).frame.columns) key.items
        → result ≡ Ok (TableChange.Keyed id key) }
    ensures fits { IfOk result (FitsTableIn heap.now) }
    ensures own { IfErr result IsOwn }
{
    let table = table_of(heap, id);
    if is_sorted(table.frame(), &key, steps) {
        return Ok(TableChange::Keyed { id, key });
    }
    match keyed(alloc, table, &key, steps) {
        Ok(table) => Ok(TableChange::Reordered { id, table }),
        Err(error) => Err(EvalFail::NoMemory(error)),
    }
}

/// What `setkey` makes of a table.
fn key_change<L: Ledger>(
    alloc: Global,
    heap: &Heap,
    id: Id,
    forms: &[Written<'_>],
    steps: &mut Steps<L>,
) -> Result<TableChange, EvalFail>
    requires { IsAt heap.now id }
    ensures answer { AnswersAs (plain_table heap.now)
        (becomes id.number (key_change (plain (table_at heap.now id)) (map form_seen forms.now)))
        result }
    ensures fits { IfOk result (FitsTableIn heap.now) }
    ensures own { IfErr result IsOwn }
{
    if is_null_alone(forms) {
        return Ok(TableChange::Unkeyed { id });
    }
    let key = key_columns(alloc, table_of(heap, id), forms)?;
    keyed_change(alloc, heap, id, key, steps)
}

/// What `setkey` does: the rows of its table rise over the columns that it names, or over all where
/// it names none; these are its key, and all indices go. Rows that are equal over them keep their
/// order. The word NULL in the place of columns forgets the key, and leaves the rows.
///
/// The first argument without a name is the table, unless D is given by its name. It is a bare name
/// that is bound to a table, else E19 with `D`, E02 or E20. Each column is a bare name, else E19
/// with `setkey`; of the table, else E03; and stands once, else E12, each with the column's name.
/// The manual's page setkey.
///
/// It looks first whether the rows stand so already, which touches at most two cells for each row
/// and column of the key: then it takes memory for the lists of columns alone. Else the rows are
/// gathered in new columns: it touches each cell of the key and each cell of the table besides, and
/// its memory is linear in the cells. Nothing is changed yet.
pub fn set_key<L: Ledger>(
    alloc: Global,
    args: &[Arg],
    setting: &Setting<'_>,
    steps: &mut Steps<L>,
) -> Result<Effect, EvalFail>
    ensures answer { AnswersAs (plain_effect setting.now.heap.now)
        (set_key_effect (map arg_meaning args.now) (state_of setting.now.heap.now)) result }
    ensures fits { IfOk result (λ e. FitsIn setting.now.heap.now e.change) }
    ensures own { IfErr result IsOwn }
{
    let id = named_table(alloc, args, setting.heap)?;
    let forms = columns_written(alloc, args)?;
    let change = key_change(alloc, setting.heap, id, &forms, steps)?;
    Ok(Effect::changes(alloc, Change::of_table(change), Warns::none()))
}
