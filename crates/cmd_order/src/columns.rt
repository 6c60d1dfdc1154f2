ghost use Rattle.std.specs.Prelude.{◌≡◌, ◌<◌, ◌++◌, ◌∷◌, [], All, IfErr, IfOk, OnOk, false};
ghost use Rattle.std.specs.Prelude.{length, map, option_map};
ghost use Rattle.cmd_order.specs.Columns.{AreColumns, column_seen, named_seen, places_of};
ghost use Rattle.dt_model.specs.Table.{names_at};
ghost use Rattle.dt_table.specs.Plain.{plain};
ghost use Rattle.dt_table.specs.Table.{IsColumnList};
ghost use Rattle.eval_fail.specs.Answers.{AnswersAs, IsOwn};
ghost use Rattle.session_model.specs.OrderColumns.{column_asked, column_written};
ghost use Rattle.session_model.specs.OrderColumns.{distinct_columns, known_column, new_column};
ghost use Rattle.session_model.specs.Orders.{columns_named};
ghost use Rattle.written_forms.specs.Seen.{form_seen};

use crate::chosen::Chosen;
use dt_base::Code;
use dt_table::Table;
use eval_fail::{EvalFail, stop};
use row_order::SortCol;
use std::alloc::{AllocError, Global};
use written_forms::Written;

/// The name of a column, and whether its cells fall.
#[derive(Clone, Copy)]
struct Named<'a> {
    name: &'a str,
    down: bool,
}

/// A column's name, which stands bare, or behind `-` where cells may fall.
fn column_written(written: Written<'_>, falls: bool) -> Option<Named<'_>>
    ensures { option_map named_seen result ≡ column_written falls (form_seen written.entry) }
{
    match written {
        Written::BareName(name) => Some(Named { name, down: false }),
        Written::MinusName(name) => {
            if falls {
                Some(Named { name, down: true })
            } else {
                None
            }
        }
        _ => None,
    }
}

/// The column of this name. A name that no column has is E03 with it.
fn known_column(alloc: Global, table: &Table, named: Named<'_>) -> Result<SortCol, EvalFail>
    ensures answer { AnswersAs (column_seen table.now.names)
        (known_column table.now.names (named_seen named.entry)) result }
    ensures place { IfOk result (λ s. s.col < length table.now.names) }
    ensures na_first { IfOk result (λ s. s.na_last ≡ false) }
    ensures own { IfErr result IsOwn }
{
    match table.place(named.name) {
        Some(col) => Ok(SortCol {
            col,
            down: named.down,
            na_last: false,
        }),
        None => Err(stop(alloc, Code::E03, named.name)),
    }
}

/// The column that an argument asks. Anything else than a name is E19 with the command's word.
fn column_asked(
    alloc: Global,
    word: &str,
    falls: bool,
    table: &Table,
    written: Written<'_>,
) -> Result<SortCol, EvalFail>
    ensures answer { AnswersAs (column_seen table.now.names)
        (column_asked word.now falls table.now.names (form_seen written.entry)) result }
    ensures place { IfOk result (λ s. s.col < length table.now.names) }
    ensures na_first { IfOk result (λ s. s.na_last ≡ false) }
    ensures own { IfErr result IsOwn }
{
    match column_written(written, falls) {
        Some(named) => known_column(alloc, table, named),
        None => Err(stop(alloc, Code::E19, word)),
    }
}

/// One column more. One that stood before is E12 with its name.
fn choose(
    alloc: Global,
    table: &Table,
    chosen: &mut Chosen,
    column: SortCol,
) -> Result<(), EvalFail>
    requires place { column.col < length table.now.names }
    requires places { All (λ s. s.col < length table.now.names) chosen.old }
    ensures answer { AnswersAs (λ u. column_seen table.now.names column)
        (new_column (names_at table.now.names (places_of chosen.old))
        (column_seen table.now.names column)) result }
    ensures after { OnOk result (chosen.new ≡ chosen.old ++ column ∷ []) }
    ensures own { IfErr result IsOwn }
{
    let _ = table.names();
    match chosen.add(column) {
        Ok(true) => Ok(()),
        Ok(false) => Err(stop(alloc, Code::E12, table.name(column.col).as_str())),
        Err(error) => Err(EvalFail::NoMemory(error)),
    }
}

/// The columns that these arguments ask, none of them twice; or the first fault, of one argument
/// after another. Where `falls` is true, `-` before a name lets its cells fall.
///
/// Its time is linear in the arguments, but that each name is looked for among the columns; its
/// memory is linear in the arguments.
pub fn distinct_columns(
    alloc: Global,
    word: &str,
    falls: bool,
    table: &Table,
    forms: &[Written<'_>],
) -> Result<Vec<SortCol>, EvalFail>
    ensures answer { AnswersAs (λ v. map (column_seen table.now.names) v.items)
        (distinct_columns word.now falls table.now.names (map form_seen forms.now)) result }
    ensures columns { IfOk result (λ v. AreColumns (length table.now.names) v.items) }
    ensures count { IfOk result (λ v. length v.items ≡ length forms.now) }
    ensures own { IfErr result IsOwn }
{
    let mut chosen = Chosen::new(alloc);
    for written in forms {
        let column = column_asked(alloc, word, falls, table, *written)?;
        choose(alloc, table, &mut chosen, column)?;
    }
    Ok(chosen.into_list())
}

/// The places of columns.
fn column_places(alloc: Global, columns: &[SortCol]) -> Result<Vec<usize>, AllocError>
    ensures { IfOk result (λ v. v.items ≡ places_of columns.now) }
{
    let mut places = Vec::with_capacity(alloc, columns.len())?;
    for column in columns {
        places.push(column.col)?;
    }
    Ok(places)
}

/// The places of the columns that these arguments name, none of them twice; or the first fault.
pub fn columns_named(
    alloc: Global,
    word: &str,
    table: &Table,
    forms: &[Written<'_>],
) -> Result<Vec<usize>, EvalFail>
    ensures answer { AnswersAs (λ v. names_at table.now.names v.items)
        (columns_named word.now (plain table.now) (map form_seen forms.now)) result }
    ensures columns { IfOk result (λ v. IsColumnList (length table.now.names) v.items) }
    ensures count { IfOk result (λ v. length v.items ≡ length forms.now) }
    ensures own { IfErr result IsOwn }
{
    let _ = table.names();
    let columns = distinct_columns(alloc, word, false, table, forms)?;
    match column_places(alloc, &columns) {
        Ok(places) => Ok(places),
        Err(error) => Err(EvalFail::NoMemory(error)),
    }
}
