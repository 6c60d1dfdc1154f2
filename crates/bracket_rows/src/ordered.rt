ghost use Rattle.std.specs.Prelude.{◌≡◌, ◌<◌, ◌++◌, ◌∷◌, [], IfOk, IfErr, OnOk, All, Some};
ghost use Rattle.std.specs.Prelude.{codes, false, length, map, option_map, true};
ghost use Rattle.bracket_rows.specs.Found.{found_of, is_chosen, AreFound, KeepsOrder};
ghost use Rattle.bracket_rows.specs.Ordered.{arg_form, arg_item, column_seen, named_seen};
ghost use Rattle.dt_table.specs.Plain.{plain};
ghost use Rattle.eval_fail.specs.Answers.{AnswersAs, IsOwn};
ghost use Rattle.session_model.specs.Expression.{each};
ghost use Rattle.session_model.specs.Found.{ordered_rows, rows_ordered};
ghost use Rattle.session_model.specs.Meaning.{meaning};
ghost use Rattle.session_model.specs.OrderColumns.{column_asked, column_written, known_column};

use crate::found::Found;
use arg_bind::bind;
use dt_base::{Code, Steps, Warns};
use dt_table::Table;
use dt_tree::{Arg, Expr};
use eval_fail::{EvalFail, stop};
use func_table::{Func, func_word};
use row_order::{SortCol, order};
use std::alloc::{AllocError, Global};
use std::sync::ledger::Ledger;
use written_forms::{Written, form_of};

/// A column's name, and whether its cells fall.
#[derive(Clone, Copy)]
struct Named<'a> {
    name: &'a str,
    down: bool,
}

/// What an argument of `order` writes: a bare name, or `-` before one. Anything else is none.
fn column_written(e: &Expr) -> Option<Named<'_>>
    ensures { option_map named_seen result ≡ column_written true (meaning e.now).form }
{
    match form_of(e) {
        Written::BareName(name) => Some(Named { name, down: false }),
        Written::MinusName(name) => Some(Named { name, down: true }),
        _ => None,
    }
}

/// The column of a table that has this name; NA stands last in it. A name that is no column's is
/// E03 with it.
#[tactic(auto, using(crate::proofs::InOrder::placed))]
fn known_column(alloc: Global, named: Named<'_>, x: &Table) -> Result<SortCol, EvalFail>
    ensures answer { AnswersAs (column_seen x.now.names)
        (known_column x.now.names (named_seen named.entry)) result }
    ensures col { IfOk result (λ s. s.col < length x.now.names) }
    ensures na_last { IfOk result (λ s. s.na_last ≡ true) }
    ensures own { IfErr result IsOwn }
{
    match x.place(named.name) {
        Some(col) => Ok(SortCol {
            col,
            down: named.down,
            na_last: true,
        }),
        None => Err(stop(alloc, Code::E03, named.name)),
    }
}

/// The column that an argument asks. A form that asks none is E19 with `order`.
fn column_asked(alloc: Global, e: &Expr, x: &Table) -> Result<SortCol, EvalFail>
    ensures answer { AnswersAs (column_seen x.now.names)
        (column_asked (codes "order") true x.now.names (meaning e.now).form) result }
    ensures col { IfOk result (λ s. s.col < length x.now.names) }
    ensures na_last { IfOk result (λ s. s.na_last ≡ true) }
    ensures own { IfErr result IsOwn }
{
    match column_written(e) {
        Some(named) => known_column(alloc, named, x),
        None => Err(stop(alloc, Code::E19, func_word(Func::Order))),
    }
}

/// One more column.
fn add_column(by: &mut Vec<SortCol>, column: SortCol) -> Result<(), AllocError>
    ensures { OnOk result (by.new.items ≡ by.old.items ++ column ∷ []) }
{
    by.push(column)?;
    Ok(())
}

/// The columns that the arguments ask, each in its turn, or the first fault.
fn order_columns(alloc: Global, args: &[Arg], x: &Table) -> Result<Vec<SortCol>, EvalFail>
    ensures answer { AnswersAs (λ v. map (column_seen x.now.names) v.items)
        (each (column_asked (codes "order") true x.now.names) (map arg_form args.now)) result }
    ensures cols { IfOk result (λ v. All (λ s. s.col < length x.now.names) v.items) }
    ensures na_last { IfOk result (λ v. All (λ s. s.na_last ≡ true) v.items) }
    ensures own { IfErr result IsOwn }
{
    let mut by = Vec::new(alloc);
    for arg in args {
        let column = column_asked(alloc, &arg.value, x)?;
        add_column(&mut by, column)?;
    }
    Ok(by)
}

/// The places of these rows, each of which is there.
fn places_of(alloc: Global, rows: &[u32]) -> Result<Vec<Option<u32>>, AllocError>
    ensures { IfOk result (λ v. v.items ≡ map Some rows.now) }
{
    let mut places = Vec::with_capacity(alloc, rows.len())?;
    for row in rows {
        places.push(Some(*row))?;
    }
    Ok(places)
}

/// All rows in the order of these columns, NA last. It touches each cell of these columns.
fn rows_ordered<L: Ledger>(
    alloc: Global,
    x: &Table,
    by: &[SortCol],
    steps: &mut Steps<L>,
) -> Result<Found, AllocError>
    requires cols { All (λ s. s.col < length x.now.names) by.now }
    requires na_last { All (λ s. s.na_last ≡ true) by.now }
    ensures found { IfOk result (λ f. found_of x.now f
        ≡ rows_ordered (plain x.now) (map (column_seen x.now.names) by.now)) }
    ensures rows { IfOk result (AreFound x.now) }
    ensures chosen { IfOk result (λ f. is_chosen f ≡ true) }
    ensures order { IfOk result KeepsOrder }
{
    let rows = order(alloc, x.frame(), by, steps)?;
    let positions = places_of(alloc, &rows)?;
    Ok(Found {
        positions: Some(positions),
        past: false,
        logical: false,
        warns: Warns::none(),
    })
}

/// The rows that the call of `order` with these arguments gives: all rows of the table, in the
/// order of the first of the columns in which two of them differ, and by number where they differ
/// in none. NA stands last, also where cells fall.
///
/// The first fault counts: E19 with the name of an argument that has one, or with `order` where
/// there is no argument; then, argument by argument, E19 with `order` for one that is neither a
/// bare name nor `-` before one, and E03 with the name that is no column's. A bare name is a
/// column's, also one that is special elsewhere. It touches each cell of the columns, and takes
/// memory for a place for each row. The manual's pages data.table and setorder;
/// docs/LANGUAGE.md, section "Brackets".
pub fn ordered_rows<L: Ledger>(
    alloc: Global,
    args: &[Arg],
    x: &Table,
    steps: &mut Steps<L>,
) -> Result<Found, EvalFail>
    ensures answer { AnswersAs (found_of x.now) (ordered_rows (map arg_item args.now)
        (plain x.now)) result }
    ensures rows { IfOk result (AreFound x.now) }
    ensures chosen { IfOk result (λ f. is_chosen f ≡ true) }
    ensures order { IfOk result KeepsOrder }
    ensures own { IfErr result IsOwn }
{
    let _ = x.names();
    bind(alloc, Func::Order, args)?;
    let by = order_columns(alloc, args, x)?;
    Ok(rows_ordered(alloc, x, &by, steps)?)
}
