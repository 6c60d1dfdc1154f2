ghost use Rattle.std.specs.Prelude.{◌≡◌, ◌≤◌, IfErr, IfOk, map};
ghost use Rattle.assign_ref.specs.Seen.{rows_seen};
ghost use Rattle.assign_ref.specs.Values.{AreRows};
ghost use Rattle.assign_sides.specs.Seen.{assigned_seen, side_seen, value_seen, values_seen};
ghost use Rattle.cmd_assign.specs.Sets.{assigned_in, checked_right, rows_of, set_effect_of, set_in};
ghost use Rattle.dt_base.specs.declared.limits.TheConstants.{MAX_ROWS};
ghost use Rattle.dt_base.specs.Warns.{both_warns};
ghost use Rattle.dt_table.specs.Change.{FitsTable};
ghost use Rattle.dt_table.specs.Plain.{plain};
ghost use Rattle.eval_fail.specs.Answers.{Answers, AnswersAs, IsOwn};
ghost use Rattle.expr_model.specs.Surroundings.{outside};
ghost use Rattle.expr_scope.specs.Scope.{IsScope, env_of};
ghost use Rattle.session_model.specs.Assigned.{right_warns};
ghost use Rattle.session_model.specs.Found.{vars_of};
ghost use Rattle.session_model.specs.Meaning.{arg_meaning, meaning};
ghost use Rattle.session_model.specs.Set.{check_rows, rows_wanted, rows_warns, set_checked};
ghost use Rattle.session_model.specs.Set.{set_effect, set_sides, set_table, set_valued, set_values};
ghost use Rattle.session_model.specs.Set.{value_rows};
ghost use Rattle.stmt_change.specs.Effects.{plain_effect, FitsIn};
ghost use Rattle.stmt_change.specs.Places.{table_at};
ghost use Rattle.table_argument.specs.Seen.{expression_seen, table_seen};
ghost use Rattle.table_heap.specs.Seen.{HeapSeen, IsAt};
ghost use Rattle.table_heap.specs.State.{state_of};
ghost use Rattle.valued.specs.Valued.{valued_of};

use crate::arguments::{check_int, check_place_or_name, row_side};
use crate::places::{names_named, rows_named};
use assign_sides::{
    Assigned, Side, Values, assigned_by, check_right, right_side, right_warns, value_right,
};
use dt_base::{Steps, Warns};
use dt_table::Table;
use dt_tree::{Arg, Expr};
use eval_fail::EvalFail;
use expr_eval::{Scope, Vars, eval};
use func_table::Formal;
use na_vector::{Column, Frame};
use std::alloc::Global;
use std::sync::ledger::Ledger;
use stmt_change::{Altered, Change, Effect, TableChange};
use stmt_setting::{Setting, outside};
use table_argument::{named_table, needed, table_of};
use table_heap::{Heap, Id};
use valued::Valued;

/// The arguments of `set` behind D.
#[derive(Drop)]
struct Sides<'a> {
    /// The rows; none stands for all.
    rows: Option<&'a Expr>,
    columns: &'a Expr,
    value: &'a Expr,
}

/// The type of the rows, which are integers.
fn check_rows<V: Vars>(alloc: Global, rows: Option<&Expr>, s: &Scope<'_, V>) -> Result<(), EvalFail>
    requires { IsScope s.now }
    ensures answer { Answers (check_rows (env_of V.bound s.now) (expression_seen rows.entry))
        result }
    ensures own { IfErr result IsOwn }
{
    match rows {
        Some(e) => check_int(alloc, Formal::I, e, s),
        None => Ok(()),
    }
}

/// The right side, once its types have been looked at.
fn checked_right<'a, V: Vars>(
    alloc: Global,
    value: &'a Expr,
    s: &Scope<'_, V>,
) -> Result<Side<'a>, EvalFail>
    requires { IsScope s.now }
    ensures answer { AnswersAs side_seen
        (checked_right (env_of V.bound s.now) (meaning value.now)) result }
    ensures own { IfErr result IsOwn }
{
    let side = right_side(alloc, value)?;
    match check_right(alloc, &side, s) {
        Ok(()) => Ok(side),
        Err(fail) => {
            drop(side);
            Err(fail)
        }
    }
}

/// The right side, once the types of all arguments have been looked at, in their order.
fn set_checked<'a, V: Vars>(
    alloc: Global,
    sides: &Sides<'a>,
    s: &Scope<'_, V>,
) -> Result<Side<'a>, EvalFail>
    requires { IsScope s.now }
    ensures answer { AnswersAs side_seen (set_checked (env_of V.bound s.now)
        (expression_seen sides.now.rows) (meaning sides.now.columns.now)
        (meaning sides.now.value.now)) result }
    ensures own { IfErr result IsOwn }
{
    check_rows(alloc, sides.rows, s)?;
    check_place_or_name(alloc, Formal::J, sides.columns, s)?;
    checked_right(alloc, sides.value, s)
}

/// The value of the rows, where they are given.
fn value_rows<V: Vars, L: Ledger>(
    alloc: Global,
    rows: Option<&Expr>,
    s: &Scope<'_, V>,
    steps: &mut Steps<L>,
) -> Result<Option<Valued>, EvalFail>
    requires { IsScope s.now }
    ensures answer { AnswersAs value_seen
        (value_rows (env_of V.bound s.now) (expression_seen rows.entry)) result }
    ensures own { IfErr result IsOwn }
{
    match rows {
        Some(e) => Ok(Some(eval(alloc, e, s, steps)?)),
        None => Ok(None),
    }
}

/// The rows of n that are named, counted from 0; none where none are given, which is all.
fn rows_wanted<L: Ledger>(
    alloc: Global,
    n: usize,
    rows: &Option<Valued>,
    steps: &mut Steps<L>,
) -> Result<Option<Vec<u32>>, EvalFail>
    requires { n ≤ MAX_ROWS }
    ensures answer { AnswersAs rows_of (rows_wanted n (value_seen rows.now)) result }
    ensures rows { IfOk result (λ o. AreRows n (rows_of o)) }
    ensures own { IfErr result IsOwn }
{
    match rows {
        Some(valued) => Ok(Some(rows_named(alloc, &valued.column, n, steps)?)),
        None => Ok(None),
    }
}

/// What is assigned to the columns that are named, in these rows.
fn assigned_named<L: Ledger>(
    alloc: Global,
    table: &Table,
    rows: Option<&[u32]>,
    columns: &Column,
    values: Values,
    steps: &mut Steps<L>,
) -> Result<Assigned, EvalFail>
    requires { AreRows table.now.frame.rows (rows_seen rows) }
    ensures answer { AnswersAs (assigned_seen table.now) (assigned_in table.now
        (rows_seen rows.entry) columns.now.vector (values_seen values)) result }
    ensures fits { IfOk result (λ a. FitsTable table.now a.change) }
    ensures own { IfErr result IsOwn }
{
    let names = names_named(alloc, table.names(), columns, steps)?;
    assigned_by(alloc, table, rows, &names, values, steps)
}

/// The same in rows of their own, or in all.
fn assigned_rows<L: Ledger>(
    alloc: Global,
    table: &Table,
    rows: &Option<Vec<u32>>,
    columns: &Column,
    values: Values,
    steps: &mut Steps<L>,
) -> Result<Assigned, EvalFail>
    requires { AreRows table.now.frame.rows (rows_of rows.now) }
    ensures answer { AnswersAs (assigned_seen table.now) (assigned_in table.now
        (rows_of rows.now) columns.now.vector (values_seen values)) result }
    ensures fits { IfOk result (λ a. FitsTable table.now a.change) }
    ensures own { IfErr result IsOwn }
{
    match rows {
        Some(rows) => assigned_named(alloc, table, Some(rows), columns, values, steps),
        None => assigned_named(alloc, table, None, columns, values, steps),
    }
}

/// What is set in a table: the rows come before the columns, and these before the assignment.
fn set_in<L: Ledger>(
    alloc: Global,
    table: &Table,
    rows: &Option<Valued>,
    columns: &Column,
    values: Values,
    steps: &mut Steps<L>,
) -> Result<Assigned, EvalFail>
    ensures answer { AnswersAs (assigned_seen table.now) (set_in table.now (value_seen rows.now)
        columns.now.vector (values_seen values)) result }
    ensures fits { IfOk result (λ a. FitsTable table.now a.change) }
    ensures own { IfErr result IsOwn }
{
    let rows = rows_wanted(alloc, table.frame().rows(), rows, steps)?;
    assigned_rows(alloc, table, &rows, columns, values, steps)
}

/// The same of the table of a live Id, over its plain reading.
fn set_table<L: Ledger>(
    alloc: Global,
    heap: &Heap,
    id: Id,
    rows: &Option<Valued>,
    columns: &Column,
    values: Values,
    steps: &mut Steps<L>,
) -> Result<Assigned, EvalFail>
    requires { IsAt heap.now id }
    ensures answer { AnswersAs (assigned_seen (table_at heap.now id))
        (set_table (plain (table_at heap.now id)) (value_seen rows.now) columns.now.vector
        (values_seen values)) result }
    ensures fits { IfOk result (λ a. FitsTable (table_at heap.now id) a.change) }
    ensures own { IfErr result IsOwn }
{
    let table = table_of(heap, id);
    let _names = table.names();
    set_in(alloc, table, rows, columns, values, steps)
}

/// The warnings of all values, in the order of the arguments.
fn warns_of(rows: &Option<Valued>, columns: &Valued, values: &Values) -> Warns
    ensures { result ≡ rows_warns (value_seen rows.now)
        (both_warns columns.now.warns (right_warns (values_seen values.now))) }
{
    let warns = columns.warns.both(right_warns(values));
    match rows {
        Some(valued) => valued.warns.both(warns),
        None => warns,
    }
}

/// The effect that a table of this Id is assigned to.
fn sets(alloc: Global, id: Id, warns: Warns, assigned: Assigned) -> Effect
    ensures effect { (h : HeapSeen) → plain_effect h result
        ≡ set_effect_of h id warns assigned }
    ensures fits { (h : HeapSeen) → IsAt h id → FitsTable (table_at h id) assigned.change
        → FitsIn h result.change }
{
    let Assigned { change, warns: own } = assigned;
    let change = Change::of_table(TableChange::Altered(Altered {
        id,
        index: None,
        parts: Some(change),
    }));
    Effect::changes(alloc, change, warns.both(own))
}

/// What `set` does, once all is valued.
fn set_values<L: Ledger>(
    alloc: Global,
    heap: &Heap,
    id: Id,
    rows: &Option<Valued>,
    columns: &Valued,
    values: Values,
    steps: &mut Steps<L>,
) -> Result<Effect, EvalFail>
    requires { IsAt heap.now id }
    ensures answer { AnswersAs (plain_effect heap.now) (set_values (table_seen heap.now id)
        (value_seen rows.now) (valued_of columns.now) (values_seen values)) result }
    ensures fits { IfOk result (λ e. FitsIn heap.now e.change) }
    ensures own { IfErr result IsOwn }
{
    let warns = warns_of(rows, columns, &values);
    let assigned = set_table(alloc, heap, id, rows, &columns.column, values, steps)?;
    Ok(sets(alloc, id, warns, assigned))
}

/// What `set` does, once the types have been looked at: the values of i, j and the right side come
/// first, in this order.
fn set_valued<V: Vars, L: Ledger>(
    alloc: Global,
    heap: &Heap,
    id: Id,
    sides: &Sides<'_>,
    side: &Side<'_>,
    s: &Scope<'_, V>,
    steps: &mut Steps<L>,
) -> Result<Effect, EvalFail>
    requires scope { IsScope s.now }
    requires live { IsAt heap.now id }
    ensures answer { AnswersAs (plain_effect heap.now) (set_valued (env_of V.bound s.now)
        (table_seen heap.now id) (expression_seen sides.now.rows) (meaning sides.now.columns.now)
        (side_seen side.now)) result }
    ensures fits { IfOk result (λ e. FitsIn heap.now e.change) }
    ensures own { IfErr result IsOwn }
{
    let rows = value_rows(alloc, sides.rows, s, steps)?;
    let columns = eval(alloc, sides.columns, s, steps)?;
    let values = value_right(alloc, side, s, steps)?;
    set_values(alloc, heap, id, &rows, &columns, values, steps)
}

/// What `set` does in the surroundings of its arguments: all types come before all values.
fn set_sides<V: Vars, L: Ledger>(
    alloc: Global,
    heap: &Heap,
    id: Id,
    sides: &Sides<'_>,
    s: &Scope<'_, V>,
    steps: &mut Steps<L>,
) -> Result<Effect, EvalFail>
    requires scope { IsScope s.now }
    requires live { IsAt heap.now id }
    ensures answer { AnswersAs (plain_effect heap.now) (set_sides (env_of V.bound s.now)
        (table_seen heap.now id) (expression_seen sides.now.rows) (meaning sides.now.columns.now)
        (meaning sides.now.value.now)) result }
    ensures fits { IfOk result (λ e. FitsIn heap.now e.change) }
    ensures own { IfErr result IsOwn }
{
    let side = set_checked(alloc, sides, s)?;
    set_valued(alloc, heap, id, sides, &side, s, steps)
}

/// The same over the script's names.
fn set_outside<L: Ledger>(
    alloc: Global,
    id: Id,
    sides: &Sides<'_>,
    setting: &Setting<'_>,
    steps: &mut Steps<L>,
) -> Result<Effect, EvalFail>
    requires { IsAt setting.now.heap.now id }
    ensures answer { AnswersAs (plain_effect setting.now.heap.now)
        (set_sides (outside (vars_of (state_of setting.now.heap.now)))
        (table_seen setting.now.heap.now id) (expression_seen sides.now.rows)
        (meaning sides.now.columns.now) (meaning sides.now.value.now)) result }
    ensures fits { IfOk result (λ e. FitsIn setting.now.heap.now e.change) }
    ensures own { IfErr result IsOwn }
{
    let heap = setting.heap;
    let empty = Frame::new(alloc);
    let scope = outside(&empty, setting);
    set_sides(alloc, heap, id, sides, &scope, steps)
}

/// What `set(D, i, j, value)` does: the columns that j names get the value in the rows that i
/// names, as `:=` would assign it. The table of D becomes that one under all its names.
///
/// In this order: E19 with `D` where D is no bare name, E02 where it is not bound, E20 where it is
/// a vector's; the types of i, j and value, E19 with `i` where i is not of integers and with `j`
/// where j is neither of integers nor of texts; their values; E19 with `i` for a cell of i that is
/// no row's place from 1 on, and with `j` for one of j that is neither a text nor a column's place;
/// then the faults of `assigned_by`. Without i, or where it is the word NULL, all rows are meant.
/// Nothing is done yet: the table is only read. Beside what the values and `assigned_by` touch, it
/// touches each cell of i and j once; it takes memory for the values and the change. The manual's
/// page `:=`; the order is dtq's own, docs/LANGUAGE.md, section "Assignment".
pub fn set<L: Ledger>(
    alloc: Global,
    args: &[Arg],
    setting: &Setting<'_>,
    steps: &mut Steps<L>,
) -> Result<Effect, EvalFail>
    ensures answer { AnswersAs (plain_effect setting.now.heap.now)
        (set_effect (map arg_meaning args.now) (state_of setting.now.heap.now)) result }
    ensures fits { IfOk result (λ e. FitsIn setting.now.heap.now e.change) }
    ensures own { IfErr result IsOwn }
{
    let heap = setting.heap;
    let id = named_table(alloc, args, heap)?;
    let columns = needed(alloc, args, &[Formal::D, Formal::I], Formal::J)?;
    let before = [Formal::D, Formal::I, Formal::J];
    let value = needed(alloc, args, &before, Formal::NewValue)?;
    let sides = Sides {
        rows: row_side(args),
        columns,
        value,
    };
    set_outside(alloc, id, &sides, setting, steps)
}
