ghost use Rattle.std.specs.Prelude.{◌≡◌, ◌++◌, ◌∷◌, [], Ok, IfOk, IfErr, OnOk, map};
ghost use Rattle.assign_sides.specs.Seen.{assigned_seen as table_seen, side_seen, values_seen};
ghost use Rattle.bracket_assign.specs.Answers.{assigned_seen};
ghost use Rattle.bracket_assign.specs.Literals.{is_lone_literal, nothing};
ghost use Rattle.bracket_rows.specs.Found.{found_of, is_chosen, AreFound};
ghost use Rattle.dt_base.specs.Warns.{both_warns};
ghost use Rattle.dt_table.specs.Change.{FitsTable, part_names};
ghost use Rattle.dt_table.specs.Plain.{plain};
ghost use Rattle.eval_fail.specs.Answers.{AnswersAs, IsOwn};
ghost use Rattle.expr_scope.specs.Scope.{IsScope, env_of};
ghost use Rattle.session_model.specs.Form.{is_literal};
ghost use Rattle.session_model.specs.Assigned.{assigned_answer, assigned_by, call_names, call_side};
ghost use Rattle.session_model.specs.Assigned.{left_names, target_rows};
ghost use Rattle.session_model.specs.Assigned.{right_side, right_values, rows_there};
ghost use Rattle.session_model.specs.Assigned.{sides_assigned};
ghost use Rattle.session_model.specs.Assigned.{values_assigned};
ghost use Rattle.session_model.specs.Found.{rows_env};
ghost use Rattle.session_model.specs.Meaning.{arg_meaning, meaning};

use assign_sides::{
    Assigned, Side, Values, assigned_by, call_names, call_side, check_right, left_names,
    right_side, right_warns, value_right,
};
use bracket_rows::{Found, surround};
use dt_base::{Code, ColName, Steps, Warns};
use dt_table::Table;
use dt_tree::{Arg, Expr};
use eval_fail::{EvalFail, stop};
use expr_eval::{Scope, Vars};
use na_vector::Frame;
use std::alloc::{AllocError, Global};
use std::sync::ledger::Ledger;
use written_forms::{Written, form_of};

/// What an expression meets where there is no column and no row: the script's names alone, in a
/// bracket.
fn over_nothing<'a, V: Vars>(empty: &'a Frame, vars: &'a V) -> Scope<'a, V>
    requires columns { empty.now.columns ≡ [] }
    requires rows { empty.now.rows ≡ 0 }
    ensures env { env_of V.bound result ≡ nothing (V.bound vars.entry.now) }
    ensures scope { IsScope result }
{
    Scope {
        names: &[],
        wide: empty,
        single_names: &[],
        single: empty,
        positions: &[],
        count: 0,
        group: 0,
        inside: true,
        sd: &[],
        vars,
    }
}

/// Whether the expression is a literal, with `-` before an integer allowed.
fn is_literal(e: &Expr) -> bool
    ensures { result ≡ is_literal (meaning e.now).form }
{
    matches!(
        form_of(e),
        Written::Literal(_, _) | Written::Negated(_) | Written::NullWord | Written::InfWord
    )
}

/// Whether one literal is what all names get.
fn is_lone_literal(side: &Side<'_>) -> bool
    ensures { result ≡ is_lone_literal (side_seen side.now) }
{
    match side {
        Side::ForAll(e) => is_literal(e),
        Side::ForEach(_) | Side::Deletes => false,
    }
}

/// The values of the right side where there is no column and no row.
fn values_over_nothing<V: Vars, L: Ledger>(
    alloc: Global,
    side: &Side<'_>,
    vars: &V,
    steps: &mut Steps<L>,
) -> Result<Values, EvalFail>
    ensures answer { AnswersAs values_seen (right_values (side_seen side.now) (nothing
        (V.bound vars.now))) result }
    ensures own { IfErr result IsOwn }
{
    let empty = Frame::new(alloc);
    let s = over_nothing(&empty, vars);
    check_right(alloc, side, &s)?;
    value_right(alloc, side, &s, steps)
}

/// The values of the right side over the rows that were found, which are gathered.
fn values_over_rows<V: Vars, L: Ledger>(
    alloc: Global,
    side: &Side<'_>,
    x: &Table,
    vars: &V,
    found: &Found,
    steps: &mut Steps<L>,
) -> Result<Values, EvalFail>
    requires { AreFound x.now found.now }
    ensures answer { AnswersAs values_seen (right_values (side_seen side.now)
        (rows_env (found_of x.now found.now) (V.bound vars.now))) result }
    ensures own { IfErr result IsOwn }
{
    let around = surround(alloc, x, found, steps)?;
    let s = around.scope(x, found, vars);
    check_right(alloc, side, &s)?;
    value_right(alloc, side, &s, steps)
}

/// The values of the right side over the rows that were found: all types first, then all values. A
/// literal is valued without these rows, since it gives the same wherever it stands.
#[tactic(auto, using(crate::proofs::Literals::same_values))]
fn right_values<V: Vars, L: Ledger>(
    alloc: Global,
    side: &Side<'_>,
    x: &Table,
    vars: &V,
    found: &Found,
    steps: &mut Steps<L>,
) -> Result<Values, EvalFail>
    requires { AreFound x.now found.now }
    ensures answer { AnswersAs values_seen (right_values (side_seen side.now)
        (rows_env (found_of x.now found.now) (V.bound vars.now))) result }
    ensures own { IfErr result IsOwn }
{
    if is_lone_literal(side) {
        return values_over_nothing(alloc, side, vars, steps);
    }
    values_over_rows(alloc, side, x, vars, found, steps)
}

/// One more row, where there is one.
fn add_row(rows: &mut Vec<u32>, row: Option<u32>) -> Result<(), AllocError>
    ensures { OnOk result (rows.new.items ≡ rows.old.items ++ rows_there (row ∷ [])) }
{
    if let Some(row) = row {
        rows.push(row)?;
    }
    Ok(())
}

/// The rows that are there.
fn rows_there(alloc: Global, positions: &[Option<u32>]) -> Result<Vec<u32>, AllocError>
    ensures { IfOk result (λ v. v.items ≡ rows_there positions.now) }
{
    let mut rows = Vec::new(alloc);
    for row in positions {
        add_row(&mut rows, *row)?;
    }
    Ok(rows)
}

/// What the values make of the table, over all rows, or over those that i names.
fn changed<L: Ledger>(
    alloc: Global,
    names: &[ColName],
    values: Values,
    x: &Table,
    found: &Found,
    steps: &mut Steps<L>,
) -> Result<Assigned, EvalFail>
    requires { AreFound x.now found.now }
    ensures answer { AnswersAs (table_seen x.now) (assigned_by (plain x.now)
        (target_rows (is_chosen found.now) (found_of x.now found.now).places) names.now
        (values_seen values)) result }
    ensures names { IfOk result (λ a. part_names x.now.names a.change.parts ≡ names.now) }
    ensures fits { IfOk result (λ a. FitsTable x.now a.change) }
    ensures own { IfErr result IsOwn }
{
    match &found.positions {
        None => assigned_by(alloc, x, None, names, values, steps),
        Some(positions) => {
            let rows = rows_there(alloc, positions)?;
            assigned_by(alloc, x, Some(&rows), names, values, steps)
        }
    }
}

/// The change, with the warnings of i and of the values before its own.
fn warned(found: &Found, warns: Warns, assigned: Assigned) -> Assigned
    ensures change { result.change ≡ assigned.change }
    ensures warns { result.warns ≡ both_warns (both_warns found.now.warns warns) assigned.warns }
{
    let Assigned { change, warns: own } = assigned;
    Assigned {
        change,
        warns: found.warns.both(warns).both(own),
    }
}

/// The assignment, once all is valued. A row that i names and that is not there is E19 with `i`.
fn values_assigned<L: Ledger>(
    alloc: Global,
    names: &[ColName],
    values: Values,
    x: &Table,
    found: &Found,
    steps: &mut Steps<L>,
) -> Result<Assigned, EvalFail>
    requires { AreFound x.now found.now }
    ensures answer { AnswersAs (assigned_seen x.now) (values_assigned (is_chosen found.now)
        (plain x.now)
        (found_of x.now found.now) names.now (values_seen values)) result }
    ensures fits { IfOk result (λ a. FitsTable x.now a.change) }
    ensures own { IfErr result IsOwn }
{
    if found.past {
        drop(values);
        return Err(stop(alloc, Code::E19, "i"));
    }
    let warns = right_warns(&values);
    let assigned = changed(alloc, names, values, x, found, steps)?;
    Ok(warned(found, warns, assigned))
}

/// The assignment, once both sides are known as they are written.
fn sides_assigned<V: Vars, L: Ledger>(
    alloc: Global,
    names: &[ColName],
    side: &Side<'_>,
    x: &Table,
    vars: &V,
    found: &Found,
    steps: &mut Steps<L>,
) -> Result<Assigned, EvalFail>
    requires { AreFound x.now found.now }
    ensures answer { AnswersAs (assigned_seen x.now) (sides_assigned (is_chosen found.now)
        (plain x.now)
        (V.bound vars.now) (found_of x.now found.now) names.now (side_seen side.now)) result }
    ensures fits { IfOk result (λ a. FitsTable x.now a.change) }
    ensures own { IfErr result IsOwn }
{
    let values = right_values(alloc, side, x, vars, found, steps)?;
    values_assigned(alloc, names, values, x, found, steps)
}

/// What `left := right` changes of the table x, over the rows that i found.
///
/// In this order: E19 with `j` for the form of the left side; E19 with its word for an empty list
/// on the right; the right side's types and then its values, over the table as it is; E19 with `i`
/// where i names a row that is not there; then the faults of the names and targets, as
/// `assigned_by` has them. The table is only read: the change is made when the statement is done.
/// Rows that i chose are gathered once. The manual's page `:=`; the order is dtq's own,
/// docs/LANGUAGE.md, section "Assignment".
pub fn assigned<V: Vars, L: Ledger>(
    alloc: Global,
    left: &Expr,
    right: &Expr,
    x: &Table,
    vars: &V,
    found: &Found,
    steps: &mut Steps<L>,
) -> Result<Assigned, EvalFail>
    requires { AreFound x.now found.now }
    ensures answer { AnswersAs (assigned_seen x.now) (assigned_answer (is_chosen found.now)
        (left_names (meaning left.now)) (right_side (meaning right.now)) (plain x.now)
        (V.bound vars.now)
        (found_of x.now found.now)) result }
    ensures fits { IfOk result (λ a. FitsTable x.now a.change) }
    ensures own { IfErr result IsOwn }
{
    let names = left_names(alloc, left)?;
    let side = right_side(alloc, right)?;
    sides_assigned(alloc, &names, &side, x, vars, found, steps)
}

/// What the call of `:=` changes, over the rows that i found: each argument's name is a column's,
/// and its value the column's. The faults are those of `assigned` from the types on.
pub fn assigned_all<V: Vars, L: Ledger>(
    alloc: Global,
    args: &[Arg],
    x: &Table,
    vars: &V,
    found: &Found,
    steps: &mut Steps<L>,
) -> Result<Assigned, EvalFail>
    requires { AreFound x.now found.now }
    ensures answer { AnswersAs (assigned_seen x.now) (assigned_answer (is_chosen found.now)
        (Ok (call_names (map arg_meaning args.now))) (Ok (call_side (map arg_meaning args.now)))
        (plain x.now)
        (V.bound vars.now) (found_of x.now found.now)) result }
    ensures fits { IfOk result (λ a. FitsTable x.now a.change) }
    ensures own { IfErr result IsOwn }
{
    let names = call_names(alloc, args)?;
    let side = call_side(alloc, args)?;
    sides_assigned(alloc, &names, &side, x, vars, found, steps)
}
