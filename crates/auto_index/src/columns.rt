ghost use Rattle.std.specs.Prelude.{◌≡◌, ◌<◌, IfOk, false, length, option_map};
ghost use Rattle.std.specs.Result.{result_ok};
ghost use Rattle.auto_index.specs.Added.{cell_count, IsFree, IsNew};
ghost use Rattle.dt_model.specs.Table.{name_at};
ghost use Rattle.dt_table.specs.Plain.{plain};
ghost use Rattle.expr_scope.specs.Scope.{env_of, IsScope};
ghost use Rattle.keys_index.specs.Probes.{probe_seen};
ghost use Rattle.session_model.specs.AutoIndex.{column_added, column_probed, column_valued};
ghost use Rattle.session_model.specs.Indices.{begins_with};
ghost use Rattle.session_model.specs.Meaning.{check_of, meaning, value_in};

use bracket_rows::whole_scope;
use dt_base::{ColType, Steps};
use dt_table::Table;
use dt_tree::Expr;
use eval_fail::EvalFail;
use expr_eval::{Scope, Vars, check, eval};
use keys_index::{Probe, auto_index_for, begins_with, probe_of};
use na_vector::Frame;
use row_choice::all_rows;
use std::alloc::{AllocError, Global};
use std::sync::ledger::Ledger;

/// The type of an expression, or none where it has a fault.
fn kind_of<V: Vars>(
    alloc: Global,
    e: &Expr,
    s: &Scope<'_, V>,
) -> Result<Option<ColType>, AllocError>
    requires { IsScope s.now }
    ensures { IfOk result (λ o. o ≡ result_ok (check_of e.now (env_of V.bound s.now))) }
{
    match check(alloc, e, s) {
        Ok(kind) => Ok(Some(kind)),
        Err(EvalFail::Stop(_)) => Ok(None),
        Err(EvalFail::NoMemory(error)) => Err(error),
    }
}

/// How many cells the value of an expression has, or none where it has a fault.
fn length_of<V: Vars, L: Ledger>(
    alloc: Global,
    e: &Expr,
    s: &Scope<'_, V>,
    steps: &mut Steps<L>,
) -> Result<Option<usize>, AllocError>
    requires { IsScope s.now }
    ensures { IfOk result (λ o. o
        ≡ option_map cell_count (result_ok (value_in e.now (env_of V.bound s.now)))) }
{
    match eval(alloc, e, s, steps) {
        Ok(value) => Ok(Some(value.column.len())),
        Err(EvalFail::Stop(_)) => Ok(None),
        Err(EvalFail::NoMemory(error)) => Err(error),
    }
}

/// The probe's column, where it gets an index by the type and the length of the value in this
/// scope.
fn column_valued<V: Vars, L: Ledger>(
    alloc: Global,
    t: &Table,
    p: &Probe<'_>,
    auto: bool,
    s: &Scope<'_, V>,
    steps: &mut Steps<L>,
) -> Result<Option<usize>, AllocError>
    requires scope { IsScope s.now }
    requires free { IsFree t.now p.now.col }
    ensures column { IfOk result (λ o. option_map (name_at t.now.names) o
        ≡ column_valued (plain t.now) auto (probe_seen t.now.names p.now)
        (check_of p.now.right.now (env_of V.bound s.now))
        (value_in p.now.right.now (env_of V.bound s.now))) }
    ensures new { IfOk result (IsNew t.now) }
{
    let Some(kind) = kind_of(alloc, p.right, s)? else {
        return Ok(None);
    };
    let Some(len) = length_of(alloc, p.right, s, steps)? else {
        return Ok(None);
    };
    Ok(auto_index_for(t, p, kind, len, auto))
}

/// The same, over all rows of the table.
fn column_over_rows<V: Vars, L: Ledger>(
    alloc: Global,
    t: &Table,
    p: &Probe<'_>,
    auto: bool,
    vars: &V,
    steps: &mut Steps<L>,
) -> Result<Option<usize>, AllocError>
    requires { IsFree t.now p.now.col }
    ensures column { IfOk result (λ o. option_map (name_at t.now.names) o
        ≡ column_probed (plain t.now) auto (V.bound vars.now)
        (Some (probe_seen t.now.names p.now))) }
    ensures new { IfOk result (IsNew t.now) }
{
    let all = all_rows(alloc, t.frame().rows())?;
    let none = Frame::new(alloc);
    let s = whole_scope(t, &all, &none, vars);
    column_valued(alloc, t, p, auto, &s, steps)
}

/// The same. The value is looked at only where the option is on, and neither the key nor an index
/// begins with the column.
fn column_probed<V: Vars, L: Ledger>(
    alloc: Global,
    t: &Table,
    p: &Probe<'_>,
    auto: bool,
    vars: &V,
    steps: &mut Steps<L>,
) -> Result<Option<usize>, AllocError>
    requires { p.now.col < length t.now.names }
    ensures column { IfOk result (λ o. option_map (name_at t.now.names) o
        ≡ column_probed (plain t.now) auto (V.bound vars.now)
        (Some (probe_seen t.now.names p.now))) }
    ensures new { IfOk result (IsNew t.now) }
{
    if !auto {
        return Ok(None);
    }
    if begins_with(t, p.col) {
        return Ok(None);
    }
    column_over_rows(alloc, t, p, auto, vars, steps)
}

/// The column that an i gives an index.
fn column_of<V: Vars, L: Ledger>(
    alloc: Global,
    t: &Table,
    i: &Expr,
    auto: bool,
    vars: &V,
    steps: &mut Steps<L>,
) -> Result<Option<usize>, AllocError>
    ensures column { IfOk result (λ o. option_map (name_at t.now.names) o
        ≡ column_added (plain t.now) auto (V.bound vars.now) (Some (meaning i.now))) }
    ensures new { IfOk result (IsNew t.now) }
{
    match probe_of(t, i) {
        Some(p) => column_probed(alloc, t, &p, auto, vars, steps),
        None => Ok(None),
    }
}

/// The column that the i of a bracket gives an index, if there is an i: that of `column == value`
/// or `column %in% value`, where the option is on, neither the key nor an index begins with the
/// column, and the value over all rows has a type that is not above the column's, and beside `==`
/// one cell. A value with a fault gives none.
///
/// Want of memory is the one error. The value is looked at only where the option is on and neither
/// the key nor an index begins with the column; then it touches what valuing it touches, and takes
/// memory for a place for each row.
pub fn column_added<V: Vars, L: Ledger>(
    alloc: Global,
    t: &Table,
    first: &Option<Expr>,
    auto: bool,
    vars: &V,
    steps: &mut Steps<L>,
) -> Result<Option<usize>, AllocError>
    ensures column { IfOk result (λ o. option_map (name_at t.now.names) o
        ≡ column_added (plain t.now) auto (V.bound vars.now) (option_map meaning first.now)) }
    ensures new { IfOk result (IsNew t.now) }
{
    match first {
        Some(i) => column_of(alloc, t, i, auto, vars, steps),
        None => Ok(None),
    }
}
