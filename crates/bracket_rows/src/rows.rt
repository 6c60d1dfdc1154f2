ghost use Rattle.std.specs.Prelude.{◌≡◌, IfOk, IfErr, true, false, None, Some, length, is_some};
ghost use Rattle.std.specs.Prelude.{is_none, option_map};
ghost use Rattle.std.specs.List.{list_any};
ghost use Rattle.eval_fail.specs.Answers.{AnswersAs, IsOwn};
ghost use Rattle.bracket_rows.specs.Found.{found_of, is_chosen, AreFound, KeepsOrder};
ghost use Rattle.dt_base.specs.Warns.{no_warns};
ghost use Rattle.dt_table.specs.Plain.{plain};
ghost use Rattle.expr_scope.specs.Scope.{env_of, IsScope};
ghost use Rattle.func_table.specs.Special.{special_of};
ghost use Rattle.na_vector.specs.Frame.{rows_with};
ghost use Rattle.session_model.specs.Expression.{checked_value};
ghost use Rattle.session_model.specs.Found.{i_variable, i_name, i_not_variable, i_not_name};
ghost use Rattle.session_model.specs.Found.{i_value, is_logical, of_columns, rows_by, rows_found};
ghost use Rattle.session_model.specs.Found.{rows_of_i};
ghost use Rattle.session_model.specs.Meaning.{meaning};
ghost use Rattle.valued.specs.Valued.{valued_of};
ghost use Rattle.vector_model.specs.Then.{then_do};

use crate::forms::{negated_name, order_arguments};
use crate::found::Found;
use crate::ordered::ordered_rows;
use crate::scopes::whole_scope;
use arg_bind::bare_name;
use dt_base::{Code, ColType, Steps, Warns};
use dt_table::Table;
use dt_tree::Expr;
use eval_fail::{EvalFail, stop, stop_unbuilt};
use expr_eval::{Scope, Vars, check, eval};
use func_table::{Special, special_named};
use na_vector::{Column, Frame};
use row_choice::{all_rows, chosen_rows};
use std::alloc::Global;
use std::sync::ledger::Ledger;
use valued::Valued;

/// The value of an expression, whose type is looked at first.
pub fn checked_value<V: Vars, L: Ledger>(
    alloc: Global,
    e: &Expr,
    s: &Scope<'_, V>,
    steps: &mut Steps<L>,
) -> Result<Valued, EvalFail>
    requires { IsScope s.now }
    ensures answer { AnswersAs valued_of (checked_value (meaning e.now) (env_of V.bound s.now))
        result }
    ensures own { IfErr result IsOwn }
{
    check(alloc, e, s)?;
    eval(alloc, e, s, steps)
}

/// These rows; of a table without columns there are none.
fn of_columns(alloc: Global, width: usize, positions: Vec<Option<u32>>) -> Vec<Option<u32>>
    ensures items { result.items ≡ of_columns width positions.items }
    ensures none { rows_with width (length result.items) ≡ length result.items }
{
    if width == 0 {
        return Vec::new(alloc);
    }
    positions
}

/// Whether one of these is a row of NA.
fn names_no_row(positions: &[Option<u32>]) -> bool
    ensures { result ≡ list_any is_none positions.now }
{
    positions.iter().any(|p| p.is_none())
}

/// Whether the type is logical.
fn is_logical(kind: ColType) -> bool
    ensures { result ≡ is_logical kind }
{
    match kind {
        ColType::Lgl => true,
        ColType::Int | ColType::Chr => false,
    }
}

/// The rows that a value of i chooses.
#[tactic(auto, using(dt_table::proofs::Plain::counts))]
fn rows_by<L: Ledger>(
    alloc: Global,
    x: &Table,
    column: &Column,
    warns: Warns,
    steps: &mut Steps<L>,
) -> Result<Found, EvalFail>
    ensures answer { AnswersAs (found_of x.now)
        (rows_by (plain x.now) (record { vector = column.now.vector; warns = warns })) result }
    ensures rows { IfOk result (AreFound x.now) }
    ensures chosen { IfOk result (λ f. is_chosen f ≡ true) }
    ensures order { IfOk result KeepsOrder }
    ensures own { IfErr result IsOwn }
{
    let frame = x.frame();
    let positions = chosen_rows(alloc, column, frame.rows(), steps)?;
    let past = names_no_row(&positions);
    Ok(Found {
        positions: Some(of_columns(alloc, frame.width(), positions)),
        past,
        logical: is_logical(column.kind()),
        warns,
    })
}

/// The rows that the value of an expression chooses.
fn valued_rows<V: Vars, L: Ledger>(
    alloc: Global,
    e: &Expr,
    x: &Table,
    s: &Scope<'_, V>,
    steps: &mut Steps<L>,
) -> Result<Found, EvalFail>
    requires { IsScope s.now }
    ensures answer { AnswersAs (found_of x.now)
        (then_do (checked_value (meaning e.now) (env_of V.bound s.now)) (rows_by (plain x.now)))
        result }
    ensures rows { IfOk result (AreFound x.now) }
    ensures chosen { IfOk result (λ f. is_chosen f ≡ true) }
    ensures order { IfOk result KeepsOrder }
    ensures own { IfErr result IsOwn }
{
    let value = checked_value(alloc, e, s, steps)?;
    rows_by(alloc, x, &value.column, value.warns, steps)
}

/// The rows that the vector of a script's name chooses. The name of a table is not served, and any
/// other is E02 with it.
#[tactic(auto, using(expr_scope::proofs::Bindings::i_bindings))]
fn variable_rows<V: Vars, L: Ledger>(
    alloc: Global,
    name: &str,
    x: &Table,
    vars: &V,
    steps: &mut Steps<L>,
) -> Result<Found, EvalFail>
    ensures answer { AnswersAs (found_of x.now)
        (then_do (i_variable name.now (V.bound vars.now name.now)) (rows_by (plain x.now))) result }
    ensures rows { IfOk result (AreFound x.now) }
    ensures chosen { IfOk result (λ f. is_chosen f ≡ true) }
    ensures order { IfOk result KeepsOrder }
    ensures own { IfErr result IsOwn }
{
    match vars.vector(name) {
        Some(column) => rows_by(alloc, x, column, Warns::none(), steps),
        None => match vars.table(name) {
            Some(_) => Err(stop_unbuilt(alloc)),
            None => Err(stop(alloc, Code::E02, name)),
        },
    }
}

/// The rows that a bare name chooses: `.N` by its value, any other as the script's, of which no
/// special name is one.
fn name_rows<V: Vars, L: Ledger>(
    alloc: Global,
    e: &Expr,
    name: &str,
    x: &Table,
    s: &Scope<'_, V>,
    steps: &mut Steps<L>,
) -> Result<Found, EvalFail>
    requires { IsScope s.now }
    ensures answer { AnswersAs (found_of x.now)
        (then_do (i_name (meaning e.now) (env_of V.bound s.now) name.now (special_of name.now))
        (rows_by (plain x.now))) result }
    ensures rows { IfOk result (AreFound x.now) }
    ensures chosen { IfOk result (λ f. is_chosen f ≡ true) }
    ensures order { IfOk result KeepsOrder }
    ensures own { IfErr result IsOwn }
{
    match special_named(name) {
        Some(Special::Count) => valued_rows(alloc, e, x, s, steps),
        Some(Special::Places | Special::Group | Special::Rows) => Err(stop(alloc, Code::E02, name)),
        None => variable_rows(alloc, name, x, s.vars, steps),
    }
}

/// The rows that `!` before a name chooses that is no special one. Where a table has the name it is
/// not served.
#[tactic(auto, using(expr_scope::proofs::Bindings::i_bindings))]
fn not_variable_rows<V: Vars, L: Ledger>(
    alloc: Global,
    e: &Expr,
    name: &str,
    x: &Table,
    s: &Scope<'_, V>,
    steps: &mut Steps<L>,
) -> Result<Found, EvalFail>
    requires { IsScope s.now }
    ensures answer { AnswersAs (found_of x.now)
        (then_do
        (i_not_variable (meaning e.now) (env_of V.bound s.now) (V.bound s.now.vars.now name.now))
        (rows_by (plain x.now))) result }
    ensures rows { IfOk result (AreFound x.now) }
    ensures chosen { IfOk result (λ f. is_chosen f ≡ true) }
    ensures order { IfOk result KeepsOrder }
    ensures own { IfErr result IsOwn }
{
    match s.vars.table(name) {
        Some(_) => Err(stop_unbuilt(alloc)),
        None => valued_rows(alloc, e, x, s, steps),
    }
}

/// The rows that `!` before a bare name chooses.
fn not_name_rows<V: Vars, L: Ledger>(
    alloc: Global,
    e: &Expr,
    name: &str,
    x: &Table,
    s: &Scope<'_, V>,
    steps: &mut Steps<L>,
) -> Result<Found, EvalFail>
    requires { IsScope s.now }
    ensures answer { AnswersAs (found_of x.now)
        (then_do (i_not_name (meaning e.now) (env_of V.bound s.now) name.now (special_of name.now))
        (rows_by (plain x.now))) result }
    ensures rows { IfOk result (AreFound x.now) }
    ensures chosen { IfOk result (λ f. is_chosen f ≡ true) }
    ensures order { IfOk result KeepsOrder }
    ensures own { IfErr result IsOwn }
{
    match special_named(name) {
        Some(_) => valued_rows(alloc, e, x, s, steps),
        None => not_variable_rows(alloc, e, name, x, s, steps),
    }
}

/// The rows that i chooses in this scope, by its form.
#[tactic(auto, using(crate::proofs::Written::i_forms))]
fn rows_in<V: Vars, L: Ledger>(
    alloc: Global,
    i: &Expr,
    x: &Table,
    s: &Scope<'_, V>,
    steps: &mut Steps<L>,
) -> Result<Found, EvalFail>
    requires { IsScope s.now }
    ensures answer { AnswersAs (found_of x.now)
        (then_do (i_value (meaning i.now) (env_of V.bound s.now)) (rows_by (plain x.now))) result }
    ensures rows { IfOk result (AreFound x.now) }
    ensures chosen { IfOk result (λ f. is_chosen f ≡ true) }
    ensures order { IfOk result KeepsOrder }
    ensures own { IfErr result IsOwn }
{
    if let Some(name) = bare_name(i) {
        return name_rows(alloc, i, name, x, s, steps);
    }
    if let Some(name) = negated_name(i) {
        return not_name_rows(alloc, i, name, x, s, steps);
    }
    valued_rows(alloc, i, x, s, steps)
}

/// The rows that an i by its value chooses of a table.
fn rows_by_value<V: Vars, L: Ledger>(
    alloc: Global,
    i: &Expr,
    x: &Table,
    vars: &V,
    steps: &mut Steps<L>,
) -> Result<Found, EvalFail>
    ensures answer { AnswersAs (found_of x.now)
        (rows_of_i None (meaning i.now) (plain x.now) (V.bound vars.now)) result }
    ensures rows { IfOk result (AreFound x.now) }
    ensures chosen { IfOk result (λ f. is_chosen f ≡ true) }
    ensures order { IfOk result KeepsOrder }
    ensures own { IfErr result IsOwn }
{
    let all = all_rows(alloc, x.frame().rows())?;
    let none = Frame::new(alloc);
    let s = whole_scope(x, &all, &none, vars);
    rows_in(alloc, i, x, &s, steps)
}

/// The rows that i finds of a table: the call of `order` gives all of them in an order, and any
/// other i chooses rows by its value.
fn rows_of_i<V: Vars, L: Ledger>(
    alloc: Global,
    i: &Expr,
    x: &Table,
    vars: &V,
    steps: &mut Steps<L>,
) -> Result<Found, EvalFail>
    ensures answer { AnswersAs (found_of x.now)
        (rows_found (Some (meaning i.now)) (plain x.now) (V.bound vars.now)) result }
    ensures rows { IfOk result (AreFound x.now) }
    ensures chosen { IfOk result (λ f. is_chosen f ≡ true) }
    ensures order { IfOk result KeepsOrder }
    ensures own { IfErr result IsOwn }
{
    match order_arguments(i) {
        Some(args) => ordered_rows(alloc, args, x, steps),
        None => rows_by_value(alloc, i, x, vars, steps),
    }
}

/// All rows of a table, as they stand.
fn all_found() -> Found
    ensures positions { result.positions ≡ None }
    ensures past { result.past ≡ false }
    ensures logical { result.logical ≡ false }
    ensures warns { result.warns ≡ no_warns }
{
    Found {
        positions: None,
        past: false,
        logical: false,
        warns: Warns::none(),
    }
}

/// The rows that the i of a bracket finds of a table; without i all rows, as they stand.
///
/// The call of `order` gives all rows in the order of its columns, NA last: E19 with the name of an
/// argument that has one, or with `order` where there is no argument, or one that is neither a bare
/// name nor `-` before one; and E03 with a name that is no column's.
///
/// Any other i chooses rows. A bare name but `.N` is looked up among the script's names alone: E02
/// where it is unbound, or is another special name. The name of a table, and `!` before one, is not
/// served. Anything else has its type first, over all rows of the table, and then its value. Then
/// come the faults of choosing rows by it: E05 for the length of a logical, E13 for mixed signs.
/// The rows of a logical stand in the order of the table.
///
/// It touches what valuing i touches, and for `order` each cell of its columns. It takes memory for
/// a place for each row. dtq's own rule, docs/LANGUAGE.md, section "Brackets".
pub fn rows_found<V: Vars, L: Ledger>(
    alloc: Global,
    i: &Option<Expr>,
    x: &Table,
    vars: &V,
    steps: &mut Steps<L>,
) -> Result<Found, EvalFail>
    ensures answer { AnswersAs (found_of x.now)
        (rows_found (option_map meaning i.now) (plain x.now) (V.bound vars.now)) result }
    ensures rows { IfOk result (AreFound x.now) }
    ensures chosen { IfOk result (λ f. is_chosen f ≡ is_some i.now) }
    ensures order { IfOk result KeepsOrder }
    ensures own { IfErr result IsOwn }
{
    match i {
        Some(i) => rows_of_i(alloc, i, x, vars, steps),
        None => Ok(all_found()),
    }
}
