ghost use Rattle.std.specs.Prelude.{◌≡◌, Some, Ok, IfOk, IfErr, option_map, map, true};
ghost use Rattle.bracket_columns.specs.Answers.{computed_seen};
ghost use Rattle.bracket_rows.specs.Found.{found_of, is_chosen, AreFound, KeepsOrder};
ghost use Rattle.dt_base.specs.Warns.{both_warns};
ghost use Rattle.dt_query.specs.Answers.{outcome_of, plain_answer, OutcomeFits};
ghost use Rattle.dt_query.specs.Rows.{found_table, IsOfFound};
ghost use Rattle.dt_query.specs.declared.answer.Outcome.TheVariants.{Assigned as Changed};
ghost use Rattle.dt_table.specs.Plain.{plain};
ghost use Rattle.dt_table.specs.Table.{HasTrueKey};
ghost use Rattle.eval_fail.specs.Answers.{AnswersAs, IsOwn};
ghost use Rattle.na_vector.specs.Frame.{vectors_of};
ghost use Rattle.session_model.specs.Meaning.{arg_meaning, meaning, second_meaning};
ghost use Rattle.session_model.specs.Meanings.{Assigns, AssignsAll};
ghost use Rattle.session_model.specs.Second.{j_answer, key_kept, rows_answer};
ghost use Rattle.session_model.specs.Second.{second_answer};

use crate::{Answer, Outcome};
use bracket_assign::{Assigned, assigned, assigned_all};
use bracket_columns::{Computed, answer_of, new_table};
use bracket_rows::{Found, found_columns, surround};
use dt_base::{Steps, Warns};
use dt_table::Table;
use dt_tree::{Arg, Expr, Second};
use eval_fail::EvalFail;
use expr_eval::Vars;
use std::alloc::Global;
use std::sync::ledger::Ledger;

/// The rows that were found, as a new table.
#[tactic(auto, using(crate::proofs::FoundFacts::found_width))]
fn found_table<L: Ledger>(
    alloc: Global,
    x: &Table,
    found: &Found,
    steps: &mut Steps<L>,
) -> Result<Table, EvalFail>
    requires { AreFound x.now found.now }
    ensures answer { AnswersAs plain (found_table (found_of x.now found.now)) result }
    ensures columns { IfOk result (IsOfFound x.now found.now) }
    ensures own { IfErr result IsOwn }
{
    let frame = found_columns(alloc, x, found, steps)?;
    let _ = frame.width();
    let table = new_table(alloc, x.names(), frame)?;
    let _ = table.names();
    Ok(table)
}

/// A new table of columns with the names of `x`, with the key of `x` where i was logical.
fn key_kept(alloc: Global, x: &Table, logical: bool, table: Table) -> Result<Table, EvalFail>
    requires names { table.names ≡ x.now.names }
    requires true_key { logical ≡ true →
        HasTrueKey table.frame.rows (vectors_of table.frame.columns) x.now.key }
    ensures answer { AnswersAs plain (Ok (key_kept (plain x.now) logical (plain table))) result }
    ensures own { IfErr result IsOwn }
{
    if !logical {
        return Ok(table);
    }
    let key = Vec::from_slice(alloc, x.key())?;
    Ok(table.with_key(key))
}

/// What a bracket without j gives: the rows that were found. A logical i keeps the key, since its
/// rows stand as they stood.
fn rows_answer<L: Ledger>(
    alloc: Global,
    x: &Table,
    found: &Found,
    steps: &mut Steps<L>,
) -> Result<Answer, EvalFail>
    requires rows { AreFound x.now found.now }
    requires order { KeepsOrder found.now }
    ensures answer { AnswersAs (plain_answer x.now)
        (rows_answer (plain x.now) (found_of x.now found.now)) result }
    ensures fits { IfOk result (λ a. OutcomeFits x.now a.outcome) }
    ensures own { IfErr result IsOwn }
{
    let _ = x.names();
    let made = found_table(alloc, x, found, steps)?;
    let table = key_kept(alloc, x, found.logical, made)?;
    Ok(Answer {
        outcome: Outcome::Table(table),
        warns: found.warns,
    })
}

/// What j gave, with the warnings of i before its own.
fn computed_answer(warns: Warns, computed: Computed) -> Answer
    ensures outcome { result.outcome ≡ outcome_of computed }
    ensures warns { result.warns ≡ both_warns warns (computed_seen computed).warns }
{
    match computed {
        Computed::Table(made) => Answer {
            outcome: Outcome::Table(made.table),
            warns: warns.both(made.warns),
        },
        Computed::Vector(value) => Answer {
            outcome: Outcome::Vector(value.column),
            warns: warns.both(value.warns),
        },
    }
}

/// What j gives over the rows that were found.
fn j_answer<V: Vars, L: Ledger>(
    alloc: Global,
    j: &Expr,
    x: &Table,
    vars: &V,
    found: &Found,
    steps: &mut Steps<L>,
) -> Result<Answer, EvalFail>
    requires { AreFound x.now found.now }
    ensures answer { AnswersAs (plain_answer x.now)
        (j_answer (meaning j.now) (V.bound vars.now) (found_of x.now found.now)) result }
    ensures fits { IfOk result (λ a. OutcomeFits x.now a.outcome) }
    ensures own { IfErr result IsOwn }
{
    let around = surround(alloc, x, found, steps)?;
    let s = around.scope(x, found, vars);
    let computed = answer_of(alloc, j, &s, steps)?;
    Ok(computed_answer(found.warns, computed))
}

/// What an assignment changes, as an answer.
fn change_answer(assigned: Assigned) -> Answer
    ensures outcome { result.outcome ≡ Changed assigned.change }
    ensures warns { result.warns ≡ assigned.warns }
{
    Answer {
        outcome: Outcome::Assigned(assigned.change),
        warns: assigned.warns,
    }
}

/// What `left := right` gives.
fn assign_answer<V: Vars, L: Ledger>(
    alloc: Global,
    left: &Expr,
    right: &Expr,
    x: &Table,
    vars: &V,
    found: &Found,
    steps: &mut Steps<L>,
) -> Result<Answer, EvalFail>
    requires { AreFound x.now found.now }
    ensures answer { AnswersAs (plain_answer x.now)
        (second_answer (is_chosen found.now) (Some (Assigns (meaning left.now) (meaning right.now)))
        (plain x.now) (V.bound vars.now) (found_of x.now found.now)) result }
    ensures fits { IfOk result (λ a. OutcomeFits x.now a.outcome) }
    ensures own { IfErr result IsOwn }
{
    let made = assigned(alloc, left, right, x, vars, found, steps)?;
    Ok(change_answer(made))
}

/// What the call of `:=` gives.
fn assign_all_answer<V: Vars, L: Ledger>(
    alloc: Global,
    args: &[Arg],
    x: &Table,
    vars: &V,
    found: &Found,
    steps: &mut Steps<L>,
) -> Result<Answer, EvalFail>
    requires { AreFound x.now found.now }
    ensures answer { AnswersAs (plain_answer x.now)
        (second_answer (is_chosen found.now) (Some (AssignsAll (map arg_meaning args.now)))
        (plain x.now) (V.bound vars.now) (found_of x.now found.now)) result }
    ensures fits { IfOk result (λ a. OutcomeFits x.now a.outcome) }
    ensures own { IfErr result IsOwn }
{
    let made = assigned_all(alloc, args, x, vars, found, steps)?;
    Ok(change_answer(made))
}

/// What a j or an assignment gives over the rows that were found.
fn given_answer<V: Vars, L: Ledger>(
    alloc: Global,
    second: &Second,
    x: &Table,
    vars: &V,
    found: &Found,
    steps: &mut Steps<L>,
) -> Result<Answer, EvalFail>
    requires { AreFound x.now found.now }
    ensures answer { AnswersAs (plain_answer x.now)
        (second_answer (is_chosen found.now) (Some (second_meaning second.now)) (plain x.now)
        (V.bound vars.now) (found_of x.now found.now)) result }
    ensures fits { IfOk result (λ a. OutcomeFits x.now a.outcome) }
    ensures own { IfErr result IsOwn }
{
    match second {
        Second::Value(j) => j_answer(alloc, j, x, vars, found, steps),
        Second::Assign { left, right } => assign_answer(alloc, left, right, x, vars, found, steps),
        Second::AssignAll { args } => {
            assign_all_answer(alloc, args.as_slice(), x, vars, found, steps)
        }
    }
}

/// What stands as j gives over the rows that were found; without j these rows.
pub fn second_answer<V: Vars, L: Ledger>(
    alloc: Global,
    second: &Option<Second>,
    x: &Table,
    vars: &V,
    found: &Found,
    steps: &mut Steps<L>,
) -> Result<Answer, EvalFail>
    requires rows { AreFound x.now found.now }
    requires order { KeepsOrder found.now }
    ensures answer { AnswersAs (plain_answer x.now)
        (second_answer (is_chosen found.now) (option_map second_meaning second.now) (plain x.now)
        (V.bound vars.now) (found_of x.now found.now)) result }
    ensures fits { IfOk result (λ a. OutcomeFits x.now a.outcome) }
    ensures own { IfErr result IsOwn }
{
    match second {
        None => rows_answer(alloc, x, found, steps),
        Some(second) => given_answer(alloc, second, x, vars, found, steps),
    }
}
