ghost use Rattle.std.specs.Prelude.{◌≡◌, IfErr, IfOk, option_map};
ghost use Rattle.eval_fail.specs.Answers.{AnswersAs, IsOwn};
ghost use Rattle.session_model.specs.Statement.{altered_table, assigned, value_change};
ghost use Rattle.session_model.specs.Value as value;
ghost use Rattle.stmt_change.specs.Effects.{plain_effect, plain_name, plain_table};
ghost use Rattle.stmt_change.specs.Effects.{FitsIn, FitsNameIn, FitsTableIn};
ghost use Rattle.stmt_change.specs.Altered.{plain_altered};
ghost use Rattle.stmt_value.specs.Values.{plain_given, plain_value};
ghost use Rattle.stmt_value.specs.Values.{IsAlteredIn, IsIndexedIn, IsValueIn};
ghost use Rattle.stmt_value.specs.declared.given.Value.{Value};
ghost use Rattle.table_heap.specs.Seen.{HeapSeen};

use dt_base::{Code, Steps, Text};
use eval_fail::{EvalFail, stop};
use na_vector::Column;
use std::alloc::Global;
use std::sync::ledger::Ledger;
use stmt_change::{Change, Effect, NameChange, TableChange};
use stmt_value::{Altered, Given, Value};

/// A vector that a name is bound to is copied for the other name.
fn copied_vector<L: Ledger>(
    alloc: Global,
    name: Text,
    column: &Column,
    steps: &mut Steps<L>,
) -> Result<NameChange, EvalFail>
    ensures answer { AnswersAs plain_name
        (value_change name (value.Cells column.now.vector)) result }
    ensures fits { (h : HeapSeen) → IfOk result (FitsNameIn h) }
    ensures own { IfErr result IsOwn }
{
    Ok(NameChange::BindVector {
        name,
        column: column.copy(alloc, steps)?,
    })
}

/// What binding a name to a value changes. NULL is E19 with the name.
fn value_change<L: Ledger>(
    alloc: Global,
    name: Text,
    value: Value<'_>,
    steps: &mut Steps<L>,
) -> Result<NameChange, EvalFail>
    ensures answer { AnswersAs plain_name (value_change name (plain_value value.entry)) result }
    ensures fits { (h : HeapSeen) → IsValueIn h value.entry → IfOk result (FitsNameIn h) }
    ensures own { IfErr result IsOwn }
{
    match value {
        Value::Named(id) => Ok(NameChange::Alias { name, id }),
        Value::New(table) => Ok(NameChange::BindNew { name, table }),
        Value::Cells(column) => Ok(NameChange::BindVector { name, column }),
        Value::Kept(column) => copied_vector(alloc, name, column, steps),
        Value::Null => Err(stop(alloc, Code::E19, name.as_str())),
    }
}

/// The table that a value alters, as a change.
pub fn table_change(altered: Option<Altered>) -> TableChange
    ensures table { (h : HeapSeen) → plain_table h result
        ≡ altered_table (option_map (plain_altered h) altered) }
    ensures fits { (h : HeapSeen) (v : Value) → IsAlteredIn h v altered → FitsTableIn h result }
{
    match altered {
        Some(altered) => TableChange::Altered(altered),
        None => TableChange::Nothing,
    }
}

/// A value that is given a name: the table that it alters changes, and the name is bound to it.
pub fn assigned<L: Ledger>(
    alloc: Global,
    name: &Text,
    given: Given<'_>,
    steps: &mut Steps<L>,
) -> Result<Effect, EvalFail>
    ensures answer { (h : HeapSeen)
        → AnswersAs (plain_effect h) (assigned name.now (plain_given h given.entry)) result }
    ensures fits { (h : HeapSeen) → IsIndexedIn h given.entry
        → IfOk result (λ e. FitsIn h e.change) }
    ensures own { IfErr result IsOwn }
{
    let Given {
        value,
        warns,
        altered,
        shown: _,
    } = given;
    let name = value_change(alloc, name.copy()?, value, steps)?;
    let table = table_change(altered);
    let change = Change {
        table,
        name,
        options: None,
    };
    Ok(Effect::changes(alloc, change, warns))
}
