ghost use Rattle.std.specs.Prelude.{◌≡◌, IfErr, IfOk, Ok, Some};
ghost use Rattle.dt_table.specs.Change.{FitsTable};
ghost use Rattle.dt_table.specs.Plain.{plain_changed};
ghost use Rattle.eval_fail.specs.Answers.{AnswersAs, IsOwn};
ghost use Rattle.session_model.specs.Calls.{printed_given};
ghost use Rattle.session_model.specs.Effect.{tabled};
ghost use Rattle.session_model.specs.Statement.{altered_table, bare, shown_text};
ghost use Rattle.session_model.specs.Value.{printed_plain, printed_value};
ghost use Rattle.stmt_change.specs.Effects.{plain_effect, FitsIn};
ghost use Rattle.stmt_change.specs.Places.{table_at};
ghost use Rattle.stmt_effect.specs.Commands.{value_printed};
ghost use Rattle.stmt_change.specs.Altered.{plain_altered};
ghost use Rattle.stmt_value.specs.Values.{plain_given, plain_value};
ghost use Rattle.stmt_value.specs.Values.{IsAlteredIn, IsIndexedIn, IsValueIn};
ghost use Rattle.table_heap.specs.Seen.{IsAt};
ghost use Rattle.table_heap.specs.State.{state_of};

use crate::assigned::table_change;
use dt_base::{Code, Steps};
use dt_print::{null_text, table_text, vector_text};
use eval_fail::{EvalFail, stop};
use std::alloc::{AllocError, Global};
use std::sync::ledger::Ledger;
use stmt_change::{Change, Effect, NameChange};
use stmt_value::{Altered, Given, Value};
use table_argument::table_of;
use table_heap::{Heap, Id};

/// How a value prints.
fn value_text<L: Ledger>(
    alloc: Global,
    value: &Value<'_>,
    heap: &Heap,
    steps: &mut Steps<L>,
) -> Result<Vec<u8>, AllocError>
    requires { IsValueIn heap.now value.now }
    ensures { IfOk result (λ v.
        v.items ≡ printed_value (state_of heap.now) (plain_value value.now)) }
{
    match value {
        Value::Named(id) => table_text(alloc, heap.table(*id), steps),
        Value::New(table) => table_text(alloc, table, steps),
        Value::Cells(column) => vector_text(alloc, column, steps),
        Value::Kept(column) => vector_text(alloc, column, steps),
        Value::Null => null_text(alloc),
    }
}

/// How a table prints that is changed: as it is then.
fn changed_text<L: Ledger>(
    alloc: Global,
    id: Id,
    parts: &dt_table::Change,
    heap: &Heap,
    steps: &mut Steps<L>,
) -> Result<Vec<u8>, AllocError>
    requires live { IsAt heap.now id }
    requires fits { FitsTable (table_at heap.now id) parts.now }
    ensures { IfOk result (λ v.
        v.items ≡ printed_plain (plain_changed (table_at heap.now id) parts.now)) }
{
    let table = heap.table(id);
    let changed = table.preview(alloc, parts, steps)?;
    table_text(alloc, &changed, steps)
}

/// How a value prints that alters a table: the table as it is then, where its columns are changed,
/// and else the value. An index does not show.
fn altered_text<L: Ledger>(
    alloc: Global,
    value: &Value<'_>,
    altered: &Altered,
    heap: &Heap,
    steps: &mut Steps<L>,
) -> Result<Vec<u8>, AllocError>
    requires live { IsValueIn heap.now value.now }
    requires altered { IsAlteredIn heap.now value.now (Some altered.now) }
    ensures { IfOk result (λ v. v.items ≡ printed_value
        (tabled (state_of heap.now) (altered_table (Some (plain_altered heap.now altered.now))))
        (plain_value value.now)) }
{
    match &altered.parts {
        Some(parts) => changed_text(alloc, altered.id, parts, heap, steps),
        None => {
            let _table = table_of(heap, altered.id);
            value_text(alloc, value, heap, steps)
        }
    }
}

/// What a value that is given no name prints: itself where it is shown, else nothing.
fn shown_text<L: Ledger>(
    alloc: Global,
    given: &Given<'_>,
    heap: &Heap,
    steps: &mut Steps<L>,
) -> Result<Vec<u8>, AllocError>
    requires { IsIndexedIn heap.now given.now }
    ensures { IfOk result (λ v.
        v.items ≡ shown_text (state_of heap.now) (plain_given heap.now given.now)) }
{
    if !given.shown {
        return Ok(Vec::new(alloc));
    }
    match &given.altered {
        None => value_text(alloc, &given.value, heap, steps),
        Some(altered) => altered_text(alloc, &given.value, altered, heap, steps),
    }
}

/// A value that is given no name prints, where it is shown, and the table that it alters changes.
pub fn bare<L: Ledger>(
    alloc: Global,
    given: Given<'_>,
    heap: &Heap,
    steps: &mut Steps<L>,
) -> Result<Effect, EvalFail>
    requires { IsIndexedIn heap.now given }
    ensures answer { AnswersAs (plain_effect heap.now)
        (bare (state_of heap.now) (plain_given heap.now given.entry)) result }
    ensures fits { IfOk result (λ e. FitsIn heap.now e.change) }
    ensures own { IfErr result IsOwn }
{
    let text = shown_text(alloc, &given, heap, steps)?;
    let warns = given.warns;
    let change = Change {
        table: table_change(given.altered),
        name: NameChange::Nothing,
        options: None,
    };
    Ok(Effect {
        text,
        file: None,
        warns,
        change,
    })
}

/// The text of a value, as an effect.
fn value_printed<L: Ledger>(
    alloc: Global,
    given: &Given<'_>,
    heap: &Heap,
    steps: &mut Steps<L>,
) -> Result<Effect, EvalFail>
    requires { IsValueIn heap.now given.now.value }
    ensures answer { AnswersAs (plain_effect heap.now)
        (Ok (value_printed (state_of heap.now) (plain_given heap.now given.now))) result }
    ensures fits { IfOk result (λ e. FitsIn heap.now e.change) }
    ensures own { IfErr result IsOwn }
{
    let text = value_text(alloc, &given.value, heap, steps)?;
    Ok(Effect::prints(text, given.warns))
}

/// What `print` puts: any value but NULL, which is E04 with that word.
pub fn printed<L: Ledger>(
    alloc: Global,
    given: &Given<'_>,
    heap: &Heap,
    steps: &mut Steps<L>,
) -> Result<Effect, EvalFail>
    requires { IsValueIn heap.now given.now.value }
    ensures answer { AnswersAs (plain_effect heap.now)
        (printed_given (state_of heap.now) (plain_given heap.now given.now)) result }
    ensures fits { IfOk result (λ e. FitsIn heap.now e.change) }
    ensures own { IfErr result IsOwn }
{
    match &given.value {
        Value::Null => Err(stop(alloc, Code::E04, "NULL")),
        Value::Named(_) | Value::New(_) | Value::Cells(_) | Value::Kept(_) => {
            value_printed(alloc, given, heap, steps)
        }
    }
}
