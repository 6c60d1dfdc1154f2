ghost use Rattle.std.specs.Prelude.{◌≡◌, IfOk};
ghost use Rattle.dt_table.specs.Change.{FitsTable};
ghost use Rattle.dt_table.specs.Plain.{plain, plain_changed};

use dt_base::{Steps, Warns};
use dt_query::{Answer, Outcome};
use dt_table::{Change, Table};
use na_vector::Column;
use std::alloc::AllocError;
use std::sync::ledger::Ledger;
use stmt_change::Altered;
use table_heap::Id;

/// What an expression gives.
#[derive(Drop)]
pub enum Value<'a> {
    /// A table that names are bound to.
    Named(Id),
    /// A table of its own.
    New(Table),
    /// A vector of its own.
    Cells(Column),
    /// A vector that a name is bound to.
    Kept(&'a Column),
    Null,
}

/// A value with its warnings, the table that it alters, and whether it prints without a name.
#[derive(Drop)]
pub struct Given<'a> {
    pub value: Value<'a>,
    pub warns: Warns,
    pub altered: Option<Altered>,
    pub shown: bool,
}

/// A table of its own, changed.
fn changed<L: Ledger>(
    table: Table,
    parts: Change,
    steps: &mut Steps<L>,
) -> Result<Table, AllocError>
    requires { FitsTable table parts }
    ensures { IfOk result (λ t. plain t ≡ plain_changed table parts) }
{
    let mut table = table;
    let _names = table.names();
    table.reserve_change(&parts)?;
    table.apply(parts, steps);
    Ok(table)
}

impl<'a> Given<'a> {
    ghost use Rattle.std.specs.Prelude.{◌≡◌, IfOk, false, true, None, Ok};
    ghost use Rattle.dt_query.specs.Answers.{plain_answer, OutcomeFits};
    ghost use Rattle.dt_base.specs.Warns.{no_warns};
    ghost use Rattle.dt_table.specs.Change.{FitsTable};
    ghost use Rattle.session_model.specs.Query.{given_after};
    ghost use Rattle.stmt_value.specs.Values.{plain_given, assigned_given, head_of};
    ghost use Rattle.stmt_value.specs.Values.{FitsOutcome, FitsOwn, IsGivenIn, IsValueIn};
    ghost use Rattle.table_heap.specs.Seen.{HeapSeen};

    /// A value that alters nothing, with these warnings.
    pub(crate) fn plain(value: Value<'a>, warns: Warns) -> Given<'a>
        ensures value { result.value ≡ value.entry }
        ensures warns { result.warns ≡ warns }
        ensures altered { result.altered ≡ None }
        ensures shown { result.shown ≡ true }
    {
        Given {
            value,
            warns,
            altered: None,
            shown: true,
        }
    }

    /// A value that alters nothing, without warnings.
    pub(crate) fn quiet(value: Value<'a>) -> Given<'a>
        ensures value { result.value ≡ value.entry }
        ensures warns { result.warns ≡ no_warns }
        ensures altered { result.altered ≡ None }
        ensures shown { result.shown ≡ true }
    {
        Given::plain(value, Warns::none())
    }

    /// A value that alters nothing and does not print, with these warnings.
    fn unshown(value: Value<'a>, warns: Warns) -> Given<'a>
        ensures value { result.value ≡ value.entry }
        ensures warns { result.warns ≡ warns }
        ensures altered { result.altered ≡ None }
        ensures shown { result.shown ≡ false }
    {
        Given {
            value,
            warns,
            altered: None,
            shown: false,
        }
    }

    /// What is given where the table before a bracket is assigned to: one that has a name is
    /// altered when the statement is done, and one that has none is changed at once.
    fn assigned<L: Ledger>(
        value: Value<'a>,
        parts: Change,
        warns: Warns,
        steps: &mut Steps<L>,
    ) -> Result<Given<'a>, AllocError>
        requires { FitsOwn value parts }
        ensures given { (h : HeapSeen)
            → IfOk result (λ g. plain_given h g ≡ assigned_given h value.entry parts warns) }
        ensures live { (h : HeapSeen) → IsValueIn h value.entry
            → FitsTable (head_of h value.entry) parts → IfOk result (IsGivenIn h) }
    {
        match value {
            Value::Named(id) => Ok(Given {
                value: Value::Named(id),
                warns,
                altered: Some(Altered {
                    id,
                    index: None,
                    parts: Some(parts),
                }),
                shown: false,
            }),
            Value::New(table) => {
                Ok(Given::unshown(Value::New(changed(table, parts, steps)?), warns))
            }
            Value::Cells(column) => Ok(Given::unshown(Value::Cells(column), warns)),
            Value::Kept(column) => Ok(Given::unshown(Value::Kept(column), warns)),
            Value::Null => Ok(Given::unshown(Value::Null, warns)),
        }
    }

    /// What is given behind a bracket, with the warnings of both. Where the bracket gives the table
    /// before it, it is the same value.
    pub(crate) fn after<L: Ledger>(
        self,
        answer: Answer,
        steps: &mut Steps<L>,
    ) -> Result<Given<'a>, AllocError>
        requires { FitsOutcome self.value answer.outcome }
        ensures given { (h : HeapSeen)
            → IfOk result (λ g.
            given_after (plain_given h self.entry)
            (plain_answer (head_of h self.entry.value) answer) ≡ Ok (plain_given h g)) }
        ensures live { (h : HeapSeen) → IsGivenIn h self.entry
            → OutcomeFits (head_of h self.entry.value) answer.outcome
            → IfOk result (IsGivenIn h) }
    {
        let warns = self.warns.both(answer.warns);
        match answer.outcome {
            Outcome::Same => Ok(Given::plain(self.value, warns)),
            Outcome::Table(table) => Ok(Given::plain(Value::New(table), warns)),
            Outcome::Vector(column) => Ok(Given::plain(Value::Cells(column), warns)),
            Outcome::Assigned(parts) => Given::assigned(self.value, parts, warns, steps),
        }
    }

    /// The same value, which prints.
    pub(crate) fn shown(self) -> Given<'a>
        ensures given { (h : HeapSeen)
            → plain_given h result ≡ record (plain_given h self.entry) { shown = true } }
        ensures live { (h : HeapSeen) → IsGivenIn h self.entry → IsGivenIn h result }
    {
        Given {
            value: self.value,
            warns: self.warns,
            altered: self.altered,
            shown: true,
        }
    }
}
