ghost use Rattle.std.specs.Prelude.{◌≡◌, ◌<◌, None, Some, IfOk, IfErr, IfSome, MatchOption, All};
ghost use Rattle.std.specs.Prelude.{length, map};
ghost use Rattle.std.specs.Option.{option_copied};
ghost use Rattle.eval_fail.specs.Answers.{AnswersAs, IsOwn};
ghost use Rattle.bracket_columns.specs.Answers.{new_seen};
ghost use Rattle.bracket_rows.specs.Scopes.{IsOverRows};
ghost use Rattle.bracket_columns.specs.Texts.{bare_text, call_texts};
ghost use Rattle.dt_table.specs.Plain.{plain};
ghost use Rattle.dt_table.specs.Table.{IsFilled};
ghost use Rattle.expr_scope.specs.Scope.{env_of, vector_lent, IsScope};
ghost use Rattle.expr_model.specs.Surroundings.{column_named};
ghost use Rattle.na_vector.specs.Frame.{vectors_of};
ghost use Rattle.session_model.specs.Columns.{known_column, known_columns, text_columns};
ghost use Rattle.session_model.specs.Items.{item_of, item_texts, item_texts_from};
ghost use Rattle.session_model.specs.Meaning.{arg_meaning};
ghost use Rattle.session_model.specs.Value.{new_table};
ghost use Rattle.valued.specs.Valued.{vector_of};
ghost use Rattle.vector_model.specs.Then.{then_do};

use crate::answer::NewTable;
use crate::names::column_named;
use crate::tables::new_table;
use arg_bind::text_literal;
use dt_base::{Code, ColName, Steps, Text, Warns};
use dt_table::Table;
use dt_tree::Arg;
use eval_fail::{EvalFail, stop};
use expr_eval::{Scope, Vars};
use na_vector::{Column, Frame};
use std::alloc::{AllocError, Global};
use std::sync::ledger::Ledger;

/// The text of an argument that is a text literal without a name.
fn bare_text(arg: &Arg) -> Option<&str>
    ensures { option_copied result ≡ bare_text (item_of (arg_meaning arg.now)) }
{
    match &arg.name {
        Some(_) => None,
        None => text_literal(&arg.value),
    }
}

/// The texts of these arguments, if all are text literals without a name.
#[tactic(auto, using(crate::proofs::TextFacts::texts))]
fn texts_from(alloc: Global, args: &[Arg]) -> Result<Option<Vec<ColName>>, AllocError>
    ensures texts { IfOk result
        (λ o. MatchOption o (item_texts_from (map item_of (map arg_meaning args.now)) ≡ None)
        (λ v. item_texts_from (map item_of (map arg_meaning args.now)) ≡ Some v.items)) }
    ensures count { IfOk result (λ o. IfSome o (λ v. length v.items ≡ length args.now)) }
{
    let mut texts = Vec::new(alloc);
    for arg in args {
        let Some(text) = bare_text(arg) else {
            return Ok(None);
        };
        texts.push(Text::make(alloc, text)?)?;
    }
    Ok(Some(texts))
}

/// The same of one argument or more.
#[tactic(auto, using(crate::proofs::TextFacts::texts))]
fn texts_in(alloc: Global, args: &[Arg]) -> Result<Option<Vec<ColName>>, AllocError>
    ensures texts { IfOk result
        (λ o. MatchOption o (item_texts (map item_of (map arg_meaning args.now)) ≡ None)
        (λ v. item_texts (map item_of (map arg_meaning args.now)) ≡ Some v.items)) }
    ensures some { IfOk result (λ o. IfSome o (λ v. 0 < length v.items)) }
{
    if args.is_empty() {
        return Ok(None);
    }
    texts_from(alloc, args)
}

/// The texts that a call names columns by, if it does: those of `c`.
pub fn call_texts(
    alloc: Global,
    name: &str,
    args: &[Arg],
) -> Result<Option<Vec<ColName>>, AllocError>
    ensures texts { IfOk result
        (λ o. MatchOption o (call_texts name.now (map arg_meaning args.now) ≡ None)
        (λ v. call_texts name.now (map arg_meaning args.now) ≡ Some v.items)) }
    ensures some { IfOk result (λ o. IfSome o (λ v. 0 < length v.items)) }
{
    if name == "c" {
        return texts_in(alloc, args);
    }
    Ok(None)
}

/// The column of the rows that has this name. Without one it is E03 with it.
fn known_column<'a, V: Vars>(
    alloc: Global,
    s: &Scope<'a, V>,
    name: &ColName,
) -> Result<&'a Column, EvalFail>
    requires scope { IsScope s.now }
    requires rows { IsOverRows s.now }
    ensures answer { AnswersAs vector_lent
        (known_column name.now (column_named name.now (env_of V.bound s.now).rows)) result }
    ensures rows { IfOk result (λ c. length c.now.vector.cells ≡ s.now.wide.now.rows) }
    ensures filled { IfOk result (λ c. IsFilled name.now) }
    ensures own { IfErr result IsOwn }
{
    match column_named(s.names, s.wide, name.as_str()) {
        Some(column) => Ok(column),
        None => Err(stop(alloc, Code::E03, name.as_str())),
    }
}

fn copied_column<V: Vars, L: Ledger>(
    alloc: Global,
    s: &Scope<'_, V>,
    name: &ColName,
    steps: &mut Steps<L>,
) -> Result<Column, EvalFail>
    requires scope { IsScope s.now }
    requires rows { IsOverRows s.now }
    ensures answer { AnswersAs vector_of
        (known_column name.now (column_named name.now (env_of V.bound s.now).rows)) result }
    ensures rows { IfOk result (λ c. length c.vector.cells ≡ s.now.wide.now.rows) }
    ensures filled { IfOk result (λ c. IsFilled name.now) }
    ensures own { IfErr result IsOwn }
{
    let column = known_column(alloc, s, name)?;
    Ok(column.copy(alloc, steps)?)
}

/// Copies of the columns of these names.
#[tactic(auto, using(crate::proofs::TextFacts::refused, session_model::proofs::InOrder::in_order))]
fn known_columns<V: Vars, L: Ledger>(
    alloc: Global,
    names: &[ColName],
    s: &Scope<'_, V>,
    steps: &mut Steps<L>,
) -> Result<Frame, EvalFail>
    requires scope { IsScope s.now }
    requires rows { IsOverRows s.now }
    ensures answer { AnswersAs (λ f. vectors_of f.columns)
        (known_columns (env_of V.bound s.now) names.now) result }
    ensures rows { IfOk result (λ f. 0 < length names.now → f.rows ≡ s.now.count) }
    ensures count { IfOk result (λ f. length f.columns ≡ length names.now) }
    ensures filled { IfOk result (λ f. All IsFilled names.now) }
    ensures own { IfErr result IsOwn }
{
    let mut frame = Frame::new(alloc);
    for name in names {
        let column = copied_column(alloc, s, name, steps)?;
        frame.push_col(column)?;
    }
    Ok(frame)
}

fn text_table<V: Vars, L: Ledger>(
    alloc: Global,
    names: &[ColName],
    s: &Scope<'_, V>,
    steps: &mut Steps<L>,
) -> Result<Table, EvalFail>
    requires scope { IsScope s.now }
    requires rows { IsOverRows s.now }
    requires some { 0 < length names.now }
    ensures answer { AnswersAs plain
        (then_do (known_columns (env_of V.bound s.now) names.now) (new_table names.now s.now.count))
        result }
    ensures own { IfErr result IsOwn }
{
    let frame = known_columns(alloc, names, s, steps)?;
    new_table(alloc, names, frame)
}

/// The columns of these names, one or more, as a table.
///
/// A name that is no column's is E03 with it, in their order. Then a name that stands twice is E12
/// with it, and a table past a limit E07, E08 or E09. dtq's own rule, docs/LANGUAGE.md, section
/// "Brackets".
pub fn text_columns<V: Vars, L: Ledger>(
    alloc: Global,
    names: &[ColName],
    s: &Scope<'_, V>,
    steps: &mut Steps<L>,
) -> Result<NewTable, EvalFail>
    requires scope { IsScope s.now }
    requires rows { IsOverRows s.now }
    requires some { 0 < length names.now }
    ensures answer { AnswersAs new_seen (text_columns names.now (env_of V.bound s.now)) result }
    ensures own { IfErr result IsOwn }
{
    let table = text_table(alloc, names, s, steps)?;
    Ok(NewTable {
        table,
        warns: Warns::none(),
    })
}
