ghost use Rattle.std.specs.Prelude.{◌≡◌, ◌<◌, ◌≤◌, ◌+◌, ◌⊎◌, ◌++◌, ◌∷◌, [], IfOk, IfErr, OnOk, All};
ghost use Rattle.std.specs.Prelude.{length, map};
ghost use Rattle.eval_fail.specs.Answers.{AnswersAs, IsOwn};
ghost use Rattle.dt_base.specs.declared.limits.TheConstants.{MAX_ROWS};
ghost use Rattle.bracket_columns.specs.Answers.{new_seen};
ghost use Rattle.dt_table.specs.Plain.{plain};
ghost use Rattle.dt_table.specs.Table.{IsFilled};
ghost use Rattle.expr_scope.specs.Scope.{env_of, IsScope};
ghost use Rattle.row_model.specs.Lengths.{repeated};
ghost use Rattle.na_vector.specs.Frame.{rows_with, vectors_of};
ghost use Rattle.session_model.specs.Columns.{arguments_answer, columns_answer, list_answer};
ghost use Rattle.session_model.specs.Columns.{list_table, values_answer};
ghost use Rattle.session_model.specs.Expression.{checked_value, each_argument, vector_in};
ghost use Rattle.session_model.specs.Meaning.{arg_meaning};
ghost use Rattle.valued.specs.Valued.{valued_of};

use crate::answer::NewTable;
use crate::names::item_names;
use crate::tables::new_table;
use bracket_rows::checked_value;
use dt_base::{Code, ColName, Steps};
use dt_table::Table;
use dt_tree::Arg;
use eval_fail::{EvalFail, stop};
use expr_eval::{Scope, Vars, kinds_of_each, values_of_each, warns_of_values};
use na_vector::{Column, Frame};
use row_choice::{common_length, repeated};
use std::alloc::{AllocError, Global};
use std::sync::ledger::Ledger;
use valued::Valued;

/// Puts one more at the end.
pub fn add<T: Drop>(list: &mut Vec<T>, x: T) -> Result<(), AllocError>
    ensures { OnOk result (list.new.items ≡ list.old.items ++ x ∷ []) }
{
    list.push(x)?;
    Ok(())
}

/// Puts a column, brought to n cells, behind the others.
fn push_repeated<L: Ledger>(
    alloc: Global,
    frame: &mut Frame,
    column: Column,
    n: usize,
    steps: &mut Steps<L>,
) -> Result<(), AllocError>
    requires fits { (length column.vector.cells ≡ 1) ⊎ (length column.vector.cells ≡ n) }
    requires short { n ≤ MAX_ROWS }
    requires rows { 0 < length frame.old.columns → frame.old.rows ≡ n }
    ensures vectors { OnOk result
        (vectors_of frame.new.columns ≡ vectors_of frame.old.columns ++ repeated n column.vector
        ∷ []) }
    ensures rows { OnOk result (frame.new.rows ≡ n) }
    ensures count { OnOk result (length frame.new.columns ≡ length frame.old.columns + 1) }
{
    let whole = repeated(alloc, column, n, steps)?;
    frame.push_col(whole)
}

/// The columns of the values, each brought to n cells.
fn repeated_columns<L: Ledger>(
    alloc: Global,
    values: Vec<Valued>,
    n: usize,
    steps: &mut Steps<L>,
) -> Result<Frame, AllocError>
    requires fitting { All
        (λ v. (length v.column.vector.cells ≡ 1) ⊎ (length v.column.vector.cells ≡ n))
        values.items }
    requires short { n ≤ MAX_ROWS }
    ensures vectors { IfOk result
        (λ f. vectors_of f.columns ≡ map (λ v. repeated n v.column.vector) values.items) }
    ensures rows { IfOk result (λ f. f.rows ≡ rows_with (length values.items) n) }
    ensures count { IfOk result (λ f. length f.columns ≡ length values.items) }
{
    let mut frame = Frame::new(alloc);
    for value in values {
        push_repeated(alloc, &mut frame, value.column, n, steps)?;
    }
    Ok(frame)
}

/// The table of the values, each brought to the length of the longest.
#[tactic(auto, using(expr_value::proofs::Vectors::same_vectors))]
fn list_table<L: Ledger>(
    alloc: Global,
    names: &[ColName],
    values: Vec<Valued>,
    steps: &mut Steps<L>,
) -> Result<Table, EvalFail>
    requires count { length names.now ≡ length values.items }
    requires filled { All IsFilled names.now }
    ensures answer { AnswersAs plain
        (list_table names.now (map vector_in (map valued_of values.items))) result }
    ensures own { IfErr result IsOwn }
{
    let n = common_length(alloc, &values)?;
    let frame = repeated_columns(alloc, values, n, steps)?;
    new_table(alloc, names, frame)
}

/// The table of the values, with their warnings.
fn values_answer<L: Ledger>(
    alloc: Global,
    names: &[ColName],
    values: Vec<Valued>,
    steps: &mut Steps<L>,
) -> Result<NewTable, EvalFail>
    requires count { length names.now ≡ length values.items }
    requires filled { All IsFilled names.now }
    ensures answer { AnswersAs new_seen (values_answer names.now (map valued_of values.items))
        result }
    ensures own { IfErr result IsOwn }
{
    let warns = warns_of_values(&values);
    let table = list_table(alloc, names, values, steps)?;
    Ok(NewTable { table, warns })
}

/// The table that a list of expressions gives as the j of a bracket: the items of `.( )`.
///
/// All types are looked at before any value. A value has length 1 or that of the longest, else it
/// is E05. Then a name that stands twice is E12 with it, and a table past a limit E07, E08 or E09.
/// Each value is made once and becomes the column. The manual's page data.table; the order is dtq's
/// own, docs/LANGUAGE.md, section "Brackets".
pub fn columns<V: Vars, L: Ledger>(
    alloc: Global,
    args: &[Arg],
    s: &Scope<'_, V>,
    steps: &mut Steps<L>,
) -> Result<NewTable, EvalFail>
    requires { IsScope s.now }
    ensures answer { AnswersAs new_seen
        (columns_answer (map arg_meaning args.now) (env_of V.bound s.now)) result }
    ensures own { IfErr result IsOwn }
{
    kinds_of_each(alloc, args, s)?;
    let values = values_of_each(alloc, args, s, steps)?;
    let names = item_names(alloc, s, args)?;
    values_answer(alloc, &names, values, steps)
}

/// The value of an argument, whose type is looked at first.
fn argument_value<V: Vars, L: Ledger>(
    alloc: Global,
    a: &Arg,
    s: &Scope<'_, V>,
    steps: &mut Steps<L>,
) -> Result<Valued, EvalFail>
    requires { IsScope s.now }
    ensures answer { AnswersAs valued_of
        (checked_value (arg_meaning a.now).means (env_of V.bound s.now)) result }
    ensures own { IfErr result IsOwn }
{
    checked_value(alloc, &a.value, s, steps)
}

/// The values of expressions, each checked and valued before the next one is looked at.
fn values_in_turn<V: Vars, L: Ledger>(
    alloc: Global,
    args: &[Arg],
    s: &Scope<'_, V>,
    steps: &mut Steps<L>,
) -> Result<Vec<Valued>, EvalFail>
    requires { IsScope s.now }
    ensures answer { AnswersAs (λ v. map valued_of v.items)
        (each_argument (λ m. checked_value m (env_of V.bound s.now)) (map arg_meaning args.now))
        result }
    ensures count { IfOk result (λ v. length v.items ≡ length args.now) }
    ensures own { IfErr result IsOwn }
{
    let mut values = Vec::new(alloc);
    for a in args {
        let value = argument_value(alloc, a, s, steps)?;
        add(&mut values, value)?;
    }
    Ok(values)
}

/// The table that the arguments of `data.table` give, each an expression over the script's names.
///
/// The type and the value of one argument come before the next argument is looked at. Lengths,
/// names and limits are those of `columns`. The manual's page data.table; the order is dtq's own,
/// docs/LANGUAGE.md, section "Tables".
pub fn arguments<V: Vars, L: Ledger>(
    alloc: Global,
    args: &[Arg],
    s: &Scope<'_, V>,
    steps: &mut Steps<L>,
) -> Result<NewTable, EvalFail>
    requires { IsScope s.now }
    ensures answer { AnswersAs new_seen
        (arguments_answer (map arg_meaning args.now) (env_of V.bound s.now)) result }
    ensures own { IfErr result IsOwn }
{
    let values = values_in_turn(alloc, args, s, steps)?;
    let names = item_names(alloc, s, args)?;
    values_answer(alloc, &names, values, steps)
}

/// The table of one item or more. Without an item it is E19 with the list's word.
#[tactic(auto, using(crate::proofs::Values::lists))]
pub fn list_answer<V: Vars, L: Ledger>(
    alloc: Global,
    word: &str,
    args: &[Arg],
    s: &Scope<'_, V>,
    steps: &mut Steps<L>,
) -> Result<NewTable, EvalFail>
    requires { IsScope s.now }
    ensures answer { AnswersAs new_seen
        (list_answer word.now (map arg_meaning args.now) (env_of V.bound s.now)) result }
    ensures own { IfErr result IsOwn }
{
    if args.is_empty() {
        return Err(stop(alloc, Code::E19, word));
    }
    columns(alloc, args, s, steps)
}
