ghost use Rattle.std.specs.Prelude.{◌≡◌, ◌++◌, ◌∷◌, [], All, None, Some, IfOk, IfErr, OnOk};
ghost use Rattle.std.specs.Prelude.{length, map, option_map};
ghost use Rattle.assign_model.specs.Targets.{names_of};
ghost use Rattle.assign_ref.specs.Seen.{target_seen, targets_seen};
ghost use Rattle.assign_sides.specs.Seen.{value_seen, values_seen};
ghost use Rattle.dt_table.specs.Table.{IsFilled};
ghost use Rattle.eval_fail.specs.Answers.{Answers, AnswersAs, IsOwn};
ghost use Rattle.session_model.specs.Assigned.{each_target, item_vector, named_targets, paired};
ghost use Rattle.session_model.specs.Assigned.{target, targets_of};

use crate::names::check_filled;
use crate::values::Values;
use assign_ref::Target;
use dt_base::{ColName, Steps};
use eval_fail::{EvalFail, stop_length};
use na_vector::Column;
use std::alloc::{AllocError, Global};
use std::sync::ledger::Ledger;
use valued::Valued;

/// An empty name, which is none of a column, is E19 with `j`.
pub fn named_targets(alloc: Global, names: &[ColName]) -> Result<(), EvalFail>
    ensures answer { Answers (named_targets names.now) result }
    ensures filled { OnOk result (All IsFilled names.now) }
    ensures own { IfErr result IsOwn }
{
    check_filled(alloc, names, "j")
}

/// One more target.
fn add(targets: &mut Vec<Target>, name: ColName, value: Option<Column>) -> Result<(), AllocError>
    ensures { OnOk result (targets_seen targets.new.items
        ≡ targets_seen targets.old.items ++ target_seen
        (record { name = name; value = value }) ∷ []) }
{
    targets.push(Target { name, value })?;
    Ok(())
}

/// A target for each name, each with a copy of the column.
fn copies<L: Ledger>(
    alloc: Global,
    names: &[ColName],
    column: &Column,
    steps: &mut Steps<L>,
) -> Result<Vec<Target>, AllocError>
    ensures { IfOk result (λ v. targets_seen v.items
        ≡ map (λ name. target name (Some column.now.vector)) names.now) }
{
    let mut targets = Vec::new(alloc);
    for name in names {
        let copy = column.copy(alloc, steps)?;
        add(&mut targets, name.copy()?, Some(copy))?;
    }
    Ok(targets)
}

/// A target for each name, all with this column; the last gets the column itself.
fn for_all<L: Ledger>(
    alloc: Global,
    names: &[ColName],
    column: Column,
    steps: &mut Steps<L>,
) -> Result<Vec<Target>, AllocError>
    ensures { IfOk result (λ v. targets_seen v.items
        ≡ map (λ name. target name (Some column.vector)) names.now) }
{
    let Some((last, others)) = names.split_last() else {
        return Ok(Vec::new(alloc));
    };
    let mut targets = copies(alloc, others, &column, steps)?;
    add(&mut targets, last.copy()?, Some(column))?;
    Ok(targets)
}

/// The column of a value, if there is one.
fn item_column(value: Option<Valued>) -> Option<Column>
    ensures { option_map (λ c. c.vector) result ≡ item_vector (value_seen value) }
{
    match value {
        None => None,
        Some(value) => Some(value.column),
    }
}

/// The value, which is taken from its place.
fn taken(value: &mut Option<Valued>) -> Option<Valued>
    ensures { result ≡ value.old }
{
    value.take()
}

/// A target for each name, with the value that stands at its place, which is taken.
fn pairs(
    alloc: Global,
    names: &[ColName],
    values: &mut [Option<Valued>],
) -> Result<Vec<Target>, AllocError>
    requires { length values.old ≡ length names.now }
    ensures { IfOk result
        (λ v. targets_seen v.items ≡ paired names.now (map value_seen values.old)) }
{
    let mut targets = Vec::new(alloc);
    for k in 0..values.len() {
        let name = names[k].copy()?;
        let value = taken(&mut values[k]);
        add(&mut targets, name, item_column(value))?;
    }
    Ok(targets)
}

/// As many values as names, or E05 with both numbers.
fn each_target(
    alloc: Global,
    names: &[ColName],
    values: Vec<Option<Valued>>,
) -> Result<Vec<Target>, EvalFail>
    ensures answer { AnswersAs (λ v. targets_seen v.items)
        (each_target names.now (map value_seen values.items)) result }
    ensures own { IfErr result IsOwn }
{
    if values.len() != names.len() {
        let fail = stop_length(alloc, values.len(), names.len());
        return Err(fail);
    }
    let mut values = values;
    Ok(pairs(alloc, names, &mut values)?)
}

/// A target that deletes for each name.
fn deletions(alloc: Global, names: &[ColName]) -> Result<Vec<Target>, AllocError>
    ensures { IfOk result (λ v. targets_seen v.items ≡ map (λ name. target name None) names.now) }
{
    let mut targets = Vec::new(alloc);
    for name in names {
        add(&mut targets, name.copy()?, None)?;
    }
    Ok(targets)
}

/// The targets that names and values are together.
pub fn targets_of<L: Ledger>(
    alloc: Global,
    names: &[ColName],
    values: Values,
    steps: &mut Steps<L>,
) -> Result<Vec<Target>, EvalFail>
    ensures answer { AnswersAs (λ v. targets_seen v.items)
        (targets_of names.now (values_seen values)) result }
    ensures names { IfOk result (λ v. names_of (targets_seen v.items) ≡ names.now) }
    ensures own { IfErr result IsOwn }
{
    match values {
        Values::OneForAll(value) => Ok(for_all(alloc, names, value.column, steps)?),
        Values::OneForEach(values) => each_target(alloc, names, values),
        Values::NoValue => Ok(deletions(alloc, names)?),
    }
}
