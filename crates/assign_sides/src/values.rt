ghost use Rattle.std.specs.Prelude.{◌≡◌, ◌++◌, ◌∷◌, [], IfErr, OnOk, map};
ghost use Rattle.assign_sides.specs.Seen.{item_seen, items_seen, side_seen, value_seen};
ghost use Rattle.assign_sides.specs.Seen.{values_seen};
ghost use Rattle.eval_fail.specs.Answers.{Answers, AnswersAs, IsOwn};
ghost use Rattle.expr_scope.specs.Scope.{IsScope, env_of};
ghost use Rattle.session_model.specs.Assigned.{check_item, check_right, right_warns};
ghost use Rattle.session_model.specs.Assigned.{item_warns, value_item, value_right};
ghost use Rattle.session_model.specs.Expression.{all_warns, each};

use crate::side::Side;
use dt_base::{ColType, Steps, Warns};
use dt_tree::Arg;
use eval_fail::EvalFail;
use expr_eval::{Scope, Vars, check, eval};
use std::alloc::{AllocError, Global};
use std::sync::ledger::Ledger;
use valued::Valued;

/// The values of a right side.
#[derive(Drop)]
pub enum Values {
    /// One value that all names get.
    OneForAll(Valued),
    /// For each name in order a value; none deletes.
    OneForEach(Vec<Option<Valued>>),
    /// All names are deleted.
    NoValue,
}

/// The type of an item; the word NULL has none.
#[tactic(auto, using(expr_scope::proofs::Ends::argument_means))]
fn check_item<V: Vars>(
    alloc: Global,
    item: Option<&Arg>,
    s: &Scope<'_, V>,
) -> Result<Option<ColType>, EvalFail>
    requires { IsScope s.now }
    ensures answer { Answers (check_item (env_of V.bound s.now) (item_seen item.entry)) result }
    ensures own { IfErr result IsOwn }
{
    match item {
        None => Ok(None),
        Some(arg) => Ok(Some(check(alloc, &arg.value, s)?)),
    }
}

/// One more type.
fn add_kind(kinds: &mut Vec<Option<ColType>>, kind: Option<ColType>) -> Result<(), AllocError>
    ensures { OnOk result (kinds.new.items ≡ kinds.old.items ++ kind ∷ []) }
{
    kinds.push(kind)?;
    Ok(())
}

/// The types of items, in order.
#[tactic(auto, using(session_model::proofs::InOrder::in_order))]
fn check_items<V: Vars>(
    alloc: Global,
    items: &[Option<&Arg>],
    s: &Scope<'_, V>,
) -> Result<Vec<Option<ColType>>, EvalFail>
    requires { IsScope s.now }
    ensures answer { AnswersAs (λ v. v.items)
        (each (check_item (env_of V.bound s.now)) (items_seen items.now)) result }
    ensures own { IfErr result IsOwn }
{
    let mut kinds = Vec::new(alloc);
    for item in items {
        let kind = check_item(alloc, *item, s)?;
        add_kind(&mut kinds, kind)?;
    }
    Ok(kinds)
}

/// Looks at the types of a right side, from the left: its first fault, or nothing. It touches no
/// cell. docs/LANGUAGE.md, section "Assignment".
pub fn check_right<V: Vars>(
    alloc: Global,
    side: &Side<'_>,
    s: &Scope<'_, V>,
) -> Result<(), EvalFail>
    requires { IsScope s.now }
    ensures answer { Answers (check_right (side_seen side.now) (env_of V.bound s.now)) result }
    ensures own { IfErr result IsOwn }
{
    match side {
        Side::ForAll(e) => {
            check(alloc, e, s)?;
            Ok(())
        }
        Side::ForEach(items) => {
            check_items(alloc, items, s)?;
            Ok(())
        }
        Side::Deletes => Ok(()),
    }
}

/// The value of an item; the word NULL has none.
#[tactic(auto, using(expr_scope::proofs::Ends::argument_means))]
fn value_item<V: Vars, L: Ledger>(
    alloc: Global,
    item: Option<&Arg>,
    s: &Scope<'_, V>,
    steps: &mut Steps<L>,
) -> Result<Option<Valued>, EvalFail>
    requires { IsScope s.now }
    ensures answer { AnswersAs value_seen
        (value_item (env_of V.bound s.now) (item_seen item.entry)) result }
    ensures own { IfErr result IsOwn }
{
    match item {
        None => Ok(None),
        Some(arg) => Ok(Some(eval(alloc, &arg.value, s, steps)?)),
    }
}

/// One more value.
fn add_value(values: &mut Vec<Option<Valued>>, value: Option<Valued>) -> Result<(), AllocError>
    ensures { OnOk result (values.new.items ≡ values.old.items ++ value ∷ []) }
{
    values.push(value)?;
    Ok(())
}

/// The values of items, in order.
#[tactic(auto, using(session_model::proofs::InOrder::in_order))]
fn value_items<V: Vars, L: Ledger>(
    alloc: Global,
    items: &[Option<&Arg>],
    s: &Scope<'_, V>,
    steps: &mut Steps<L>,
) -> Result<Vec<Option<Valued>>, EvalFail>
    requires { IsScope s.now }
    ensures answer { AnswersAs (λ v. map value_seen v.items)
        (each (value_item (env_of V.bound s.now)) (items_seen items.now)) result }
    ensures own { IfErr result IsOwn }
{
    let mut values = Vec::new(alloc);
    for item in items {
        let value = value_item(alloc, *item, s, steps)?;
        add_value(&mut values, value)?;
    }
    Ok(values)
}

/// The values of a right side, from the left, or the first fault. Each is a column of its own.
/// docs/LANGUAGE.md, section "Assignment".
pub fn value_right<V: Vars, L: Ledger>(
    alloc: Global,
    side: &Side<'_>,
    s: &Scope<'_, V>,
    steps: &mut Steps<L>,
) -> Result<Values, EvalFail>
    requires { IsScope s.now }
    ensures answer { AnswersAs values_seen
        (value_right (side_seen side.now) (env_of V.bound s.now)) result }
    ensures own { IfErr result IsOwn }
{
    match side {
        Side::ForAll(e) => Ok(Values::OneForAll(eval(alloc, e, s, steps)?)),
        Side::ForEach(items) => Ok(Values::OneForEach(value_items(alloc, items, s, steps)?)),
        Side::Deletes => Ok(Values::NoValue),
    }
}

/// The warnings of an item's value.
fn item_warns(value: &Option<Valued>) -> Warns
    ensures { result ≡ item_warns (value_seen value.now) }
{
    match value {
        None => Warns::none(),
        Some(value) => value.warns,
    }
}

/// The warnings of all values.
#[tactic(auto, using(session_model::proofs::InOrder::warnings))]
fn items_warns(values: &[Option<Valued>]) -> Warns
    ensures { result ≡ all_warns (map item_warns (map value_seen values.now)) }
{
    let mut all = Warns::none();
    for value in values {
        all = all.both(item_warns(value));
    }
    all
}

/// The warnings that the values of a right side come with.
pub fn right_warns(values: &Values) -> Warns
    ensures { result ≡ right_warns (values_seen values.now) }
{
    match values {
        Values::OneForAll(value) => value.warns,
        Values::OneForEach(values) => items_warns(values),
        Values::NoValue => Warns::none(),
    }
}
