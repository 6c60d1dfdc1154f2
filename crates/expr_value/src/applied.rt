ghost use Rattle.std.specs.Prelude.{◌≡◌, ◌+◌, ◌≤◌, map, IfErr};
ghost use Rattle.eval_fail.specs.Answers.{AnswersAs, IsOwn};
ghost use Rattle.expr_scope.specs.Slots.{slot_of};
ghost use Rattle.expr_model.specs.Functions.{one_value, flagged_value, three_value, value_of};
ghost use Rattle.expr_model.specs.Functions.{value_of_one, value_of_two, value_of_three};
ghost use Rattle.session_model.specs.Expression.{slot_vector, slot_warns, all_warns, warns_in};
ghost use Rattle.session_model.specs.Expression.{applied, combined};
ghost use Rattle.dt_model.specs.Combine.{total_length};
ghost use Rattle.valued.specs.Valued.{valued_of, vector_in};

use crate::operations::{choice_value, conversion, na_test};
use dt_base::{ColType, Steps, Warns};
use eval_fail::{EvalFail, stop_unbuilt};
use expr_scope::Operand;
use func_table::{Func, Slot};
use na_vector::Column;
use std::alloc::Global;
use std::sync::ledger::Ledger;
use valued::Valued;
use vec_funcs::{all, any, combine, first, last, length, max, min, sum};

/// What a function of one vector gives.
fn one_value<L: Ledger>(
    alloc: Global,
    f: Func,
    x: &Column,
    steps: &mut Steps<L>,
) -> Result<Valued, EvalFail>
    ensures answer { AnswersAs valued_of (one_value f x.now.vector) result }
    ensures own { IfErr result IsOwn }
{
    match f {
        Func::IsNa => na_test(alloc, x, steps),
        Func::AsLogical => conversion(alloc, ColType::Lgl, x, steps),
        Func::AsInteger => conversion(alloc, ColType::Int, x, steps),
        Func::AsCharacter => conversion(alloc, ColType::Chr, x, steps),
        Func::Any => any(alloc, x, steps),
        Func::All => all(alloc, x, steps),
        Func::First => first(alloc, x, steps),
        Func::Last => last(alloc, x, steps),
        Func::Length => length(alloc, x),
        _ => Err(stop_unbuilt(alloc)),
    }
}

/// What a function of a vector and the flag `na.rm` gives.
fn flagged_value<L: Ledger>(
    alloc: Global,
    f: Func,
    na_rm: bool,
    x: &Column,
    steps: &mut Steps<L>,
) -> Result<Valued, EvalFail>
    ensures answer { AnswersAs valued_of (flagged_value f na_rm x.now.vector) result }
    ensures own { IfErr result IsOwn }
{
    match f {
        Func::Sum => sum(alloc, x, na_rm, steps),
        Func::Min => min(alloc, x, na_rm, steps),
        Func::Max => max(alloc, x, na_rm, steps),
        _ => Err(stop_unbuilt(alloc)),
    }
}

/// What a function of a test and two vectors gives.
fn three_value<L: Ledger>(
    alloc: Global,
    f: Func,
    test: &Column,
    a: &Column,
    b: &Column,
    steps: &mut Steps<L>,
) -> Result<Valued, EvalFail>
    ensures answer { AnswersAs valued_of (three_value f test.now.vector a.now.vector b.now.vector)
        result }
    ensures own { IfErr result IsOwn }
{
    match f {
        Func::Fifelse => choice_value(alloc, test, a, b, steps),
        _ => Err(stop_unbuilt(alloc)),
    }
}

fn value_of_one<L: Ledger>(
    alloc: Global,
    f: Func,
    x: &Slot<Operand<'_>>,
    steps: &mut Steps<L>,
) -> Result<Valued, EvalFail>
    ensures answer { AnswersAs valued_of (value_of_one f (slot_vector (slot_of x.now))) result }
    ensures own { IfErr result IsOwn }
{
    match x {
        Slot::Given(x) => one_value(alloc, f, x.column(), steps),
        Slot::Flag(_) | Slot::Absent => Err(stop_unbuilt(alloc)),
    }
}

/// Where the flag `na.rm` is left out it is FALSE.
fn value_of_two<L: Ledger>(
    alloc: Global,
    f: Func,
    x: &Slot<Operand<'_>>,
    flag: &Slot<Operand<'_>>,
    steps: &mut Steps<L>,
) -> Result<Valued, EvalFail>
    ensures answer { AnswersAs valued_of
        (value_of_two f (slot_vector (slot_of x.now)) (slot_vector (slot_of flag.now))) result }
    ensures own { IfErr result IsOwn }
{
    match (x, flag) {
        (Slot::Given(x), Slot::Absent) => flagged_value(alloc, f, false, x.column(), steps),
        (Slot::Given(x), Slot::Flag(b)) => flagged_value(alloc, f, *b, x.column(), steps),
        _ => Err(stop_unbuilt(alloc)),
    }
}

fn value_of_three<L: Ledger>(
    alloc: Global,
    f: Func,
    test: &Slot<Operand<'_>>,
    a: &Slot<Operand<'_>>,
    b: &Slot<Operand<'_>>,
    steps: &mut Steps<L>,
) -> Result<Valued, EvalFail>
    ensures answer { AnswersAs valued_of
        (value_of_three f (slot_vector (slot_of test.now)) (slot_vector (slot_of a.now))
        (slot_vector (slot_of b.now))) result }
    ensures own { IfErr result IsOwn }
{
    match (test, a, b) {
        (Slot::Given(test), Slot::Given(a), Slot::Given(b)) => {
            three_value(alloc, f, test.column(), a.column(), b.column(), steps)
        }
        _ => Err(stop_unbuilt(alloc)),
    }
}

/// What a function gives for its arguments, without their warnings.
#[tactic(auto, unfolding(expr_model::specs::Functions::value_of))]
fn func_value<L: Ledger>(
    alloc: Global,
    f: Func,
    given: &[Slot<Operand<'_>>],
    steps: &mut Steps<L>,
) -> Result<Valued, EvalFail>
    ensures answer { AnswersAs valued_of (value_of f (map slot_vector (map slot_of given.now)))
        result }
    ensures own { IfErr result IsOwn }
{
    match given {
        [] => Err(stop_unbuilt(alloc)),
        [x] => value_of_one(alloc, f, x, steps),
        [x, y] => value_of_two(alloc, f, x, y, steps),
        [x, y, z] => value_of_three(alloc, f, x, y, z, steps),
        [_, _, _, _, ..] => Err(stop_unbuilt(alloc)),
    }
}

fn warns_of(slot: &Slot<Operand<'_>>) -> Warns
    ensures { result ≡ slot_warns (slot_of slot.now) }
{
    match slot {
        Slot::Given(v) => v.warns(),
        Slot::Flag(_) | Slot::Absent => Warns::none(),
    }
}

/// The warnings of all slots.
#[tactic(auto, using(session_model::proofs::InOrder::warnings))]
fn warns_of_slots(given: &[Slot<Operand<'_>>]) -> Warns
    ensures { result ≡ all_warns (map slot_warns (map slot_of given.now)) }
{
    let mut all = Warns::none();
    for slot in given {
        all = all.both(warns_of(slot));
    }
    all
}

/// What a function gives for its arguments, with their warnings.
pub fn applied<L: Ledger>(
    alloc: Global,
    f: Func,
    given: &[Slot<Operand<'_>>],
    steps: &mut Steps<L>,
) -> Result<Valued, EvalFail>
    ensures answer { AnswersAs valued_of (applied f (map slot_of given.now)) result }
    ensures own { IfErr result IsOwn }
{
    let value = func_value(alloc, f, given, steps)?;
    Ok(Valued {
        column: value.column,
        warns: warns_of_slots(given).both(value.warns),
    })
}

/// The warnings of all values.
#[tactic(auto, using(session_model::proofs::InOrder::warnings))]
pub fn warns_of_values(values: &[Valued]) -> Warns
    ensures { result ≡ all_warns (map warns_in (map valued_of values.now)) }
{
    let mut all = Warns::none();
    for v in values {
        all = all.both(v.warns);
    }
    all
}

/// `c` of values, with their warnings.
#[tactic(auto, using(crate::proofs::Vectors::same_vectors))]
pub fn combined<L: Ledger>(
    alloc: Global,
    values: &[Valued],
    steps: &mut Steps<L>,
) -> Result<Valued, EvalFail>
    ensures answer { AnswersAs valued_of (combined (map valued_of values.now)) result }
    ensures own { IfErr result IsOwn }
    ensures touches { steps.new ≤ steps.old + total_length (map vector_in values.now) }
{
    let column = combine(alloc, values, steps)?;
    Ok(Valued {
        column,
        warns: warns_of_values(values),
    })
}
