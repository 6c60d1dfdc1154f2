ghost use Rattle.std.specs.Prelude.{◌≡◌, IfErr};
ghost use Rattle.eval_fail.specs.Answers.{Answers, IsOwn};
ghost use Rattle.expr_model.specs.Functions.{type_of, type_of_one, type_of_two, type_of_three};
ghost use Rattle.expr_model.specs.Functions.{one_type, flagged_type, three_type, choice_type};
ghost use Rattle.expr_model.specs.Functions.{description_type};
ghost use Rattle.vector_model.specs.Functions.{sum_type, any_type, all_type, extreme_type};

use dt_base::{Code, ColType};
use eval_fail::{EvalFail, stop, stop_unbuilt};
use func_table::{Func, Slot};
use na_ops::common;
use std::alloc::Global;

/// The type of `fifelse`. Its test is logical, else E04 with `fifelse`.
fn choice_type(alloc: Global, test: ColType, a: ColType, b: ColType) -> Result<ColType, EvalFail>
    ensures answer { Answers (choice_type test a b) result }
    ensures own { IfErr result IsOwn }
{
    match test {
        ColType::Lgl => Ok(common(a, b)),
        ColType::Int | ColType::Chr => Err(stop(alloc, Code::E04, "fifelse")),
    }
}

fn sum_type(alloc: Global, kind: ColType) -> Result<ColType, EvalFail>
    ensures answer { Answers (sum_type kind) result }
    ensures own { IfErr result IsOwn }
{
    match kind {
        ColType::Lgl | ColType::Int => Ok(ColType::Int),
        ColType::Chr => Err(stop(alloc, Code::E04, "sum")),
    }
}

/// The type of `min` and `max`: logicals count as integers.
fn extreme_type(kind: ColType) -> ColType
    ensures { result ≡ extreme_type kind }
{
    match kind {
        ColType::Lgl | ColType::Int => ColType::Int,
        ColType::Chr => ColType::Chr,
    }
}

fn any_type(alloc: Global, kind: ColType) -> Result<ColType, EvalFail>
    ensures answer { Answers (any_type kind) result }
    ensures own { IfErr result IsOwn }
{
    match kind {
        ColType::Lgl => Ok(ColType::Lgl),
        ColType::Int | ColType::Chr => Err(stop(alloc, Code::E04, "any")),
    }
}

fn all_type(alloc: Global, kind: ColType) -> Result<ColType, EvalFail>
    ensures answer { Answers (all_type kind) result }
    ensures own { IfErr result IsOwn }
{
    match kind {
        ColType::Lgl => Ok(ColType::Lgl),
        ColType::Int | ColType::Chr => Err(stop(alloc, Code::E04, "all")),
    }
}

/// The type of a function of one vector.
fn one_type(alloc: Global, f: Func, kind: ColType) -> Result<ColType, EvalFail>
    ensures answer { Answers (one_type f kind) result }
    ensures own { IfErr result IsOwn }
{
    match f {
        Func::IsNa | Func::AsLogical => Ok(ColType::Lgl),
        Func::AsInteger | Func::Length => Ok(ColType::Int),
        Func::AsCharacter => Ok(ColType::Chr),
        Func::Any => any_type(alloc, kind),
        Func::All => all_type(alloc, kind),
        Func::First | Func::Last => Ok(kind),
        _ => Err(stop_unbuilt(alloc)),
    }
}

/// The type of a function of a vector and the flag `na.rm`.
fn flagged_type(alloc: Global, f: Func, kind: ColType) -> Result<ColType, EvalFail>
    ensures answer { Answers (flagged_type f kind) result }
    ensures own { IfErr result IsOwn }
{
    match f {
        Func::Sum => sum_type(alloc, kind),
        Func::Min | Func::Max => Ok(extreme_type(kind)),
        _ => Err(stop_unbuilt(alloc)),
    }
}

/// The type of a function of a test and two vectors.
fn three_type(
    alloc: Global,
    f: Func,
    test: ColType,
    a: ColType,
    b: ColType,
) -> Result<ColType, EvalFail>
    ensures answer { Answers (three_type f test a b) result }
    ensures own { IfErr result IsOwn }
{
    match f {
        Func::Fifelse => choice_type(alloc, test, a, b),
        _ => Err(stop_unbuilt(alloc)),
    }
}

fn type_of_one(alloc: Global, f: Func, x: &Slot<ColType>) -> Result<ColType, EvalFail>
    ensures answer { Answers (type_of_one f x.now) result }
    ensures own { IfErr result IsOwn }
{
    match x {
        Slot::Given(kind) => one_type(alloc, f, *kind),
        Slot::Flag(_) | Slot::Absent => Err(stop_unbuilt(alloc)),
    }
}

fn type_of_two(
    alloc: Global,
    f: Func,
    x: &Slot<ColType>,
    flag: &Slot<ColType>,
) -> Result<ColType, EvalFail>
    ensures answer { Answers (type_of_two f x.now flag.now) result }
    ensures own { IfErr result IsOwn }
{
    match (x, flag) {
        (Slot::Given(kind), Slot::Absent) => flagged_type(alloc, f, *kind),
        (Slot::Given(kind), Slot::Flag(_)) => flagged_type(alloc, f, *kind),
        _ => Err(stop_unbuilt(alloc)),
    }
}

fn type_of_three(
    alloc: Global,
    f: Func,
    test: &Slot<ColType>,
    a: &Slot<ColType>,
    b: &Slot<ColType>,
) -> Result<ColType, EvalFail>
    ensures answer { Answers (type_of_three f test.now a.now b.now) result }
    ensures own { IfErr result IsOwn }
{
    match (test, a, b) {
        (Slot::Given(test), Slot::Given(a), Slot::Given(b)) => three_type(alloc, f, *test, *a, *b),
        _ => Err(stop_unbuilt(alloc)),
    }
}

/// The type of what a function gives for arguments of these types, once its arguments are bound.
/// Types that it does not take are E04 with the function.
#[tactic(auto, unfolding(expr_model::specs::Functions::type_of))]
pub fn func_type(alloc: Global, f: Func, given: &[Slot<ColType>]) -> Result<ColType, EvalFail>
    ensures answer { Answers (type_of f given.now) result }
    ensures own { IfErr result IsOwn }
{
    match given {
        [] => Err(stop_unbuilt(alloc)),
        [x] => type_of_one(alloc, f, x),
        [x, y] => type_of_two(alloc, f, x, y),
        [x, y, z] => type_of_three(alloc, f, x, y, z),
        [_, _, _, _, ..] => Err(stop_unbuilt(alloc)),
    }
}

/// The type of what a function tells of a table.
pub fn description_type(alloc: Global, f: Func) -> Result<ColType, EvalFail>
    ensures answer { Answers (description_type f) result }
    ensures own { IfErr result IsOwn }
{
    match f {
        Func::Nrow | Func::Ncol => Ok(ColType::Int),
        Func::Names => Ok(ColType::Chr),
        _ => Err(stop_unbuilt(alloc)),
    }
}
