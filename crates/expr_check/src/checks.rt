ghost use Rattle.std.specs.Prelude.{◌≡◌, ◌<◌, length, map, IfErr};
ghost use Rattle.eval_fail.specs.Answers.{Answers, AnswersAs, IsOwn};
ghost use Rattle.expr_scope.specs.Scope.{env_of, IsScope};
ghost use Rattle.session_model.specs.Expression.{names_in, arg_at, check_tail, check_tails, given};
ghost use Rattle.session_model.specs.Expression.{slot_as, slot_at, slots, all_slots, each_argument};
ghost use Rattle.session_model.specs.Expression.{check_vectors, check_kind, check_named};
ghost use Rattle.session_model.specs.Expression.{check_call};
ghost use Rattle.session_model.specs.Meaning.{meaning, arg_meaning, tail_meaning, check_of};
ghost use Rattle.expr_model.specs.Operators.{sign_type};
ghost use Rattle.func_table.specs.Calls.{arity_of, formals_of, func_of, is_flag, kind_of};
ghost use Rattle.session_model.specs.Binding.{places, place_of};
ghost use Rattle.vector_model.specs.Then.{then_do};
ghost use Rattle.dt_model.specs.Combine.{common_of};

use crate::kinds::{description_type, func_type};
use arg_bind::{bind, next, place};
use dt_base::{Code, ColType, UnOp};
use dt_tree::{Arg, Expr, Tail};
use eval_fail::{EvalFail, stop, stop_unbuilt};
use expr_operate::{sign_type, tail_type};
use expr_scope::{Scope, Vars, add, flag_given, later_call, name_kind, table_given};
use func_table::{
    Arity, Formal, Func, Kind, Slot, arity_of, formals, func_named, func_word, is_flag, kind_of,
};
use na_ops::common;
use std::alloc::Global;

/// The type of an expression in its surroundings, or its first fault. It looks at no cell.
///
/// Faults come left to right, and what stands inside an expression comes before the expression. A
/// name is E03 in a bracket and E02 outside where it is unknown, and E04 where it is a table's;
/// types that an operator or a function does not take are E04 with it; an unknown function is E02;
/// arguments are E19. dtq's own rule, docs/LANGUAGE.md, section "Expressions".
#[cycle(check)]
pub fn check<V: Vars>(alloc: Global, e: &Expr, s: &Scope<'_, V>) -> Result<ColType, EvalFail>
    requires { IsScope s.now }
    ensures answer { Answers (check_of e.now (env_of V.bound s.now)) result }
    ensures own { IfErr result IsOwn }
{
    match e {
        Expr::Lit { cell: _, kind } => Ok(*kind),
        Expr::Null => Err(stop(alloc, Code::E04, "NULL")),
        Expr::Infinite => Err(stop(alloc, Code::E04, "Inf")),
        Expr::Name { name } => name_kind(alloc, s, name.as_str()),
        Expr::Paren { inner } => check(alloc, inner.get(), s),
        Expr::Minus { arg } => check_sign(alloc, UnOp::Neg, arg.get(), s),
        Expr::Not { arg } => check_sign(alloc, UnOp::Not, arg.get(), s),
        Expr::Chain { first, rest } => {
            check_tails(alloc, check(alloc, first.get(), s)?, rest.as_slice(), s)
        }
        Expr::Call { name, args } => check_call(alloc, name.as_str(), args.as_slice(), s),
        Expr::Query {
            head: _,
            brackets: _,
        } => Err(stop(alloc, Code::E04, "[")),
        Expr::Formula { left: _, right: _ } => Err(stop(alloc, Code::E04, "~")),
    }
}

#[cycle(check)]
fn check_sign<V: Vars>(
    alloc: Global,
    op: UnOp,
    e: &Expr,
    s: &Scope<'_, V>,
) -> Result<ColType, EvalFail>
    requires { IsScope s.now }
    ensures answer { Answers (then_do (check_of e.now (env_of V.bound s.now)) (sign_type op))
        result }
    ensures own { IfErr result IsOwn }
{
    let kind = check(alloc, e, s)?;
    sign_type(alloc, op, kind)
}

#[cycle(check)]
fn check_tails<V: Vars>(
    alloc: Global,
    first: ColType,
    rest: &[Tail],
    s: &Scope<'_, V>,
) -> Result<ColType, EvalFail>
    requires { IsScope s.now }
    ensures answer { Answers (check_tails (env_of V.bound s.now) first (map tail_meaning rest.now))
        result }
    ensures own { IfErr result IsOwn }
{
    let mut kind = first;
    for t in rest {
        kind = check_tail(alloc, kind, t, s)?;
    }
    Ok(kind)
}

#[cycle(check)]
fn check_tail<V: Vars>(
    alloc: Global,
    left: ColType,
    t: &Tail,
    s: &Scope<'_, V>,
) -> Result<ColType, EvalFail>
    requires { IsScope s.now }
    ensures answer { Answers (check_tail (env_of V.bound s.now) left (tail_meaning t.now)) result }
    ensures own { IfErr result IsOwn }
{
    let right = check(alloc, &t.arg, s)?;
    tail_type(alloc, t.op, left, right)
}

#[cycle(check)]
fn check_call<V: Vars>(
    alloc: Global,
    name: &str,
    args: &[Arg],
    s: &Scope<'_, V>,
) -> Result<ColType, EvalFail>
    requires { IsScope s.now }
    ensures answer { Answers (check_call (env_of V.bound s.now) name.now (map arg_meaning args.now))
        result }
    ensures own { IfErr result IsOwn }
{
    match func_named(name) {
        None => Err(later_call(alloc, name)),
        Some(f) => check_kind(alloc, f, args, s),
    }
}

/// The call of a function: a table function is E04 and a command E19, at once; so is E04 what tells
/// of a table's orders, or gives rows in an order.
#[cycle(check)]
fn check_kind<V: Vars>(
    alloc: Global,
    f: Func,
    args: &[Arg],
    s: &Scope<'_, V>,
) -> Result<ColType, EvalFail>
    requires { IsScope s.now }
    ensures answer { Answers
        (check_kind (kind_of f) (env_of V.bound s.now) f (map arg_meaning args.now)) result }
    ensures own { IfErr result IsOwn }
{
    match kind_of(f) {
        Kind::Table | Kind::Report | Kind::Rows => Err(stop(alloc, Code::E04, func_word(f))),
        Kind::Command => Err(stop(alloc, Code::E19, func_word(f))),
        Kind::Vector => check_bound(alloc, f, args, s),
        Kind::Description => check_description(alloc, f, args, s),
    }
}

fn check_description<V: Vars>(
    alloc: Global,
    f: Func,
    args: &[Arg],
    s: &Scope<'_, V>,
) -> Result<ColType, EvalFail>
    ensures answer { Answers
        (check_kind Kind.Description (env_of V.bound s.now) f (map arg_meaning args.now)) result }
    ensures own { IfErr result IsOwn }
{
    bind(alloc, f, args)?;
    let _table = table_given(alloc, s, args)?;
    description_type(alloc, f)
}

#[cycle(check)]
fn check_bound<V: Vars>(
    alloc: Global,
    f: Func,
    args: &[Arg],
    s: &Scope<'_, V>,
) -> Result<ColType, EvalFail>
    requires { IsScope s.now }
    ensures answer { Answers
        (check_kind Kind.Vector (env_of V.bound s.now) f (map arg_meaning args.now)) result }
    ensures own { IfErr result IsOwn }
{
    bind(alloc, f, args)?;
    match arity_of(f) {
        Arity::Unnamed => check_each(alloc, args, s),
        Arity::Fixed => check_fixed(alloc, f, args, s),
        Arity::Columns | Arity::More | Arity::Named => Err(stop_unbuilt(alloc)),
    }
}

/// The type that is common to all arguments.
#[cycle(check)]
fn check_each<V: Vars>(alloc: Global, args: &[Arg], s: &Scope<'_, V>) -> Result<ColType, EvalFail>
    requires { IsScope s.now }
    ensures answer { Answers
        (then_do (each_argument (λ m. m.check (env_of V.bound s.now)) (map arg_meaning args.now))
        (λ kinds. Ok (common_of kinds))) result }
    ensures own { IfErr result IsOwn }
{
    let kinds = kinds_of_each(alloc, args, s)?;
    Ok(common_kind(kinds.as_slice()))
}

fn common_kind(kinds: &[ColType]) -> ColType
    ensures { result ≡ common_of kinds.now }
{
    let mut all = ColType::Lgl;
    for kind in kinds {
        all = common(all, *kind);
    }
    all
}

/// The types of all arguments in order, or the first fault.
#[cycle(check)]
#[tactic(auto, using(session_model::proofs::InOrder::in_order))]
pub fn kinds_of_each<V: Vars>(
    alloc: Global,
    args: &[Arg],
    s: &Scope<'_, V>,
) -> Result<Vec<ColType>, EvalFail>
    requires { IsScope s.now }
    ensures answer { AnswersAs (λ v. v.items)
        (each_argument (λ m. m.check (env_of V.bound s.now)) (map arg_meaning args.now)) result }
    ensures own { IfErr result IsOwn }
{
    let mut done = Vec::new(alloc);
    for a in args {
        let kind = check(alloc, &a.value, s)?;
        add(&mut done, kind)?;
    }
    Ok(done)
}

#[cycle(check)]
fn check_fixed<V: Vars>(
    alloc: Global,
    f: Func,
    args: &[Arg],
    s: &Scope<'_, V>,
) -> Result<ColType, EvalFail>
    requires { IsScope s.now }
    ensures answer { Answers
        (check_vectors Arity.Fixed (env_of V.bound s.now) f (map arg_meaning args.now)) result }
    ensures own { IfErr result IsOwn }
{
    let given = check_formals(alloc, formals(f), args, s)?;
    func_type(alloc, f, given.as_slice())
}

#[cycle(check)]
#[tactic(auto, using(session_model::proofs::InOrder::in_order))]
fn check_formals<V: Vars>(
    alloc: Global,
    ps: &[Formal],
    args: &[Arg],
    s: &Scope<'_, V>,
) -> Result<Vec<Slot<ColType>>, EvalFail>
    requires scope { IsScope s.now }
    requires few { length ps.now < 1000 }
    ensures answer { AnswersAs (λ v. v.items)
        (slots (λ m. m.check (env_of V.bound s.now)) (map arg_meaning args.now)
        (places (names_in (map arg_meaning args.now)) 0 ps.now)) result }
    ensures own { IfErr result IsOwn }
{
    let mut done = Vec::new(alloc);
    let mut before = 0;
    for p in ps {
        let slot = check_formal(alloc, *p, before, args, s)?;
        add(&mut done, slot)?;
        before = next(args, before, *p);
    }
    Ok(done)
}

#[cycle(check)]
fn check_formal<V: Vars>(
    alloc: Global,
    p: Formal,
    before: usize,
    args: &[Arg],
    s: &Scope<'_, V>,
) -> Result<Slot<ColType>, EvalFail>
    requires { IsScope s.now }
    ensures answer { Answers
        (slot_at (λ m. m.check (env_of V.bound s.now)) p
        (arg_at (map arg_meaning args.now)
        (place_of (names_in (map arg_meaning args.now)) before p))) result }
    ensures own { IfErr result IsOwn }
{
    match place(args, before, p) {
        None => Ok(Slot::Absent),
        Some(i) => match args.get(i) {
            None => Ok(Slot::Absent),
            Some(a) => check_as(alloc, p, a, s),
        },
    }
}

#[cycle(check)]
fn check_as<V: Vars>(
    alloc: Global,
    p: Formal,
    a: &Arg,
    s: &Scope<'_, V>,
) -> Result<Slot<ColType>, EvalFail>
    requires { IsScope s.now }
    ensures answer { Answers
        (slot_as (λ m. m.check (env_of V.bound s.now)) p (is_flag p) (arg_meaning a.now).means)
        result }
    ensures own { IfErr result IsOwn }
{
    if is_flag(p) {
        flag_given(alloc, p, &a.value)
    } else {
        check_given(alloc, a, s)
    }
}

#[cycle(check)]
fn check_given<V: Vars>(alloc: Global, a: &Arg, s: &Scope<'_, V>) -> Result<Slot<ColType>, EvalFail>
    requires { IsScope s.now }
    ensures answer { Answers (given ((arg_meaning a.now).means.check (env_of V.bound s.now)))
        result }
    ensures own { IfErr result IsOwn }
{
    Ok(Slot::Given(check(alloc, &a.value, s)?))
}
