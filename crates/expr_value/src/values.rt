ghost use Rattle.std.specs.Prelude.{◌≡◌, ◌+◌, ◌<◌, ◌≤◌, true, length, map, option_map, All, IfOk};
ghost use Rattle.std.specs.Prelude.{IfErr};
ghost use Rattle.eval_fail.specs.Answers.{AnswersAs, IsOwn};
ghost use Rattle.expr_scope.specs.Scope.{env_of, IsScope};
ghost use Rattle.expr_scope.specs.Slots.{operand_of, slot_of};
ghost use Rattle.expr_value.specs.Touches.{is_integer, is_literal, is_literal_argument};
ghost use Rattle.expr_value.specs.Touches.{are_literals, sign_cells, all_signs};
ghost use Rattle.expr_value.specs.Touches.{joined_cost, call_cost, cost_meant, tail_allowance};
ghost use Rattle.expr_value.specs.Touches.{allowance, Within, Touched, still_touched};
ghost use Rattle.expr_value.specs.Touches.{IsMadeCell, IsOneCell};
ghost use Rattle.session_model.specs.Expression.{names_in, arg_at, flag_slot, value_tail};
ghost use Rattle.session_model.specs.Expression.{value_tails, signed, given, slot_as, slot_at};
ghost use Rattle.session_model.specs.Expression.{slots, each_argument, combined, value_vectors};
ghost use Rattle.session_model.specs.Expression.{value_kind, value_call};
ghost use Rattle.session_model.specs.Meaning.{meaning, arg_meaning, tail_meaning, value_in};
ghost use Rattle.func_table.specs.Calls.{arity_of, func_of, is_flag, kind_of};
ghost use Rattle.session_model.specs.Binding.{places, place_of};
ghost use Rattle.vector_model.specs.Then.{then_do};
ghost use Rattle.valued.specs.Valued.{valued_of};

use crate::applied::{applied, combined};
use crate::operations::{met, signed};
use arg_bind::{bind, next, place};
use dt_base::{Code, Steps, UnOp};
use dt_tree::{Arg, Expr, Tail};
use eval_fail::{EvalFail, stop, stop_unbuilt};
use expr_scope::{
    Operand, Scope, Vars, add, description, flag_given, later_call, literal_value, name_operand,
    owned, table_given,
};
use func_table::{
    Arity, Formal, Func, Kind, Slot, arity_of, formals, func_named, func_word, is_flag, kind_of,
};
use std::alloc::Global;
use std::sync::ledger::Ledger;
use valued::Valued;

/// The value of an expression in its surroundings with its warnings, or its first fault.
///
/// The faults of `check` come where they come there. Beside them lengths that do not go together
/// are E05, a result out of range is E06 with the operator or function, too many cells are E07,
/// and NA at an end of `:` is E19; each where its operator or function is valued, left to right
/// and inner first. The value of a literal, of `c` of k literals or of the name of a vector of k
/// cells touches at most 2k + 2 cells, with k as 1 for a literal; `-` before an integer literal is
/// one too. dtq's own rule, docs/LANGUAGE.md, section "Expressions".
#[tactic(auto, using(crate::proofs::Touched::allowances))]
pub fn eval<V: Vars, L: Ledger>(
    alloc: Global,
    e: &Expr,
    s: &Scope<'_, V>,
    steps: &mut Steps<L>,
) -> Result<Valued, EvalFail>
    requires { IsScope s.now }
    ensures answer { AnswersAs valued_of (value_in e.now (env_of V.bound s.now)) result }
    ensures own { IfErr result IsOwn }
    ensures touches { Within (allowance e.now (env_of V.bound s.now)) steps.old steps.new }
{
    let operand = eval_operand(alloc, e, s, steps)?;
    owned(alloc, operand, steps)
}

/// What an expression gives to be read: the column of a bare name is lent.
#[cycle(eval)]
#[tactic(auto, using(crate::proofs::Touched::costs))]
fn eval_operand<'a, V: Vars, L: Ledger>(
    alloc: Global,
    e: &Expr,
    s: &Scope<'a, V>,
    steps: &mut Steps<L>,
) -> Result<Operand<'a>, EvalFail>
    requires { IsScope s.now }
    ensures answer { AnswersAs operand_of (value_in e.now (env_of V.bound s.now)) result }
    ensures own { IfErr result IsOwn }
    ensures literal { is_literal e.now ≡ true → IfOk result IsMadeCell }
    ensures read { is_literal e.now ≡ true → Touched (sign_cells e.now) steps.old steps.new }
    ensures touches { Within (cost_meant e.now (env_of V.bound s.now)) steps.old
        (steps.new + still_touched result) }
{
    match e {
        Expr::Lit { cell, kind } => Ok(Operand::Own(literal_value(alloc, *kind, cell)?)),
        Expr::Null => Err(stop(alloc, Code::E04, "NULL")),
        Expr::Infinite => Err(stop(alloc, Code::E04, "Inf")),
        Expr::Name { name } => name_operand(alloc, s, name.as_str()),
        Expr::Paren { inner } => eval_operand(alloc, inner.get(), s, steps),
        Expr::Minus { arg } => eval_sign(alloc, UnOp::Neg, arg.get(), s, steps),
        Expr::Not { arg } => eval_sign(alloc, UnOp::Not, arg.get(), s, steps),
        Expr::Chain { first, rest } => {
            eval_tails(
                alloc,
                eval_operand(alloc, first.get(), s, steps)?,
                rest.as_slice(),
                s,
                steps,
            )
        }
        Expr::Call { name, args } => eval_call(alloc, name.as_str(), args.as_slice(), s, steps),
        Expr::Query {
            head: _,
            brackets: _,
        } => Err(stop(alloc, Code::E04, "[")),
        Expr::Formula { left: _, right: _ } => Err(stop(alloc, Code::E04, "~")),
    }
}

/// What `-` or `!` gives for an expression. Before an integer literal it touches one cell.
#[cycle(eval)]
#[tactic(auto, using(crate::proofs::Touched::signs))]
fn eval_sign<'a, V: Vars, L: Ledger>(
    alloc: Global,
    op: UnOp,
    e: &Expr,
    s: &Scope<'a, V>,
    steps: &mut Steps<L>,
) -> Result<Operand<'a>, EvalFail>
    requires { IsScope s.now }
    ensures answer { AnswersAs operand_of
        (then_do (value_in e.now (env_of V.bound s.now)) (signed op)) result }
    ensures own { IfErr result IsOwn }
    ensures literal { is_integer e.now ≡ true → IfOk result IsMadeCell }
    ensures read { is_integer e.now ≡ true → Touched 1 steps.old steps.new }
{
    let value = eval_operand(alloc, e, s, steps)?;
    Ok(Operand::Own(signed(alloc, op, &value, steps)?))
}

#[cycle(eval)]
fn eval_tails<'a, V: Vars, L: Ledger>(
    alloc: Global,
    first: Operand<'a>,
    rest: &[Tail],
    s: &Scope<'a, V>,
    steps: &mut Steps<L>,
) -> Result<Operand<'a>, EvalFail>
    requires { IsScope s.now }
    ensures answer { AnswersAs operand_of
        (value_tails (env_of V.bound s.now) (operand_of first.entry) (map tail_meaning rest.now))
        result }
    ensures own { IfErr result IsOwn }
{
    let mut value = first;
    for t in rest {
        value = eval_tail(alloc, value, t, s, steps)?;
    }
    Ok(value)
}

#[cycle(eval)]
fn eval_tail<'a, V: Vars, L: Ledger>(
    alloc: Global,
    left: Operand<'a>,
    t: &Tail,
    s: &Scope<'a, V>,
    steps: &mut Steps<L>,
) -> Result<Operand<'a>, EvalFail>
    requires { IsScope s.now }
    ensures answer { AnswersAs operand_of
        (value_tail (env_of V.bound s.now) (operand_of left.entry) (tail_meaning t.now)) result }
    ensures own { IfErr result IsOwn }
    ensures touches { Within (tail_allowance (operand_of left.entry) t.now (env_of V.bound s.now))
        steps.old steps.new }
{
    let right = eval_operand(alloc, &t.arg, s, steps)?;
    met(alloc, t.op, left, right, steps)
}

#[cycle(eval)]
#[tactic(auto, using(crate::proofs::Touched::costs))]
fn eval_call<'a, V: Vars, L: Ledger>(
    alloc: Global,
    name: &str,
    args: &[Arg],
    s: &Scope<'a, V>,
    steps: &mut Steps<L>,
) -> Result<Operand<'a>, EvalFail>
    requires { IsScope s.now }
    ensures answer { AnswersAs operand_of
        (value_call (env_of V.bound s.now) name.now (map arg_meaning args.now)) result }
    ensures own { IfErr result IsOwn }
    ensures touches { Within (call_cost (option_map arity_of (func_of name.now)) args.now)
        steps.old (steps.new + still_touched result) }
{
    match func_named(name) {
        None => Err(later_call(alloc, name)),
        Some(f) => Ok(Operand::Own(eval_kind(alloc, f, args, s, steps)?)),
    }
}

/// The call of a function: a table function is E04 and a command E19, at once.
#[cycle(eval)]
#[tactic(auto, using(crate::proofs::Touched::costs))]
fn eval_kind<V: Vars, L: Ledger>(
    alloc: Global,
    f: Func,
    args: &[Arg],
    s: &Scope<'_, V>,
    steps: &mut Steps<L>,
) -> Result<Valued, EvalFail>
    requires { IsScope s.now }
    ensures answer { AnswersAs valued_of
        (value_kind (kind_of f) (env_of V.bound s.now) f (map arg_meaning args.now)) result }
    ensures own { IfErr result IsOwn }
    ensures touches { Within (joined_cost (arity_of f) args.now) steps.old steps.new }
{
    match kind_of(f) {
        Kind::Table | Kind::Report | Kind::Rows => Err(stop(alloc, Code::E04, func_word(f))),
        Kind::Command => Err(stop(alloc, Code::E19, func_word(f))),
        Kind::Vector => eval_bound(alloc, f, args, s, steps),
        Kind::Description => eval_description(alloc, f, args, s),
    }
}

fn eval_description<V: Vars>(
    alloc: Global,
    f: Func,
    args: &[Arg],
    s: &Scope<'_, V>,
) -> Result<Valued, EvalFail>
    ensures answer { AnswersAs valued_of
        (value_kind Kind.Description (env_of V.bound s.now) f (map arg_meaning args.now)) result }
    ensures own { IfErr result IsOwn }
{
    bind(alloc, f, args)?;
    let table = table_given(alloc, s, args)?;
    description(alloc, f, table)
}

#[cycle(eval)]
#[tactic(auto, using(crate::proofs::Touched::costs))]
fn eval_bound<V: Vars, L: Ledger>(
    alloc: Global,
    f: Func,
    args: &[Arg],
    s: &Scope<'_, V>,
    steps: &mut Steps<L>,
) -> Result<Valued, EvalFail>
    requires { IsScope s.now }
    ensures answer { AnswersAs valued_of
        (value_kind Kind.Vector (env_of V.bound s.now) f (map arg_meaning args.now)) result }
    ensures own { IfErr result IsOwn }
    ensures touches { Within (joined_cost (arity_of f) args.now) steps.old steps.new }
{
    bind(alloc, f, args)?;
    match arity_of(f) {
        Arity::Unnamed => eval_each(alloc, args, s, steps),
        Arity::Fixed => eval_fixed(alloc, f, args, s, steps),
        Arity::Columns | Arity::More | Arity::Named => Err(stop_unbuilt(alloc)),
    }
}

/// All arguments in a row.
#[cycle(eval)]
#[tactic(auto, using(crate::proofs::Touched::costs))]
fn eval_each<V: Vars, L: Ledger>(
    alloc: Global,
    args: &[Arg],
    s: &Scope<'_, V>,
    steps: &mut Steps<L>,
) -> Result<Valued, EvalFail>
    requires { IsScope s.now }
    ensures answer { AnswersAs valued_of
        (then_do (each_argument (λ m. m.value (env_of V.bound s.now)) (map arg_meaning args.now))
        combined) result }
    ensures own { IfErr result IsOwn }
    ensures touches { are_literals args.now ≡ true
        → steps.new ≤ steps.old + (length args.now + all_signs args.now) }
{
    let values = values_of_each(alloc, args, s, steps)?;
    combined(alloc, values.as_slice(), steps)
}

/// The value of an argument, of its own.
#[cycle(eval)]
#[tactic(auto, using(crate::proofs::Touched::literals))]
fn eval_argument<V: Vars, L: Ledger>(
    alloc: Global,
    a: &Arg,
    s: &Scope<'_, V>,
    steps: &mut Steps<L>,
) -> Result<Valued, EvalFail>
    requires { IsScope s.now }
    ensures answer { AnswersAs valued_of ((arg_meaning a.now).means.value (env_of V.bound s.now))
        result }
    ensures own { IfErr result IsOwn }
    ensures literal { is_literal_argument a.now ≡ true → IfOk result IsOneCell }
    ensures read { is_literal_argument a.now ≡ true
        → Touched (sign_cells a.now.value) steps.old steps.new }
{
    let operand = eval_operand(alloc, &a.value, s, steps)?;
    owned(alloc, operand, steps)
}

/// The values of all arguments in order, or the first fault.
#[cycle(eval)]
#[tactic(auto, using(session_model::proofs::InOrder::in_order))]
pub fn values_of_each<V: Vars, L: Ledger>(
    alloc: Global,
    args: &[Arg],
    s: &Scope<'_, V>,
    steps: &mut Steps<L>,
) -> Result<Vec<Valued>, EvalFail>
    requires { IsScope s.now }
    ensures answer { AnswersAs (λ v. map valued_of v.items)
        (each_argument (λ m. m.value (env_of V.bound s.now)) (map arg_meaning args.now)) result }
    ensures count { IfOk result (λ v. length v.items ≡ length args.now) }
    ensures own { IfErr result IsOwn }
    ensures literals { are_literals args.now ≡ true → IfOk result (λ v. All IsOneCell v.items) }
    ensures read { are_literals args.now ≡ true
        → Touched (all_signs args.now) steps.old steps.new }
{
    let mut done = Vec::new(alloc);
    for a in args {
        let value = eval_argument(alloc, a, s, steps)?;
        add(&mut done, value)?;
    }
    Ok(done)
}

#[cycle(eval)]
fn eval_fixed<V: Vars, L: Ledger>(
    alloc: Global,
    f: Func,
    args: &[Arg],
    s: &Scope<'_, V>,
    steps: &mut Steps<L>,
) -> Result<Valued, EvalFail>
    requires { IsScope s.now }
    ensures answer { AnswersAs valued_of
        (value_vectors Arity.Fixed (env_of V.bound s.now) f (map arg_meaning args.now)) result }
    ensures own { IfErr result IsOwn }
{
    let given = eval_formals(alloc, formals(f), args, s, steps)?;
    applied(alloc, f, given.as_slice(), steps)
}

#[cycle(eval)]
#[tactic(auto, using(session_model::proofs::InOrder::in_order))]
fn eval_formals<'a, V: Vars, L: Ledger>(
    alloc: Global,
    ps: &[Formal],
    args: &[Arg],
    s: &Scope<'a, V>,
    steps: &mut Steps<L>,
) -> Result<Vec<Slot<Operand<'a>>>, EvalFail>
    requires scope { IsScope s.now }
    requires few { length ps.now < 1000 }
    ensures answer { AnswersAs (λ v. map slot_of v.items)
        (slots (λ m. m.value (env_of V.bound s.now)) (map arg_meaning args.now)
        (places (names_in (map arg_meaning args.now)) 0 ps.now)) result }
    ensures own { IfErr result IsOwn }
{
    let mut done = Vec::new(alloc);
    let mut before = 0;
    for p in ps {
        let slot = eval_formal(alloc, *p, before, args, s, steps)?;
        add(&mut done, slot)?;
        before = next(args, before, *p);
    }
    Ok(done)
}

#[cycle(eval)]
fn eval_formal<'a, V: Vars, L: Ledger>(
    alloc: Global,
    p: Formal,
    before: usize,
    args: &[Arg],
    s: &Scope<'a, V>,
    steps: &mut Steps<L>,
) -> Result<Slot<Operand<'a>>, EvalFail>
    requires { IsScope s.now }
    ensures answer { AnswersAs slot_of
        (slot_at (λ m. m.value (env_of V.bound s.now)) p
        (arg_at (map arg_meaning args.now)
        (place_of (names_in (map arg_meaning args.now)) before p))) result }
    ensures own { IfErr result IsOwn }
{
    match place(args, before, p) {
        None => Ok(Slot::Absent),
        Some(i) => match args.get(i) {
            None => Ok(Slot::Absent),
            Some(a) => eval_as(alloc, p, a, s, steps),
        },
    }
}

#[cycle(eval)]
fn eval_as<'a, V: Vars, L: Ledger>(
    alloc: Global,
    p: Formal,
    a: &Arg,
    s: &Scope<'a, V>,
    steps: &mut Steps<L>,
) -> Result<Slot<Operand<'a>>, EvalFail>
    requires { IsScope s.now }
    ensures answer { AnswersAs slot_of
        (slot_as (λ m. m.value (env_of V.bound s.now)) p (is_flag p) (arg_meaning a.now).means)
        result }
    ensures own { IfErr result IsOwn }
{
    if is_flag(p) {
        eval_flag(alloc, p, &a.value)
    } else {
        eval_given(alloc, a, s, steps)
    }
}

fn eval_flag<'a>(alloc: Global, p: Formal, e: &Expr) -> Result<Slot<Operand<'a>>, EvalFail>
    ensures answer { AnswersAs slot_of (flag_slot p (meaning e.now).form) result }
    ensures own { IfErr result IsOwn }
{
    match flag_given::<Operand<'a>>(alloc, p, e) {
        Ok(slot) => Ok(slot),
        Err(fail) => Err(fail),
    }
}

#[cycle(eval)]
fn eval_given<'a, V: Vars, L: Ledger>(
    alloc: Global,
    a: &Arg,
    s: &Scope<'a, V>,
    steps: &mut Steps<L>,
) -> Result<Slot<Operand<'a>>, EvalFail>
    requires { IsScope s.now }
    ensures answer { AnswersAs slot_of
        (given ((arg_meaning a.now).means.value (env_of V.bound s.now))) result }
    ensures own { IfErr result IsOwn }
{
    Ok(Slot::Given(eval_operand(alloc, &a.value, s, steps)?))
}
