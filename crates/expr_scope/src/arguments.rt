ghost use Rattle.std.specs.Prelude.{◌≡◌, ◌+◌, ◌<◌, ◌++◌, ◌∷◌, [], cond, map, Some, OnOk, IfErr};
ghost use Rattle.eval_fail.specs.Answers.{Answers, AnswersAs, IsStop, IsOwn, IsNoMemory};
ghost use Rattle.expr_scope.specs.Scope.{argument_seen, env_of, table_lent};
ghost use Rattle.session_model.specs.Expression.{names_in, arg_at, flag_slot, table_at, table_in};
ghost use Rattle.session_model.specs.Expression.{described_table, later_fault};
ghost use Rattle.session_model.specs.Meaning.{meaning, arg_meaning};
ghost use Rattle.func_table.specs.Calls.{later_of};
ghost use Rattle.session_model.specs.Binding.{bound, place_of, is_free};
ghost use Rattle.session_model.specs.Form.{name_in};

use crate::names::var_table;
use crate::{Scope, Vars};
use arg_bind::{bare_name, flag_literal, place};
use dt_base::Code;
use dt_table::Table;
use dt_tree::{Arg, Expr};
use eval_fail::{EvalFail, stop, stop_unbuilt};
use func_table::{Formal, Later, Slot, formal_word, later_named};
use std::alloc::{AllocError, Global};

/// A flag as it is written. Anything but TRUE and FALSE is E19 with the argument.
pub fn flag_given<T: Drop>(alloc: Global, p: Formal, e: &Expr) -> Result<Slot<T>, EvalFail>
    ensures answer { Answers (flag_slot p (meaning e.now).form) result }
    ensures own { IfErr result IsOwn }
{
    match flag_literal(e) {
        Some(flag) => Ok(Slot::Flag(flag)),
        None => Err(stop(alloc, Code::E19, formal_word(p))),
    }
}

/// The table of a name as it is written.
fn named_table<'a, V: Vars>(
    alloc: Global,
    s: &Scope<'a, V>,
    e: &Expr,
) -> Result<&'a Table, EvalFail>
    ensures answer { AnswersAs table_lent
        (table_at (env_of V.bound s.now) (name_in (meaning e.now).form)) result }
    ensures own { IfErr result IsOwn }
{
    match bare_name(e) {
        Some(name) => var_table(alloc, s.vars, name),
        None => Err(stop(alloc, Code::E19, "D")),
    }
}

/// The argument that a formal takes, where `before` formals before it are free.
fn argument_in(args: &[Arg], before: usize, p: Formal) -> Option<&Arg>
    ensures { argument_seen result
        ≡ arg_at (map arg_meaning args.now)
        (place_of (names_in (map arg_meaning args.now)) before p) }
{
    match place(args, before, p) {
        Some(i) => args.get(i),
        None => None,
    }
}

/// The table that an argument names.
fn table_of_arg<'a, V: Vars>(
    alloc: Global,
    s: &Scope<'a, V>,
    arg: &Arg,
) -> Result<&'a Table, EvalFail>
    ensures answer { AnswersAs table_lent
        (table_in (env_of V.bound s.now) (Some (arg_meaning arg.now))) result }
    ensures own { IfErr result IsOwn }
{
    named_table(alloc, s, &arg.value)
}

/// The table that a call tells of. An argument that is no bare name is E19 with `D`; an unbound
/// name is E02, and a vector's is E20.
pub fn table_given<'a, V: Vars>(
    alloc: Global,
    s: &Scope<'a, V>,
    args: &[Arg],
) -> Result<&'a Table, EvalFail>
    ensures answer { AnswersAs table_lent
        (described_table (env_of V.bound s.now) (map arg_meaning args.now)) result }
    ensures own { IfErr result IsOwn }
{
    match argument_in(args, 0, Formal::D) {
        Some(arg) => table_of_arg(alloc, s, arg),
        None => Err(stop(alloc, Code::E19, "D")),
    }
}

/// The fault of a call that gives no vector, of a function that is not served.
pub fn later_call(alloc: Global, name: &str) -> EvalFail
    ensures answer { IsStop (later_fault name.now (later_of name.now)) result }
    ensures own { IsOwn result }
{
    match later_named(name) {
        None => stop(alloc, Code::E02, name),
        Some(Later::Vector) => stop_unbuilt(alloc),
        Some(Later::NoVector) => stop(alloc, Code::E04, name),
    }
}

/// Puts one more at the end.
pub fn add<T: Drop>(list: &mut Vec<T>, x: T) -> Result<(), EvalFail>
    ensures ok { OnOk result (list.new.items ≡ list.old.items ++ x ∷ []) }
    ensures err { IfErr result IsNoMemory }
    ensures own { IfErr result IsOwn }
{
    match list.push(x) {
        Ok(()) => Ok(()),
        Err(_) => Err(EvalFail::NoMemory(AllocError)),
    }
}
