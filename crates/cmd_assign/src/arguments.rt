//! The arguments of `set` and `setnames`: the rows of `set`, and types.
ghost use Rattle.std.specs.Prelude.{◌≡◌, [], ◌∷◌, Err, IfErr, None, Ok, Some, if◌then◌else◌, map};
ghost use Rattle.dt_base.specs.Fault.{fault};
ghost use Rattle.dt_base.specs.declared.fault.Code.TheVariants.{E19};
ghost use Rattle.eval_fail.specs.Answers.{Answers, IsOwn};
ghost use Rattle.expr_scope.specs.Scope.{IsScope, env_of};
ghost use Rattle.func_table.specs.Calls.{name_of};
ghost use Rattle.session_model.specs.Assigned.{is_null};
ghost use Rattle.session_model.specs.Meaning.{arg_meaning, meaning};
ghost use Rattle.session_model.specs.NamedTable.{argument_for};
ghost use Rattle.session_model.specs.Set.{is_chr, is_int, is_place_or_name, of_type, row_side};
ghost use Rattle.table_argument.specs.Seen.{expression_seen};

use assign_sides::is_null;
use dt_base::{Code, ColType};
use dt_tree::{Arg, Expr};
use eval_fail::{EvalFail, stop};
use expr_eval::{Scope, Vars, check};
use func_table::{Formal, formal_word};
use std::alloc::Global;
use table_argument::argument;

/// An expression, unless it is the word NULL.
fn unless_null(e: &Expr) -> Option<&Expr>
    ensures { expression_seen result
        ≡ (if is_null (meaning e.now).form then None else Some (meaning e.now)) }
{
    if is_null(e) { None } else { Some(e) }
}

/// The argument i of `set`; none where it is left out or is the word NULL, which is all rows.
#[tactic(auto, using(crate::proofs::Taken::arguments))]
pub(crate) fn row_side(args: &[Arg]) -> Option<&Expr>
    ensures { expression_seen result
        ≡ row_side (argument_for (map arg_meaning args.now) (Formal.D ∷ []) Formal.I) }
{
    match argument(args, &[Formal::D], Formal::I) {
        Some(e) => unless_null(e),
        None => None,
    }
}

/// Whether a column of this type holds integers.
fn is_int(kind: ColType) -> bool
    ensures { result ≡ is_int kind }
{
    matches!(kind, ColType::Int)
}

/// Whether a column of this type holds texts.
fn is_chr(kind: ColType) -> bool
    ensures { result ≡ is_chr kind }
{
    matches!(kind, ColType::Chr)
}

/// Nothing where an argument has a type that is wanted, and else E19 with its formal.
fn check_wanted(alloc: Global, formal: Formal, is_wanted: bool) -> Result<(), EvalFail>
    ensures answer { Answers (if is_wanted then Ok tt else Err (fault E19 (name_of formal)))
        result }
    ensures own { IfErr result IsOwn }
{
    if is_wanted {
        return Ok(());
    }
    Err(stop(alloc, Code::E19, formal_word(formal)))
}

/// An argument is of integers: the first fault of its type, or E19 with its formal.
pub(crate) fn check_int<V: Vars>(
    alloc: Global,
    formal: Formal,
    e: &Expr,
    s: &Scope<'_, V>,
) -> Result<(), EvalFail>
    requires { IsScope s.now }
    ensures answer { Answers (of_type formal is_int (env_of V.bound s.now) (meaning e.now))
        result }
    ensures own { IfErr result IsOwn }
{
    let kind = check(alloc, e, s)?;
    check_wanted(alloc, formal, is_int(kind))
}

/// An argument is of integers or of texts.
pub(crate) fn check_place_or_name<V: Vars>(
    alloc: Global,
    formal: Formal,
    e: &Expr,
    s: &Scope<'_, V>,
) -> Result<(), EvalFail>
    requires { IsScope s.now }
    ensures answer { Answers
        (of_type formal is_place_or_name (env_of V.bound s.now) (meaning e.now)) result }
    ensures own { IfErr result IsOwn }
{
    let kind = check(alloc, e, s)?;
    check_wanted(alloc, formal, is_int(kind) || is_chr(kind))
}

/// An argument is of texts.
pub(crate) fn check_chr<V: Vars>(
    alloc: Global,
    formal: Formal,
    e: &Expr,
    s: &Scope<'_, V>,
) -> Result<(), EvalFail>
    requires { IsScope s.now }
    ensures answer { Answers (of_type formal is_chr (env_of V.bound s.now) (meaning e.now))
        result }
    ensures own { IfErr result IsOwn }
{
    let kind = check(alloc, e, s)?;
    check_wanted(alloc, formal, is_chr(kind))
}
