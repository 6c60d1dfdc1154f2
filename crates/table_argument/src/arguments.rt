ghost use Rattle.std.specs.Prelude.{◌≡◌, ◌<◌, [], IfErr, IfOk, Some, length, map};
ghost use Rattle.std.specs.FinMap as finite;
ghost use Rattle.std.specs.Option.{option_copied};
ghost use Rattle.dt_table.specs.Plain.{plain};
ghost use Rattle.eval_fail.specs.Answers.{AnswersAs, IsOwn};
ghost use Rattle.session_model.specs.Binding.{free_count};
ghost use Rattle.session_model.specs.Expression.{arg_at, names_in};
ghost use Rattle.session_model.specs.Meaning.{arg_meaning, meaning};
ghost use Rattle.session_model.specs.NamedTable.{argument_for, bare_name_of, bound_table};
ghost use Rattle.session_model.specs.NamedTable.{needed, table_named};
ghost use Rattle.session_model.specs.Value.{numbered_table};
ghost use Rattle.stmt_change.specs.Places.{table_at};
ghost use Rattle.table_argument.specs.Seen.{expression_seen, means, table_seen};
ghost use Rattle.table_heap.specs.Seen.{IsAt};
ghost use Rattle.table_heap.specs.State.{state_of};

use arg_bind::{bare_name, next, place};
use dt_base::Code;
use dt_table::Table;
use dt_tree::{Arg, Expr};
use eval_fail::{EvalFail, stop, stop_unbuilt};
use func_table::{Formal, formal_word};
use std::alloc::Global;
use table_heap::{Heap, Id, Look};

/// How many of these formals no name takes.
fn count_free(args: &[Arg], formals: &[Formal]) -> usize
    requires { length formals.now < 1000 }
    ensures { result ≡ free_count (names_in (map arg_meaning args.now)) formals.now }
{
    let mut count = 0;
    for formal in formals {
        count = next(args, count, *formal);
    }
    count
}

/// An argument means what its value means.
fn is_meant(arg: &Arg)
    ensures { (arg_meaning arg.now).means ≡ meaning arg.now.value }
{
    let _value = &arg.value;
}

/// The value of the argument at a place, counted from 0, where there is one.
fn value_at(args: &[Arg], at: usize) -> Option<&Expr>
    ensures { expression_seen result ≡ means (arg_at (map arg_meaning args.now) (Some at)) }
{
    match args.get(at) {
        Some(arg) => {
            is_meant(arg);
            Some(&arg.value)
        }
        None => None,
    }
}

/// The argument that a formal takes, where these formals stand before it; none where it is left
/// out. It looks at each argument once for each of these formals.
pub fn argument<'a>(args: &'a [Arg], before: &[Formal], formal: Formal) -> Option<&'a Expr>
    requires { length before.now < 1000 }
    ensures { expression_seen result
        ≡ means (argument_for (map arg_meaning args.now) before.now formal) }
{
    match place(args, count_free(args, before), formal) {
        Some(at) => value_at(args, at),
        None => None,
    }
}

/// The argument that a call needs, which is there once its arguments are bound.
#[tactic(auto, using(crate::proofs::Given::arguments))]
pub fn needed<'a>(
    alloc: Global,
    args: &'a [Arg],
    before: &[Formal],
    formal: Formal,
) -> Result<&'a Expr, EvalFail>
    requires { length before.now < 1000 }
    ensures answer { AnswersAs (λ e. meaning e.now)
        (needed (argument_for (map arg_meaning args.now) before.now formal)) result }
    ensures own { IfErr result IsOwn }
{
    match argument(args, before, formal) {
        Some(e) => Ok(e),
        None => Err(stop_unbuilt(alloc)),
    }
}

/// The name as which D is written; none where it is no bare name.
#[tactic(auto, using(crate::proofs::Given::arguments))]
fn table_name(args: &[Arg]) -> Option<&str>
    ensures { option_copied result
        ≡ bare_name_of (argument_for (map arg_meaning args.now) [] Formal.D) }
{
    match argument(args, &[], Formal::D) {
        Some(e) => bare_name(e),
        None => None,
    }
}

/// The table of a live Id, which is that of its number.
pub fn table_of(heap: &Heap, id: Id) -> &Table
    requires { IsAt heap.now id }
    ensures table { result.now ≡ table_at heap.now id }
    ensures number { numbered_table (state_of heap.now) id.number ≡ plain (table_at heap.now id) }
{
    heap.table(id)
}

/// The table that a name is bound to. A name that is bound to nothing is E02, and one that is bound
/// to a vector E20, both with the name.
fn bound_table(alloc: Global, name: &str, heap: &Heap) -> Result<Id, EvalFail>
    ensures answer { AnswersAs (table_seen heap.now)
        (bound_table (state_of heap.now) name.now
        (finite.get (state_of heap.now).names name.now)) result }
    ensures live { IfOk result (IsAt heap.now) }
    ensures own { IfErr result IsOwn }
{
    match heap.look(name) {
        Look::Absent => Err(stop(alloc, Code::E02, name)),
        Look::Vector(_) => Err(stop(alloc, Code::E20, name)),
        Look::Table(id) => {
            let _table = table_of(heap, id);
            Ok(id)
        }
    }
}

/// The table of the argument D, which is a name that is bound to one; else E19 with `D`, E02 or
/// E20.
pub fn named_table(alloc: Global, args: &[Arg], heap: &Heap) -> Result<Id, EvalFail>
    ensures answer { AnswersAs (table_seen heap.now)
        (table_named (map arg_meaning args.now) (state_of heap.now)) result }
    ensures live { IfOk result (IsAt heap.now) }
    ensures own { IfErr result IsOwn }
{
    match table_name(args) {
        Some(name) => bound_table(alloc, name, heap),
        None => Err(stop(alloc, Code::E19, formal_word(Formal::D))),
    }
}
