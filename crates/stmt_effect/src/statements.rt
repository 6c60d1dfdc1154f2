ghost use Rattle.std.specs.Prelude.{IfErr, IfOk, IsSome, Option, Some, map};
ghost use Rattle.dt_world.specs.Told.{FileMap};
ghost use Rattle.eval_fail.specs.Answers.{AnswersAs, IsOwn};
ghost use Rattle.file_value.specs.Answers.{Gives};
ghost use Rattle.file_value.specs.Reads.{OnlyReads, files_seen};
ghost use Rattle.func_table.specs.Calls.{func_of, kind_of};
ghost use Rattle.session_model.specs.Calls.{command_of, command_named, command_step, bound_command};
ghost use Rattle.session_model.specs.Meaning.{meaning, arg_meaning};
ghost use Rattle.session_model.specs.Statement.{step, step_of, value_effect, value_step};
ghost use Rattle.session_model.specs.World.{look};
ghost use Rattle.stmt_change.specs.Effects.{plain_effect, FitsIn};
ghost use Rattle.stmt_effect.specs.Does.{Does, session_of};
ghost use Rattle.stmt_value.specs.Values.{plain_given, scene, IsGivenIn, IsIndexedIn};
ghost use Rattle.table_heap.specs.State.{state_of};

use crate::assigned::assigned;
use crate::commands::command;
use crate::printed::bare;
use arg_bind::bind;
use auto_index::indexed;
use dt_base::{Code, Steps, Text};
use dt_tree::{Arg, Expr, Stmt};
use dt_world::Files;
use eval_fail::EvalFail;
use file_value::unread;
use func_table::{Func, Kind, func_named, func_word, kind_of};
use std::alloc::Global;
use std::sync::ledger::Ledger;
use stmt_change::Effect;
use stmt_value::{Given, Setting, ValueFail, is_served, refusal, refusal_unbuilt, whole};
use table_heap::Heap;

/// What a value does, by itself or with a name.
fn value_effect<L: Ledger>(
    alloc: Global,
    given: Given<'_>,
    target: &Option<Text>,
    heap: &Heap,
    steps: &mut Steps<L>,
) -> Result<Effect, EvalFail>
    requires { IsIndexedIn heap.now given }
    ensures answer { AnswersAs (plain_effect heap.now)
        (value_effect target.now (state_of heap.now) (plain_given heap.now given.entry)) result }
    ensures fits { IfOk result (λ e. FitsIn heap.now e.change) }
    ensures own { IfErr result IsOwn }
{
    match target {
        None => bare(alloc, given, heap, steps),
        Some(name) => assigned(alloc, name, given, steps),
    }
}

/// What the value of an expression does, with the index that the statement adds.
fn given_step<L: Ledger>(
    alloc: Global,
    e: &Expr,
    given: Given<'_>,
    target: &Option<Text>,
    setting: &Setting<'_>,
    steps: &mut Steps<L>,
) -> Result<Effect, EvalFail>
    requires { IsGivenIn setting.now.heap.now given }
    ensures answer { (held : Option FileMap) → AnswersAs (plain_effect setting.now.heap.now)
        (value_effect target.now (state_of setting.now.heap.now)
        ((meaning e.now).indexed (scene held setting.now)
        (plain_given setting.now.heap.now given.entry))) result }
    ensures fits { IfOk result (λ e. FitsIn setting.now.heap.now e.change) }
    ensures own { IfErr result IsOwn }
{
    match indexed(alloc, e, given, setting, steps) {
        Ok(given) => value_effect(alloc, given, target, setting.heap, steps),
        Err(fail) => Err(fail),
    }
}

/// What a statement does whose expression is a value.
fn value_step<F: Files, L: Ledger>(
    alloc: Global,
    e: &Expr,
    target: &Option<Text>,
    setting: &Setting<'_>,
    files: &mut F,
    steps: &mut Steps<L>,
) -> Result<Effect, ValueFail>
    ensures told { Does (F.held files.old) setting.now
        (value_step target.now (meaning e.now)) result }
    ensures fits { IfOk result (λ e. FitsIn setting.now.heap.now e.change) }
    ensures files { OnlyReads (files_seen F.held F.read_faults F.misses F.longs F.write_faults)
        files.old files.new result }
{
    match whole(alloc, e, setting, files, steps) {
        Ok(given) => unread(given_step(alloc, e, given, target, setting, steps)),
        Err(fail) => Err(fail),
    }
}

/// What the call of a command does; with a name to assign to it is E19 with the command's name.
fn command_step<F: Files, L: Ledger>(
    alloc: Global,
    f: Func,
    args: &[Arg],
    target: &Option<Text>,
    setting: &Setting<'_>,
    files: &mut F,
    steps: &mut Steps<L>,
) -> Result<Effect, ValueFail>
    ensures told { Does (F.held files.old) setting.now
        (command_step f (map arg_meaning args.now) target.now) result }
    ensures fits { IfOk result (λ e. FitsIn setting.now.heap.now e.change) }
    ensures files { OnlyReads (files_seen F.held F.read_faults F.misses F.longs F.write_faults)
        files.old files.new result }
{
    match target {
        None => bound_command(alloc, f, args, setting, files, steps),
        Some(_) => Err(refusal(alloc, Code::E19, func_word(f))),
    }
}

/// What the call of a command does.
fn bound_command<F: Files, L: Ledger>(
    alloc: Global,
    f: Func,
    args: &[Arg],
    setting: &Setting<'_>,
    files: &mut F,
    steps: &mut Steps<L>,
) -> Result<Effect, ValueFail>
    ensures told { Does (F.held files.old) setting.now
        (bound_command f (map arg_meaning args.now)) result }
    ensures fits { IfOk result (λ e. FitsIn setting.now.heap.now e.change) }
    ensures files { OnlyReads (files_seen F.held F.read_faults F.misses F.longs F.write_faults)
        files.old files.new result }
{
    bind(alloc, f, args)?;
    command(alloc, f, args, setting, files, steps)
}

/// What a statement does whose expression is a call.
fn call_step<F: Files, L: Ledger>(
    alloc: Global,
    e: &Expr,
    name: &str,
    args: &[Arg],
    target: &Option<Text>,
    setting: &Setting<'_>,
    files: &mut F,
    steps: &mut Steps<L>,
) -> Result<Effect, ValueFail>
    ensures told { Does (F.held files.old) setting.now
        (step_of (command_named (func_of name.now) (map arg_meaning args.now)) target.now
        (meaning e.now)) result }
    ensures fits { IfOk result (λ e. FitsIn setting.now.heap.now e.change) }
    ensures files { OnlyReads (files_seen F.held F.read_faults F.misses F.longs F.write_faults)
        files.old files.new result }
{
    match func_named(name) {
        None => value_step(alloc, e, target, setting, files, steps),
        Some(f) => known_step(alloc, e, f, args, target, setting, files, steps),
    }
}

/// What a statement does whose expression is the call of a function.
fn known_step<F: Files, L: Ledger>(
    alloc: Global,
    e: &Expr,
    f: Func,
    args: &[Arg],
    target: &Option<Text>,
    setting: &Setting<'_>,
    files: &mut F,
    steps: &mut Steps<L>,
) -> Result<Effect, ValueFail>
    ensures told { Does (F.held files.old) setting.now
        (step_of (command_of (kind_of f) f (map arg_meaning args.now)) target.now
        (meaning e.now)) result }
    ensures fits { IfOk result (λ e. FitsIn setting.now.heap.now e.change) }
    ensures files { OnlyReads (files_seen F.held F.read_faults F.misses F.longs F.write_faults)
        files.old files.new result }
{
    match kind_of(f) {
        Kind::Table | Kind::Vector | Kind::Description => {
            value_step(alloc, e, target, setting, files, steps)
        }
        Kind::Report | Kind::Rows => value_step(alloc, e, target, setting, files, steps),
        Kind::Command => command_step(alloc, f, args, target, setting, files, steps),
    }
}

/// What a statement does all of whose forms are served.
fn served_step<F: Files, L: Ledger>(
    alloc: Global,
    e: &Expr,
    target: &Option<Text>,
    setting: &Setting<'_>,
    files: &mut F,
    steps: &mut Steps<L>,
) -> Result<Effect, ValueFail>
    ensures told { Does (F.held files.old) setting.now
        (step_of (meaning e.now).command target.now (meaning e.now)) result }
    ensures fits { IfOk result (λ e. FitsIn setting.now.heap.now e.change) }
    ensures files { OnlyReads (files_seen F.held F.read_faults F.misses F.longs F.write_faults)
        files.old files.new result }
{
    match e {
        Expr::Call { name, args } => {
            call_step(
                alloc,
                e,
                name.as_str(),
                args.as_slice(),
                target,
                setting,
                files,
                steps,
            )
        }
        Expr::Lit { .. } | Expr::Null | Expr::Infinite | Expr::Name { .. } => {
            value_step(alloc, e, target, setting, files, steps)
        }
        Expr::Paren { .. } | Expr::Minus { .. } | Expr::Not { .. } | Expr::Chain { .. } => {
            value_step(alloc, e, target, setting, files, steps)
        }
        Expr::Query { .. } | Expr::Formula { .. } => {
            value_step(alloc, e, target, setting, files, steps)
        }
    }
}

/// What a statement does, or its first fault. A form that no statement serves yet is E19 with
/// `unbuilt`, before anything else is looked at.
///
/// A value without a name prints, but what an assignment gives does not, unless an empty bracket
/// stands behind it. With a name, a table that has one gets one more, a vector is copied, a new
/// table gets its first name, and NULL is E19 with the name. A command is a whole
/// statement; with a name to assign to it is E19 with the command's name. The manual's pages
/// data.table, copy, fread and fwrite; the order of faults is dtq's own, docs/LANGUAGE.md, section
/// "Statements".
pub fn compute<F: Files, L: Ledger>(
    alloc: Global,
    stmt: &Stmt,
    setting: &Setting<'_>,
    files: &mut F,
    steps: &mut Steps<L>,
) -> Result<Effect, ValueFail>
    ensures told { IsSome (F.held files.old)
        → Gives (plain_effect setting.now.heap.now)
        (step (look (F.held files.old)) (session_of setting.now) stmt.now) result }
    ensures fits { IfOk result (λ e. FitsIn setting.now.heap.now e.change) }
    ensures files { OnlyReads (files_seen F.held F.read_faults F.misses F.longs F.write_faults)
        files.old files.new result }
{
    if !is_served(&stmt.expr, false) {
        return Err(refusal_unbuilt(alloc));
    }
    served_step(alloc, &stmt.expr, &stmt.target, setting, files, steps)
}
