ghost use Rattle.std.specs.Prelude.{◌≡◌, IfOk, IfErr, Some, cond, map};
ghost use Rattle.std.specs.FinMap as finite;
ghost use Rattle.dt_table.specs.Plain.{plain};
ghost use Rattle.eval_fail.specs.Answers.{AnswersAs, IsOwn};
ghost use Rattle.file_value.specs.Reads.{OnlyReads, files_seen};
ghost use Rattle.run_model.specs.Csv.{written_csv};
ghost use Rattle.session_model.specs.Binding.{is_free};
ghost use Rattle.session_model.specs.Calls.{package_named, known_package, bare_name};
ghost use Rattle.session_model.specs.Calls.{removed_name, written_given, command};
ghost use Rattle.session_model.specs.Effect as model;
ghost use Rattle.session_model.specs.Expression.{names_in};
ghost use Rattle.session_model.specs.Meaning.{meaning, arg_meaning};
ghost use Rattle.stmt_change.specs.Effects.{plain_effect, FitsIn};
ghost use Rattle.stmt_effect.specs.Does.{Does, session_of};
ghost use Rattle.stmt_effect.specs.Commands.{library_named, removed_by, table_command};
ghost use Rattle.stmt_value.specs.Values.{plain_given, IsValueIn};
ghost use Rattle.table_heap.specs.State.{state_of};

use crate::printed::printed;
use arg_bind::{bare_name, next};
use cmd_assign::{set, set_names};
use cmd_order::{set_index, set_key, set_options, set_order};
use csv_edge::write_table;
use dt_base::{Code, Steps, Text, Warns};
use dt_table::Table;
use dt_tree::{Arg, Expr};
use dt_world::Files;
use eval_fail::{EvalFail, stop, stop_unbuilt};
use file_value::unread;
use func_table::{Formal, Func};
use std::alloc::{AllocError, Global};
use std::sync::ledger::Ledger;
use stmt_change::{Change, Effect, NameChange, Written};
use stmt_value::{
    Given, Setting, ValueFail, argument, named_file, refusal_unbuilt, value, wanted_table,
};
use table_heap::{Heap, Look};

/// The package `data.table`, which does nothing; anything else is E19 with `package`.
fn known_package(alloc: Global, e: &Expr) -> Result<(), EvalFail>
    ensures answer { AnswersAs (λ u. model.does_nothing)
        (known_package (meaning e.now).form) result }
    ensures own { IfErr result IsOwn }
{
    match bare_name(e) {
        Some(name) => package_named(alloc, name),
        None => Err(stop(alloc, Code::E19, "package")),
    }
}

/// The package of a name.
fn package_named(alloc: Global, name: &str) -> Result<(), EvalFail>
    ensures answer { AnswersAs (λ u. model.does_nothing) (package_named (Some name.now)) result }
    ensures own { IfErr result IsOwn }
{
    if name == "data.table" {
        Ok(())
    } else {
        Err(stop(alloc, Code::E19, "package"))
    }
}

/// The package that `library` names, which does nothing.
fn package(alloc: Global, args: &[Arg]) -> Result<(), EvalFail>
    ensures answer { AnswersAs (λ u. model.does_nothing)
        (library_named (map arg_meaning args.now)) result }
    ensures own { IfErr result IsOwn }
{
    let package = argument(alloc, args, 0, Formal::Package)?;
    known_package(alloc, package)
}

/// What `print` does: its argument's value prints.
fn print<F: Files, L: Ledger>(
    alloc: Global,
    args: &[Arg],
    setting: &Setting<'_>,
    files: &mut F,
    steps: &mut Steps<L>,
) -> Result<Effect, ValueFail>
    ensures told { Does (F.held files.old) setting.now
        (command Func.Print (map arg_meaning args.now)) result }
    ensures fits { IfOk result (λ e. FitsIn setting.now.heap.now e.change) }
    ensures files { OnlyReads (files_seen F.held F.read_faults F.misses F.longs F.write_faults)
        files.old files.new result }
{
    let arg = argument(alloc, args, 0, Formal::Value)?;
    let given = value(alloc, arg, setting, files, steps)?;
    Ok(printed(alloc, &given, setting.heap, steps)?)
}

/// The bytes of a table as a file.
fn file_bytes<L: Ledger>(
    alloc: Global,
    table: &Table,
    steps: &mut Steps<L>,
) -> Result<Vec<u8>, AllocError>
    ensures { IfOk result (λ v. v.items ≡ written_csv (plain table.now)) }
{
    let mut bytes = Vec::new(alloc);
    write_table(alloc, table, &mut bytes, steps)?;
    Ok(bytes)
}

/// The table of a value is written as the file that a text literal names.
fn written<L: Ledger>(
    alloc: Global,
    given: &Given<'_>,
    file: &Expr,
    setting: &Setting<'_>,
    steps: &mut Steps<L>,
) -> Result<Effect, EvalFail>
    requires { IsValueIn setting.now.heap.now given.now.value }
    ensures answer { AnswersAs (plain_effect setting.now.heap.now)
        (written_given (state_of setting.now.heap.now)
        (plain_given setting.now.heap.now given.now) (meaning file.now).form) result }
    ensures fits { IfOk result (λ e. FitsIn setting.now.heap.now e.change) }
    ensures own { IfErr result IsOwn }
{
    let table = wanted_table(alloc, &given.value, setting.heap)?;
    let name = Text::make(alloc, named_file(alloc, file)?)?;
    let bytes = file_bytes(alloc, table, steps)?;
    Ok(Effect::writes(alloc, Written { name, bytes }, given.warns))
}

/// How many formals are free before the file's: the table, unless a name takes it.
fn free_table(args: &[Arg]) -> usize
    ensures { result ≡ cond (is_free (names_in (map arg_meaning args.now)) Formal.Table) 1 0 }
{
    next(args, 0, Formal::Table)
}

/// What `fwrite` does: a table is written as a file.
fn fwrite<F: Files, L: Ledger>(
    alloc: Global,
    args: &[Arg],
    setting: &Setting<'_>,
    files: &mut F,
    steps: &mut Steps<L>,
) -> Result<Effect, ValueFail>
    ensures told { Does (F.held files.old) setting.now
        (command Func.Fwrite (map arg_meaning args.now)) result }
    ensures fits { IfOk result (λ e. FitsIn setting.now.heap.now e.change) }
    ensures files { OnlyReads (files_seen F.held F.read_faults F.misses F.longs F.write_faults)
        files.old files.new result }
{
    let arg = argument(alloc, args, 0, Formal::Table)?;
    let given = value(alloc, arg, setting, files, steps)?;
    let file = argument(alloc, args, free_table(args), Formal::File)?;
    Ok(written(alloc, &given, file, setting, steps)?)
}

/// The name that stands bare; anything else is E19 with `name`.
fn removable(alloc: Global, e: &Expr) -> Result<&str, EvalFail>
    ensures answer { AnswersAs (λ s. s.now) (bare_name (meaning e.now).form) result }
    ensures own { IfErr result IsOwn }
{
    match bare_name(e) {
        Some(name) => Ok(name),
        None => Err(stop(alloc, Code::E19, "name")),
    }
}

/// Whether the name is bound; one that is not is E02.
fn bound(alloc: Global, name: &str, heap: &Heap) -> Result<(), EvalFail>
    ensures answer { AnswersAs (λ u. model.changes_name (model.Remove name.now))
        (removed_name name.now (finite.get (state_of heap.now).names name.now)) result }
    ensures own { IfErr result IsOwn }
{
    match heap.look(name) {
        Look::Absent => Err(stop(alloc, Code::E02, name)),
        Look::Table(_) | Look::Vector(_) => Ok(()),
    }
}

/// What removes a name; one that is not bound is E02.
fn removed(alloc: Global, name: &str, setting: &Setting<'_>) -> Result<Effect, EvalFail>
    ensures answer { AnswersAs (plain_effect setting.now.heap.now)
        (removed_name name.now (finite.get (state_of setting.now.heap.now).names name.now)) result }
    ensures fits { IfOk result (λ e. FitsIn setting.now.heap.now e.change) }
    ensures own { IfErr result IsOwn }
{
    bound(alloc, name, setting.heap)?;
    let name = Text::make(alloc, name)?;
    let change = Change::of_name(NameChange::Remove { name });
    Ok(Effect::changes(alloc, change, Warns::none()))
}

/// What `rm` does: the name is bound no longer.
fn rm(alloc: Global, args: &[Arg], setting: &Setting<'_>) -> Result<Effect, EvalFail>
    ensures answer { AnswersAs (plain_effect setting.now.heap.now)
        (removed_by (state_of setting.now.heap.now) (map arg_meaning args.now)) result }
    ensures fits { IfOk result (λ e. FitsIn setting.now.heap.now e.change) }
    ensures own { IfErr result IsOwn }
{
    let arg = argument(alloc, args, 0, Formal::Name)?;
    let name = removable(alloc, arg)?;
    removed(alloc, name, setting)
}

/// What a command does, once its arguments are bound.
pub fn command<F: Files, L: Ledger>(
    alloc: Global,
    f: Func,
    args: &[Arg],
    setting: &Setting<'_>,
    files: &mut F,
    steps: &mut Steps<L>,
) -> Result<Effect, ValueFail>
    ensures told { Does (F.held files.old) setting.now
        (command f (map arg_meaning args.now)) result }
    ensures fits { IfOk result (λ e. FitsIn setting.now.heap.now e.change) }
    ensures files { OnlyReads (files_seen F.held F.read_faults F.misses F.longs F.write_faults)
        files.old files.new result }
{
    match f {
        Func::Library => {
            package(alloc, args)?;
            Ok(Effect::nothing(alloc))
        }
        Func::Print => print(alloc, args, setting, files, steps),
        Func::Fwrite => fwrite(alloc, args, setting, files, steps),
        Func::Rm => Ok(rm(alloc, args, setting)?),
        Func::Set | Func::SetNames | Func::SetKey | Func::SetOrder => {
            unread(table_command(alloc, f, args, setting, steps))
        }
        Func::SetIndex | Func::SetOptions => {
            unread(table_command(alloc, f, args, setting, steps))
        }
        _ => Err(refusal_unbuilt(alloc)),
    }
}

/// What a command does that changes a table, or the options.
fn table_command<L: Ledger>(
    alloc: Global,
    f: Func,
    args: &[Arg],
    setting: &Setting<'_>,
    steps: &mut Steps<L>,
) -> Result<Effect, EvalFail>
    ensures answer { AnswersAs (plain_effect setting.now.heap.now)
        (table_command f (map arg_meaning args.now) (session_of setting.now)) result }
    ensures fits { IfOk result (λ e. FitsIn setting.now.heap.now e.change) }
    ensures own { IfErr result IsOwn }
{
    match f {
        Func::Set => set(alloc, args, setting, steps),
        Func::SetNames => set_names(alloc, args, setting, steps),
        Func::SetKey => set_key(alloc, args, setting, steps),
        Func::SetOrder => set_order(alloc, args, setting, steps),
        Func::SetIndex => set_index(alloc, args, setting, steps),
        Func::SetOptions => set_options(alloc, args, setting),
        _ => Err(stop_unbuilt(alloc)),
    }
}
