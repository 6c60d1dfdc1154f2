ghost use Rattle.std.specs.Prelude.{◌≡◌, IfOk, IfErr, Ok, map};
ghost use Rattle.std.specs.FinMap as finite;
ghost use Rattle.dt_table.specs.Plain.{plain};
ghost use Rattle.eval_fail.specs.Answers.{AnswersAs, IsOwn};
ghost use Rattle.file_value.specs.Reads.{OnlyReads, files_seen};
ghost use Rattle.func_table.specs.Calls.{func_of, kind_of};
ghost use Rattle.session_model.specs.Calls.{argument, named_file, copy_of, table_call};
ghost use Rattle.session_model.specs.Meaning.{meaning, arg_meaning, bracket_meaning};
ghost use Rattle.session_model.specs.Meaning.{query_gives, vector_gives};
ghost use Rattle.session_model.specs.Value.{bound_value, file_table, wanted_table, copied};
ghost use Rattle.session_model.specs.Value as model;
ghost use Rattle.stmt_value.specs.Calls.{bound_table, call_or, copied_value, known_call};
ghost use Rattle.stmt_value.specs.Told.{Told};
ghost use Rattle.stmt_value.specs.Values.{plain_value, plain_given, scene, IsGivenIn, IsValueIn};
ghost use Rattle.table_heap.specs.State.{state_of};
ghost use Rattle.vector_model.specs.Then.{then_do};

use crate::chains::{called, chained};
use crate::given::{Given, Value};
use crate::reports::{report_call, report_value};
use crate::vectors::{table_value, vector_value};
use arg_bind::{bind, place, text_literal};
use dt_base::{Code, Steps};
use dt_table::Table;
use dt_tree::{Arg, Bracket, Expr};
use dt_world::Files;
use eval_fail::{EvalFail, stop, stop_unbuilt};
use file_value::{ValueFail, file_table, unread};
use func_table::{Formal, Func, Kind, func_named, func_word, kind_of};
use std::alloc::{AllocError, Global};
use std::sync::ledger::Ledger;
use stmt_setting::Setting;
use table_heap::{Heap, Look};

/// An argument means what its value means.
fn is_meant(arg: &Arg)
    ensures { (arg_meaning arg.now).means ≡ meaning arg.now.value }
{
    let _value = &arg.value;
}

/// The argument that a formal takes, where `before` formals before it are free.
pub fn argument(alloc: Global, args: &[Arg], before: usize, p: Formal) -> Result<&Expr, EvalFail>
    ensures answer { AnswersAs (λ e. meaning e.now)
        (argument (map arg_meaning args.now) before p) result }
    ensures own { IfErr result IsOwn }
{
    match place(args, before, p) {
        Some(i) => match args.get(i) {
            Some(arg) => {
                is_meant(arg);
                Ok(&arg.value)
            }
            None => Err(stop_unbuilt(alloc)),
        },
        None => Err(stop_unbuilt(alloc)),
    }
}

/// What a name is bound to. A name that is bound to nothing is E02.
fn bound<'a>(alloc: Global, name: &str, setting: &Setting<'a>) -> Result<Given<'a>, EvalFail>
    ensures given { AnswersAs (plain_given setting.now.heap.now)
        (bound_value name.now (finite.get (state_of setting.now.heap.now).names name.now)) result }
    ensures live { IfOk result (IsGivenIn setting.now.heap.now) }
    ensures own { IfErr result IsOwn }
{
    match setting.heap.look(name) {
        Look::Absent => Err(stop(alloc, Code::E02, name)),
        Look::Table(id) => Ok(Given::quiet(Value::Named(id))),
        Look::Vector(column) => Ok(Given::quiet(Value::Kept(column))),
    }
}

/// The table of a value, where a table is wanted: a vector is E19 with `table`, and NULL is E04.
pub fn wanted_table<'v>(
    alloc: Global,
    value: &'v Value<'_>,
    heap: &'v Heap,
) -> Result<&'v Table, EvalFail>
    requires { IsValueIn heap.now value.now }
    ensures answer { AnswersAs (λ t. plain t.now)
        (wanted_table (state_of heap.now) (plain_value value.now)) result }
    ensures own { IfErr result IsOwn }
{
    match value {
        Value::Named(id) => Ok(heap.table(*id)),
        Value::New(table) => Ok(table),
        Value::Cells(_) | Value::Kept(_) => Err(stop(alloc, Code::E19, "table")),
        Value::Null => Err(stop(alloc, Code::E04, "NULL")),
    }
}

/// The same table once more.
#[tactic(auto, using(crate::proofs::Copies::copied_plain))]
fn copied<L: Ledger>(
    alloc: Global,
    table: &Table,
    steps: &mut Steps<L>,
) -> Result<Table, AllocError>
    ensures { IfOk result (λ t. plain t ≡ copied (plain table.now)) }
{
    let _names = table.names();
    table.copy(alloc, steps)
}

/// What an expression gives as a statement's value: what `value` gives, but that `key` and `indices`
/// have their values here alone.
pub fn whole<'a, F: Files, L: Ledger>(
    alloc: Global,
    e: &Expr,
    setting: &Setting<'a>,
    files: &mut F,
    steps: &mut Steps<L>,
) -> Result<Given<'a>, ValueFail>
    ensures told { Told (F.held files.old) setting.now (meaning e.now).whole result }
    ensures live { IfOk result (IsGivenIn setting.now.heap.now) }
    ensures files { OnlyReads (files_seen F.held F.read_faults F.misses F.longs F.write_faults)
        files.old files.new result }
{
    match report_call(e) {
        Some(call) => unread(report_value(alloc, call, setting)),
        None => value(alloc, e, setting, files, steps),
    }
}

/// What an expression gives, as a head and where a table is wanted.
///
/// A name that is bound to nothing is E02. A table that has a name is given as it is, and a vector
/// that has one is lent. A command is E19 with its name, and a table function has the faults of its
/// arguments. A query gives its head's value through its brackets, one after another: what stands
/// before a bracket is a table, else E20 with its name or `[`, and E04 for NULL. An assignment in a
/// bracket alters a table that has a name, and is not shown. Anything else is a vector, whose type
/// comes before its value. dtq's own rule, docs/LANGUAGE.md, sections "Statements" and "Brackets".
#[cycle(value)]
pub fn value<'a, F: Files, L: Ledger>(
    alloc: Global,
    e: &Expr,
    setting: &Setting<'a>,
    files: &mut F,
    steps: &mut Steps<L>,
) -> Result<Given<'a>, ValueFail>
    ensures told { Told (F.held files.old) setting.now (meaning e.now).gives result }
    ensures live { IfOk result (IsGivenIn setting.now.heap.now) }
    ensures files { OnlyReads (files_seen F.held F.read_faults F.misses F.longs F.write_faults)
        files.old files.new result }
{
    match e {
        Expr::Null => unread(Ok(Given::quiet(Value::Null))),
        Expr::Name { name } => unread(bound(alloc, name.as_str(), setting)),
        Expr::Paren { inner } => value(alloc, inner.get(), setting, files, steps),
        Expr::Call { name, args } => call(
            alloc,
            name.as_str(),
            args.as_slice(),
            e,
            setting,
            files,
            steps,
        ),
        Expr::Query { head, brackets } => query(
            alloc,
            head.get(),
            brackets.as_slice(),
            setting,
            files,
            steps,
        ),
        Expr::Lit { .. } | Expr::Infinite | Expr::Formula { .. } => {
            unread(vector_value(alloc, e, setting, steps))
        }
        Expr::Minus { .. } | Expr::Not { .. } | Expr::Chain { .. } => {
            unread(vector_value(alloc, e, setting, steps))
        }
    }
}

/// What the call e of this name with these arguments gives.
#[cycle(value)]
fn call<'a, F: Files, L: Ledger>(
    alloc: Global,
    name: &str,
    args: &[Arg],
    e: &Expr,
    setting: &Setting<'a>,
    files: &mut F,
    steps: &mut Steps<L>,
) -> Result<Given<'a>, ValueFail>
    ensures told { Told (F.held files.old) setting.now
        (call_or (func_of name.now) (map arg_meaning args.now)
        (vector_gives (meaning e.now).check (meaning e.now).value)) result }
    ensures live { IfOk result (IsGivenIn setting.now.heap.now) }
    ensures files { OnlyReads (files_seen F.held F.read_faults F.misses F.longs F.write_faults)
        files.old files.new result }
{
    match func_named(name) {
        None => unread(vector_value(alloc, e, setting, steps)),
        Some(f) => known_call(alloc, f, args, e, setting, files, steps),
    }
}

/// The same of a function: a command is E19 with its name.
#[cycle(value)]
fn known_call<'a, F: Files, L: Ledger>(
    alloc: Global,
    f: Func,
    args: &[Arg],
    e: &Expr,
    setting: &Setting<'a>,
    files: &mut F,
    steps: &mut Steps<L>,
) -> Result<Given<'a>, ValueFail>
    ensures told { Told (F.held files.old) setting.now
        (known_call (kind_of f) f (map arg_meaning args.now)
        (vector_gives (meaning e.now).check (meaning e.now).value)) result }
    ensures live { IfOk result (IsGivenIn setting.now.heap.now) }
    ensures files { OnlyReads (files_seen F.held F.read_faults F.misses F.longs F.write_faults)
        files.old files.new result }
{
    match kind_of(f) {
        Kind::Vector | Kind::Description => unread(vector_value(alloc, e, setting, steps)),
        Kind::Report | Kind::Rows => unread(vector_value(alloc, e, setting, steps)),
        Kind::Command => unread(Err(stop(alloc, Code::E19, func_word(f)))),
        Kind::Table => bound_call(alloc, f, args, setting, files, steps),
    }
}

/// What a query gives: its head's value, and then its brackets behind it.
#[cycle(value)]
fn query<'a, F: Files, L: Ledger>(
    alloc: Global,
    head: &Expr,
    brackets: &[Bracket],
    setting: &Setting<'a>,
    files: &mut F,
    steps: &mut Steps<L>,
) -> Result<Given<'a>, ValueFail>
    ensures told { Told (F.held files.old) setting.now
        (query_gives (meaning head.now) (map bracket_meaning brackets.now)) result }
    ensures live { IfOk result (IsGivenIn setting.now.heap.now) }
    ensures files { OnlyReads (files_seen F.held F.read_faults F.misses F.longs F.write_faults)
        files.old files.new result }
{
    match value(alloc, head, setting, files, steps) {
        Ok(given) => unread(chained(alloc, called(head), given, brackets, setting, steps)),
        Err(fail) => Err(fail),
    }
}

/// What the call of a table function gives.
#[cycle(value)]
fn bound_call<'a, F: Files, L: Ledger>(
    alloc: Global,
    f: Func,
    args: &[Arg],
    setting: &Setting<'a>,
    files: &mut F,
    steps: &mut Steps<L>,
) -> Result<Given<'a>, ValueFail>
    ensures told { Told (F.held files.old) setting.now
        (bound_table f (map arg_meaning args.now)) result }
    ensures live { IfOk result (IsGivenIn setting.now.heap.now) }
    ensures files { OnlyReads (files_seen F.held F.read_faults F.misses F.longs F.write_faults)
        files.old files.new result }
{
    match bind(alloc, f, args) {
        Ok(()) => table_call(alloc, f, args, setting, files, steps),
        Err(fail) => unread(Err(fail)),
    }
}

/// What the call of a table function gives, once its arguments are bound.
#[cycle(value)]
fn table_call<'a, F: Files, L: Ledger>(
    alloc: Global,
    f: Func,
    args: &[Arg],
    setting: &Setting<'a>,
    files: &mut F,
    steps: &mut Steps<L>,
) -> Result<Given<'a>, ValueFail>
    ensures told { Told (F.held files.old) setting.now
        (table_call f (map arg_meaning args.now)) result }
    ensures live { IfOk result (IsGivenIn setting.now.heap.now) }
    ensures files { OnlyReads (files_seen F.held F.read_faults F.misses F.longs F.write_faults)
        files.old files.new result }
{
    match f {
        Func::DataTable => unread(table_value(alloc, args, setting, steps)),
        Func::Fread => fread_value(alloc, args, setting, files, steps),
        Func::Copy => copy_value(alloc, args, setting, files, steps),
        _ => unread(Err(stop_unbuilt(alloc))),
    }
}

/// The name of the file that `fread` is given.
fn file_argument(alloc: Global, args: &[Arg]) -> Result<&str, EvalFail>
    ensures answer { AnswersAs (λ s. s.now)
        (then_do (argument (map arg_meaning args.now) 0 Formal.File)
        (λ a. named_file a.form)) result }
    ensures own { IfErr result IsOwn }
{
    named_file(alloc, argument(alloc, args, 0, Formal::File)?)
}

/// What a file of this name gives: its table.
fn read_value<'a, F: Files, L: Ledger>(
    alloc: Global,
    name: &str,
    setting: &Setting<'_>,
    files: &mut F,
    steps: &mut Steps<L>,
) -> Result<Given<'a>, ValueFail>
    ensures told { Told (F.held files.old) setting.now (λ w. file_table w.files name.now) result }
    ensures live { IfOk result (IsGivenIn setting.now.heap.now) }
    ensures files { OnlyReads (files_seen F.held F.read_faults F.misses F.longs F.write_faults)
        files.old files.new result }
{
    match file_table(alloc, files, name, steps) {
        Ok((table, warns)) => Ok(Given::plain(Value::New(table), warns)),
        Err(fail) => Err(fail),
    }
}

/// What `fread` gives: the table of the file that a text literal names.
fn fread_value<'a, F: Files, L: Ledger>(
    alloc: Global,
    args: &[Arg],
    setting: &Setting<'_>,
    files: &mut F,
    steps: &mut Steps<L>,
) -> Result<Given<'a>, ValueFail>
    ensures told { Told (F.held files.old) setting.now
        (table_call Func.Fread (map arg_meaning args.now)) result }
    ensures live { IfOk result (IsGivenIn setting.now.heap.now) }
    ensures files { OnlyReads (files_seen F.held F.read_faults F.misses F.longs F.write_faults)
        files.old files.new result }
{
    match file_argument(alloc, args) {
        Ok(name) => read_value(alloc, name, setting, files, steps),
        Err(fail) => unread(Err(fail)),
    }
}

/// What `copy` gives: the table of its argument once more.
#[cycle(value)]
fn copy_value<'a, F: Files, L: Ledger>(
    alloc: Global,
    args: &[Arg],
    setting: &Setting<'a>,
    files: &mut F,
    steps: &mut Steps<L>,
) -> Result<Given<'a>, ValueFail>
    ensures told { Told (F.held files.old) setting.now
        (table_call Func.Copy (map arg_meaning args.now)) result }
    ensures live { IfOk result (IsGivenIn setting.now.heap.now) }
    ensures files { OnlyReads (files_seen F.held F.read_faults F.misses F.longs F.write_faults)
        files.old files.new result }
{
    match place(args, 0, Formal::Table) {
        Some(i) => match args.get(i) {
            Some(arg) => {
                is_meant(arg);
                copy_of(alloc, &arg.value, setting, files, steps)
            }
            None => unread(Err(stop_unbuilt(alloc))),
        },
        None => unread(Err(stop_unbuilt(alloc))),
    }
}

/// The table of a value once more, with the value's warnings.
fn copied_value<'a, L: Ledger>(
    alloc: Global,
    given: &Given<'_>,
    setting: &Setting<'_>,
    steps: &mut Steps<L>,
) -> Result<Given<'a>, EvalFail>
    requires { IsValueIn setting.now.heap.now given.now.value }
    ensures answer { AnswersAs (plain_given setting.now.heap.now)
        (copied_value (state_of setting.now.heap.now) (plain_given setting.now.heap.now given.now))
        result }
    ensures live { IfOk result (IsGivenIn setting.now.heap.now) }
    ensures own { IfErr result IsOwn }
{
    let table = copied(
        alloc,
        wanted_table(alloc, &given.value, setting.heap)?,
        steps,
    )?;
    Ok(Given::plain(Value::New(table), given.warns))
}

/// What `copy` of an expression gives.
#[cycle(value)]
fn copy_of<'a, F: Files, L: Ledger>(
    alloc: Global,
    e: &Expr,
    setting: &Setting<'a>,
    files: &mut F,
    steps: &mut Steps<L>,
) -> Result<Given<'a>, ValueFail>
    ensures told { Told (F.held files.old) setting.now (copy_of (meaning e.now)) result }
    ensures live { IfOk result (IsGivenIn setting.now.heap.now) }
    ensures files { OnlyReads (files_seen F.held F.read_faults F.misses F.longs F.write_faults)
        files.old files.new result }
{
    match value(alloc, e, setting, files, steps) {
        Ok(given) => unread(copied_value(alloc, &given, setting, steps)),
        Err(fail) => Err(fail),
    }
}

/// The name of a file, which is a text literal; anything else is E19 with `file`.
pub fn named_file(alloc: Global, e: &Expr) -> Result<&str, EvalFail>
    ensures answer { AnswersAs (λ s. s.now) (named_file (meaning e.now).form) result }
    ensures own { IfErr result IsOwn }
{
    match text_literal(e) {
        Some(name) => Ok(name),
        None => Err(stop(alloc, Code::E19, "file")),
    }
}
