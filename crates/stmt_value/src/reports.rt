//! What tells of a table's orders: `key` and `indices`, as a whole statement's value alone.
ghost use Rattle.std.specs.Prelude.{◌≡◌, IfErr, IfOk, map};
ghost use Rattle.eval_fail.specs.Answers.{AnswersAs, IsOwn};
ghost use Rattle.func_table.specs.Calls.{func_of};
ghost use Rattle.session_model.specs.Meaning.{arg_meaning, meaning};
ghost use Rattle.session_model.specs.Orders.{report, told_of};
ghost use Rattle.stmt_value.specs.Reports.{bound_report, report_func, reported, IsReport};
ghost use Rattle.stmt_value.specs.Values.{plain_given, IsGivenIn};
ghost use Rattle.table_heap.specs.Seen.{HeapSeen};
ghost use Rattle.table_heap.specs.State.{state_of};
ghost use Rattle.table_report.specs.Told.{told_seen};

use crate::given::{Given, Value};
use arg_bind::bind;
use dt_tree::{Arg, Expr};
use eval_fail::EvalFail;
use func_table::{Func, Kind, func_named, kind_of};
use na_vector::Column;
use std::alloc::Global;
use stmt_setting::Setting;
use table_argument::{named_table, table_of};

/// A call that tells of a table's orders.
#[derive(Clone, Copy)]
pub struct ReportCall<'a> {
    pub func: Func,
    pub args: &'a [Arg],
}

/// The function, where it tells of a table's orders.
fn report_func(f: Func) -> Option<Func>
    ensures { result ≡ report_func f }
{
    match kind_of(f) {
        Kind::Report => Some(f),
        _ => None,
    }
}

/// The function of this name, where it tells of a table's orders.
fn reported(name: &str) -> Option<Func>
    ensures { result ≡ reported (func_of name.now) }
{
    match func_named(name) {
        Some(f) => report_func(f),
        None => None,
    }
}

/// The call that tells of a table's orders, also in parentheses, where the expression is one.
pub fn report_call(e: &Expr) -> Option<ReportCall<'_>>
    ensures { IsReport (meaning e.now) result }
{
    match e {
        Expr::Paren { inner } => report_call(inner.get()),
        Expr::Call { name, args } => match reported(name.as_str()) {
            Some(func) => Some(ReportCall {
                func,
                args: args.as_slice(),
            }),
            None => None,
        },
        _ => None,
    }
}

/// A vector of texts, or NULL, as a value.
fn told_value<'a>(told: Option<Column>) -> Given<'a>
    ensures given { (h : HeapSeen) → plain_given h result ≡ told_seen told }
    ensures live { (h : HeapSeen) → IsGivenIn h result }
{
    match told {
        Some(column) => Given::quiet(Value::Cells(column)),
        None => Given::quiet(Value::Null),
    }
}

/// What the call of `key` or `indices` gives: E19 for its arguments first, then E19 with `D`, E02 or
/// E20 for the table; then the names of the key's columns, or of each index, or NULL.
pub fn report_value<'a>(
    alloc: Global,
    call: ReportCall<'_>,
    setting: &Setting<'_>,
) -> Result<Given<'a>, EvalFail>
    ensures answer { AnswersAs (plain_given setting.now.heap.now)
        (bound_report call.entry.func (map arg_meaning call.entry.args.now)
        (state_of setting.now.heap.now)) result }
    ensures live { IfOk result (IsGivenIn setting.now.heap.now) }
    ensures own { IfErr result IsOwn }
{
    bind(alloc, call.func, call.args)?;
    let id = named_table(alloc, call.args, setting.heap)?;
    let told = table_report::report(alloc, call.func, table_of(setting.heap, id))?;
    Ok(told_value(told))
}
