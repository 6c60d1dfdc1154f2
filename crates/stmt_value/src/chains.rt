ghost use Rattle.std.specs.Prelude.{◌≡◌, IfOk, IfErr, map};
ghost use Rattle.dt_table.specs.Plain.{plain};
ghost use Rattle.eval_fail.specs.Answers.{AnswersAs, IsOwn};
ghost use Rattle.session_model.specs.Meaning.{meaning, bracket_meaning};
ghost use Rattle.session_model.specs.Query.{head_table, shown_after, bracketed, chained};
ghost use Rattle.stmt_value.specs.Chains.{answered};
ghost use Rattle.stmt_value.specs.Values.{plain_value, plain_given, head_of, IsGivenIn, IsValueIn};
ghost use Rattle.table_heap.specs.Seen.{HeapSeen};
ghost use Rattle.table_heap.specs.State.{state_of};

use crate::given::{Given, Value};
use dt_base::{Code, Steps};
use dt_query::{is_empty, run_query};
use dt_table::Table;
use dt_tree::{Bracket, Expr};
use eval_fail::{EvalFail, stop};
use std::alloc::Global;
use std::sync::ledger::Ledger;
use stmt_setting::Setting;
use table_heap::Heap;

/// The word of what stands before a bracket and has no name.
const NO_NAME: &str = "[";

/// What an expression is called as the head of a bracket: a name by itself, also in parentheses,
/// and anything else `[`.
pub fn called(e: &Expr) -> &str
    ensures { result.now ≡ (meaning e.now).called }
{
    match e {
        Expr::Name { name } => name.as_str(),
        Expr::Paren { inner } => called(inner.get()),
        _ => NO_NAME,
    }
}

/// The table before a bracket: a vector is E20 with what it is called by, and NULL is E04.
fn head_table<'v>(
    alloc: Global,
    word: &str,
    value: &'v Value<'_>,
    heap: &'v Heap,
) -> Result<&'v Table, EvalFail>
    requires { IsValueIn heap.now value.now }
    ensures answer { AnswersAs (λ t. plain t.now)
        (head_table (state_of heap.now) word.now (plain_value value.now)) result }
    ensures table { IfOk result (λ t. t.now ≡ head_of heap.now value.now) }
    ensures own { IfErr result IsOwn }
{
    match value {
        Value::Named(id) => Ok(heap.table(*id)),
        Value::New(table) => Ok(table),
        Value::Cells(_) | Value::Kept(_) => Err(stop(alloc, Code::E20, word)),
        Value::Null => Err(stop(alloc, Code::E04, "NULL")),
    }
}

/// What the bracket behind an assignment gives: an empty one shows the table, and any other is E01.
fn shown_after<'a>(
    alloc: Global,
    given: Given<'a>,
    bracket: &Bracket,
) -> Result<Given<'a>, EvalFail>
    ensures answer { (h : HeapSeen)
        → AnswersAs (plain_given h)
        (shown_after (plain_given h given.entry) (bracket_meaning bracket.now)) result }
    ensures live { (h : HeapSeen) → IsGivenIn h given.entry → IfOk result (IsGivenIn h) }
    ensures own { IfErr result IsOwn }
{
    if is_empty(bracket) {
        Ok(given.shown())
    } else {
        Err(stop(alloc, Code::E01, ""))
    }
}

/// What a bracket gives behind a value.
fn answered<'a, L: Ledger>(
    alloc: Global,
    word: &str,
    given: Given<'a>,
    bracket: &Bracket,
    setting: &Setting<'_>,
    steps: &mut Steps<L>,
) -> Result<Given<'a>, EvalFail>
    requires { IsGivenIn setting.now.heap.now given }
    ensures answer { AnswersAs (plain_given setting.now.heap.now)
        (answered (state_of setting.now.heap.now) word.now
        (plain_given setting.now.heap.now given.entry) (bracket_meaning bracket.now)) result }
    ensures live { IfOk result (IsGivenIn setting.now.heap.now) }
    ensures own { IfErr result IsOwn }
{
    let table = head_table(alloc, word, &given.value, setting.heap)?;
    let answer = run_query(
        alloc,
        bracket,
        table,
        None,
        setting,
        &setting.options,
        steps,
    )?;
    Ok(given.after(answer, steps)?)
}

/// What a value and one bracket behind it give.
fn bracketed<'a, L: Ledger>(
    alloc: Global,
    word: &str,
    given: Given<'a>,
    bracket: &Bracket,
    setting: &Setting<'_>,
    steps: &mut Steps<L>,
) -> Result<Given<'a>, EvalFail>
    requires { IsGivenIn setting.now.heap.now given }
    ensures answer { AnswersAs (plain_given setting.now.heap.now)
        (bracketed (state_of setting.now.heap.now) word.now
        (plain_given setting.now.heap.now given.entry) (bracket_meaning bracket.now)) result }
    ensures live { IfOk result (IsGivenIn setting.now.heap.now) }
    ensures own { IfErr result IsOwn }
{
    if given.shown {
        answered(alloc, word, given, bracket, setting, steps)
    } else {
        shown_after(alloc, given, bracket)
    }
}

/// What a value and the brackets behind it give, from the left; `word` is what it is called by.
pub fn chained<'a, L: Ledger>(
    alloc: Global,
    word: &str,
    given: Given<'a>,
    brackets: &[Bracket],
    setting: &Setting<'_>,
    steps: &mut Steps<L>,
) -> Result<Given<'a>, EvalFail>
    requires { IsGivenIn setting.now.heap.now given }
    ensures answer { AnswersAs (plain_given setting.now.heap.now)
        (chained (state_of setting.now.heap.now) word.now
        (plain_given setting.now.heap.now given.entry) (map bracket_meaning brackets.now)) result }
    ensures live { IfOk result (IsGivenIn setting.now.heap.now) }
    ensures own { IfErr result IsOwn }
{
    let mut called = word;
    let mut whole = given;
    for bracket in brackets {
        whole = bracketed(alloc, called, whole, bracket, setting, steps)?;
        called = NO_NAME;
    }
    Ok(whole)
}
