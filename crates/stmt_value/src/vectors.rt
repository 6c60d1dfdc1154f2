ghost use Rattle.std.specs.Prelude.{IfOk, IfErr, None, map};
ghost use Rattle.eval_fail.specs.Answers.{AnswersAs, IsOwn};
ghost use Rattle.session_model.specs.Calls.{data_table};
ghost use Rattle.session_model.specs.Meaning.{meaning, arg_meaning, vector_gives};
ghost use Rattle.stmt_value.specs.Values.{plain_given, scene, IsGivenIn};

use crate::given::{Given, Value};
use dt_base::Steps;
use dt_query::arguments;
use dt_tree::{Arg, Expr};
use eval_fail::EvalFail;
use expr_eval::{check, eval};
use na_vector::Frame;
use std::alloc::Global;
use std::sync::ledger::Ledger;
use stmt_setting::{Setting, outside};

/// What an expression over the script's names gives: a vector. Its type comes before its value.
pub fn vector_value<'a, L: Ledger>(
    alloc: Global,
    e: &Expr,
    setting: &Setting<'_>,
    steps: &mut Steps<L>,
) -> Result<Given<'a>, EvalFail>
    ensures given { AnswersAs (plain_given setting.now.heap.now)
        (vector_gives (meaning e.now).check (meaning e.now).value (scene None setting.now)) result }
    ensures live { IfOk result (IsGivenIn setting.now.heap.now) }
    ensures own { IfErr result IsOwn }
{
    let empty = Frame::new(alloc);
    let scope = outside(&empty, setting);
    let _kind = check(alloc, e, &scope)?;
    let valued = eval(alloc, e, &scope, steps)?;
    Ok(Given::plain(Value::Cells(valued.column), valued.warns))
}

/// What `data.table` gives: the table of its arguments, each an expression over the script's names.
pub fn table_value<'a, L: Ledger>(
    alloc: Global,
    args: &[Arg],
    setting: &Setting<'_>,
    steps: &mut Steps<L>,
) -> Result<Given<'a>, EvalFail>
    ensures given { AnswersAs (plain_given setting.now.heap.now)
        (data_table (map arg_meaning args.now) (scene None setting.now)) result }
    ensures live { IfOk result (IsGivenIn setting.now.heap.now) }
    ensures own { IfErr result IsOwn }
{
    let empty = Frame::new(alloc);
    let scope = outside(&empty, setting);
    let new = arguments(alloc, args, &scope, steps)?;
    Ok(Given::plain(Value::New(new.table), new.warns))
}
