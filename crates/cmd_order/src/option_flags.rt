ghost use Rattle.std.specs.Prelude.{◌≡◌, [], IfErr, IfOk, map};
ghost use Rattle.eval_fail.specs.Answers.{Answers, AnswersAs, IsOwn};
ghost use Rattle.session_model.specs.Meaning.{arg_meaning, meaning};
ghost use Rattle.session_model.specs.NamedTable.{argument_for};
ghost use Rattle.session_model.specs.Orders.{flag_or, options_effect};
ghost use Rattle.cmd_order.specs.Tables.{flag_given};
ghost use Rattle.stmt_change.specs.Effects.{FitsIn, plain_effect};

use arg_bind::flag_literal;
use dt_base::{Code, Warns};
use dt_tree::{Arg, Expr};
use eval_fail::{EvalFail, stop};
use func_table::{Formal, Options, formal_word};
use std::alloc::Global;
use stmt_change::{Change, Effect};
use stmt_setting::Setting;
use table_argument::argument;

/// The flag that is written for an option. Anything else than TRUE or FALSE is E19 with the
/// option's name.
fn flag_given(alloc: Global, formal: Formal, value: &Expr) -> Result<bool, EvalFail>
    ensures answer { Answers (flag_given formal (meaning value.now).form) result }
    ensures own { IfErr result IsOwn }
{
    match flag_literal(value) {
        Some(flag) => Ok(flag),
        None => Err(stop(alloc, Code::E19, formal_word(formal))),
    }
}

/// The flag of an option, or the old one where it is left out.
fn flag_or(alloc: Global, args: &[Arg], formal: Formal, old: bool) -> Result<bool, EvalFail>
    ensures answer { Answers
        (flag_or formal old (argument_for (map arg_meaning args.now) [] formal)) result }
    ensures own { IfErr result IsOwn }
{
    match argument(args, &[], formal) {
        Some(value) => flag_given(alloc, formal, value),
        None => Ok(old),
    }
}

/// What `options` does: the session's options `datatable.auto.index` and `datatable.use.index` are
/// what it says, TRUE or FALSE as written, and one that is left out stays.
///
/// Anything else is E19 with the option's name, of the first of the two. It looks at each argument,
/// and touches nothing. The manual's page datatable.optimize.
pub fn set_options(alloc: Global, args: &[Arg], setting: &Setting<'_>) -> Result<Effect, EvalFail>
    ensures answer { AnswersAs (plain_effect setting.now.heap.now)
        (options_effect (map arg_meaning args.now) setting.now.options) result }
    ensures fits { IfOk result (λ e. FitsIn setting.now.heap.now e.change) }
    ensures own { IfErr result IsOwn }
{
    let old = setting.options;
    let auto_index = flag_or(alloc, args, Formal::AutoIndex, old.auto_index)?;
    let use_index = flag_or(alloc, args, Formal::UseIndex, old.use_index)?;
    let options = Options {
        auto_index,
        use_index,
    };
    Ok(Effect::changes(alloc, Change::of_options(options), Warns::none()))
}
