ghost use Rattle.std.specs.Prelude.{◌≡◌, IfOk, IfErr, is_some, option_map};
ghost use Rattle.bracket_forms.specs.Items.{asked_seen};
ghost use Rattle.bracket_rows.specs.Found.{found_of, is_chosen, AreFound, KeepsOrder};
ghost use Rattle.dt_base.specs.Warns.{no_warns};
ghost use Rattle.dt_query.specs.Answers.{plain_answer, OutcomeFits};
ghost use Rattle.dt_query.specs.declared.answer.Outcome.TheVariants.{Same};
ghost use Rattle.dt_table.specs.Plain.{plain};
ghost use Rattle.eval_fail.specs.Answers.{AnswersAs, IsOwn};
ghost use Rattle.session_model.specs.Found.{found};
ghost use Rattle.session_model.specs.Meaning.{bracket_meaning, meaning, second_meaning};
ghost use Rattle.session_model.specs.Query.{asked_answer, bracket_answer, ungrouped};
ghost use Rattle.session_model.specs.Second.{second_answer};
ghost use Rattle.vector_model.specs.Then.{then_do};

use crate::rules::{is_empty, joins_nothing, ungrouped};
use crate::second::second_answer;
use crate::{Answer, Options, Outcome};
use bracket_forms::{Asked, asked};
use bracket_rows::{Found, rows_found};
use dt_base::{Steps, Warns};
use dt_table::Table;
use dt_tree::{Bracket, Expr, Second};
use eval_fail::EvalFail;
use expr_eval::Vars;
use std::alloc::Global;
use std::sync::ledger::Ledger;

/// The same table.
fn same() -> Answer
    ensures outcome { result.outcome ≡ Same }
    ensures warns { result.warns ≡ no_warns }
{
    Answer {
        outcome: Outcome::Same,
        warns: Warns::none(),
    }
}

/// The rows that i finds, unless an argument wants a join.
fn found<V: Vars, L: Ledger>(
    alloc: Global,
    q: &Asked<'_>,
    i: &Option<Expr>,
    x: &Table,
    vars: &V,
    steps: &mut Steps<L>,
) -> Result<Found, EvalFail>
    ensures answer { AnswersAs (found_of x.now)
        (found (asked_seen q.now) (option_map meaning i.now) (plain x.now) (V.bound vars.now))
        result }
    ensures rows { IfOk result (AreFound x.now) }
    ensures chosen { IfOk result (λ f. is_chosen f ≡ is_some i.now) }
    ensures order { IfOk result KeepsOrder }
    ensures own { IfErr result IsOwn }
{
    let rows = rows_found(alloc, i, x, vars, steps)?;
    joins_nothing(alloc, q)?;
    Ok(rows)
}

/// What a bracket gives once i has found its rows: groups are not served, then j.
fn answer_over<V: Vars, L: Ledger>(
    alloc: Global,
    wanted: &Asked<'_>,
    second: &Option<Second>,
    x: &Table,
    vars: &V,
    rows: &Found,
    steps: &mut Steps<L>,
) -> Result<Answer, EvalFail>
    requires rows { AreFound x.now rows.now }
    requires order { KeepsOrder rows.now }
    ensures answer { AnswersAs (plain_answer x.now) (then_do (ungrouped (asked_seen wanted.now))
        (λ _. second_answer (is_chosen rows.now) (option_map second_meaning second.now)
        (plain x.now) (V.bound vars.now) (found_of x.now rows.now))) result }
    ensures fits { IfOk result (λ a. OutcomeFits x.now a.outcome) }
    ensures own { IfErr result IsOwn }
{
    ungrouped(alloc, wanted)?;
    second_answer(alloc, second, x, vars, rows, steps)
}

/// What a bracket gives that has something in it, in the one order: what its arguments ask; the
/// rows that i finds, and arguments that want a join; groups; and j.
fn asked_answer<V: Vars, L: Ledger>(
    alloc: Global,
    q: &Bracket,
    x: &Table,
    vars: &V,
    steps: &mut Steps<L>,
) -> Result<Answer, EvalFail>
    ensures answer { AnswersAs (plain_answer x.now)
        (asked_answer (bracket_meaning q.now) (plain x.now) (V.bound vars.now)) result }
    ensures fits { IfOk result (λ a. OutcomeFits x.now a.outcome) }
    ensures own { IfErr result IsOwn }
{
    let wanted = asked(alloc, q)?;
    let rows = found(alloc, &wanted, &q.first, x, vars, steps)?;
    answer_over(alloc, &wanted, &q.second, x, vars, &rows, steps)
}

/// What one bracket gives behind the table `x`, where `vars` are the script's names. `y` and `opts`
/// are for joins and indices, which are not served yet, and nothing looks at them.
///
/// With nothing in it the bracket gives the same table, with an i alone a new table of the rows
/// that i finds, with a j what j gives over these rows, or over all, and with an assignment the
/// same table, changed. A logical i alone keeps the table's key; any other has none. First come the faults of its arguments as written: E19 with the argument's
/// word. Then those of i, by its type, then its value, then its rows; then E19 with the first
/// argument that wants a join. Groups and `.SDcols` are not served, which is E19 with `unbuilt`.
/// Then those of j, by its types, then its values, then its lengths, names and limits; or those of
/// the assignment. The warnings are those of i and of j.
///
/// Without i, j looks at the table's own columns. With one, the rows are gathered once. The
/// manual's page data.table; the order is dtq's own, docs/LANGUAGE.md, section "Brackets".
pub fn run_query<V: Vars, L: Ledger>(
    alloc: Global,
    q: &Bracket,
    x: &Table,
    _y: Option<&Table>,
    vars: &V,
    _opts: &Options,
    steps: &mut Steps<L>,
) -> Result<Answer, EvalFail>
    ensures answer { AnswersAs (plain_answer x.now)
        (bracket_answer (bracket_meaning q.now) (plain x.now) (V.bound vars.now)) result }
    ensures fits { IfOk result (λ a. OutcomeFits x.now a.outcome) }
    ensures own { IfErr result IsOwn }
{
    if is_empty(q) {
        return Ok(same());
    }
    asked_answer(alloc, q, x, vars, steps)
}
