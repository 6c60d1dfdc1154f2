ghost use Rattle.std.specs.Prelude.{◌≡◌, ◌<◌, ◌∷◌, [], length, IfOk, IfErr, map};
ghost use Rattle.bracket_columns.specs.Answers.{computed_seen, new_seen};
ghost use Rattle.bracket_columns.specs.Texts.{answer_by, call_texts, texts_or};
ghost use Rattle.bracket_rows.specs.Scopes.{IsOverRows};
ghost use Rattle.eval_fail.specs.Answers.{AnswersAs, IsOwn};
ghost use Rattle.expr_scope.specs.Scope.{env_of, IsScope};
ghost use Rattle.session_model.specs.Columns.{list_answer, text_columns, vector_answer};
ghost use Rattle.session_model.specs.Meaning.{arg_meaning, meaning};
ghost use Rattle.session_model.specs.Shapes.{answer_in, listing_shape, shape_answer};
ghost use Rattle.vector_model.specs.Then.{then_do};

use crate::answer::Computed;
use crate::lists::{add, list_answer};
use crate::texts::{call_texts, text_columns};
use arg_bind::text_literal;
use dt_base::{ColName, Steps, Text};
use dt_tree::{Arg, Expr};
use eval_fail::EvalFail;
use expr_eval::{Scope, Vars, check, eval};
use func_table::is_list;
use std::alloc::{AllocError, Global};
use std::sync::ledger::Ledger;

/// The vector of an expression: its type first, then its value.
fn vector_answer<V: Vars, L: Ledger>(
    alloc: Global,
    e: &Expr,
    s: &Scope<'_, V>,
    steps: &mut Steps<L>,
) -> Result<Computed, EvalFail>
    requires { IsScope s.now }
    ensures answer { AnswersAs computed_seen
        (vector_answer (meaning e.now).check (meaning e.now).value (env_of V.bound s.now)) result }
    ensures own { IfErr result IsOwn }
{
    check(alloc, e, s)?;
    let value = eval(alloc, e, s, steps)?;
    Ok(Computed::Vector(value))
}

/// A list of one name.
fn one_name(alloc: Global, name: &str) -> Result<Vec<ColName>, AllocError>
    ensures { IfOk result (λ v. v.items ≡ name.now ∷ []) }
{
    let name = Text::make(alloc, name)?;
    let mut names = Vec::new(alloc);
    add(&mut names, name)?;
    Ok(names)
}

/// The columns of these names, one or more.
fn named_columns<V: Vars, L: Ledger>(
    alloc: Global,
    names: &[ColName],
    s: &Scope<'_, V>,
    steps: &mut Steps<L>,
) -> Result<Computed, EvalFail>
    requires scope { IsScope s.now }
    requires rows { IsOverRows s.now }
    requires some { 0 < length names.now }
    ensures answer { AnswersAs computed_seen (text_columns names.now (env_of V.bound s.now))
        result }
    ensures own { IfErr result IsOwn }
{
    let table = text_columns(alloc, names, s, steps)?;
    Ok(Computed::Table(table))
}

/// The column that a text names.
fn text_answer<V: Vars, L: Ledger>(
    alloc: Global,
    text: &str,
    s: &Scope<'_, V>,
    steps: &mut Steps<L>,
) -> Result<Computed, EvalFail>
    requires scope { IsScope s.now }
    requires rows { IsOverRows s.now }
    ensures answer { AnswersAs computed_seen (text_columns (text.now ∷ []) (env_of V.bound s.now))
        result }
    ensures own { IfErr result IsOwn }
{
    let names = one_name(alloc, text)?;
    named_columns(alloc, &names, s, steps)
}

/// What a call that is no list gives: the columns that its texts name, or a vector.
fn texts_or_vector<V: Vars, L: Ledger>(
    alloc: Global,
    e: &Expr,
    name: &str,
    args: &[Arg],
    s: &Scope<'_, V>,
    steps: &mut Steps<L>,
) -> Result<Computed, EvalFail>
    requires scope { IsScope s.now }
    requires rows { IsOverRows s.now }
    ensures answer { AnswersAs computed_seen
        (texts_or (call_texts name.now (map arg_meaning args.now))
        (vector_answer (meaning e.now).check (meaning e.now).value) (env_of V.bound s.now)) result }
    ensures own { IfErr result IsOwn }
{
    let texts = call_texts(alloc, name, args)?;
    match texts {
        Some(names) => named_columns(alloc, &names, s, steps),
        None => vector_answer(alloc, e, s, steps),
    }
}

/// The table of a list's items.
fn items_answer<V: Vars, L: Ledger>(
    alloc: Global,
    word: &str,
    args: &[Arg],
    s: &Scope<'_, V>,
    steps: &mut Steps<L>,
) -> Result<Computed, EvalFail>
    requires { IsScope s.now }
    ensures answer { AnswersAs computed_seen
        (list_answer word.now (map arg_meaning args.now) (env_of V.bound s.now)) result }
    ensures own { IfErr result IsOwn }
{
    let table = list_answer(alloc, word, args, s, steps)?;
    Ok(Computed::Table(table))
}

/// What the call e of this name with these arguments gives.
fn call_answer<V: Vars, L: Ledger>(
    alloc: Global,
    e: &Expr,
    name: &str,
    args: &[Arg],
    s: &Scope<'_, V>,
    steps: &mut Steps<L>,
) -> Result<Computed, EvalFail>
    requires scope { IsScope s.now }
    requires rows { IsOverRows s.now }
    ensures answer { AnswersAs computed_seen
        (answer_by name.now (map arg_meaning args.now)
        (vector_answer (meaning e.now).check (meaning e.now).value) (env_of V.bound s.now)) result }
    ensures own { IfErr result IsOwn }
{
    if is_list(name) {
        return items_answer(alloc, name, args, s, steps);
    }
    texts_or_vector(alloc, e, name, args, s, steps)
}

/// What an expression that is no text gives.
#[tactic(auto, using(crate::proofs::TextFacts::calls, session_model::proofs::Forms::written))]
fn untexted_answer<V: Vars, L: Ledger>(
    alloc: Global,
    j: &Expr,
    s: &Scope<'_, V>,
    steps: &mut Steps<L>,
) -> Result<Computed, EvalFail>
    requires scope { IsScope s.now }
    requires rows { IsOverRows s.now }
    ensures answer { AnswersAs computed_seen
        (then_do (listing_shape (meaning j.now).listing (meaning j.now) (env_of V.bound s.now))
        (shape_answer (env_of V.bound s.now))) result }
    ensures own { IfErr result IsOwn }
{
    match j {
        Expr::Call { name, args } => {
            call_answer(alloc, j, name.as_str(), args.as_slice(), s, steps)
        }
        _ => vector_answer(alloc, j, s, steps),
    }
}

/// What an expression gives as the j of a bracket over this scope.
///
/// `.( )` and `list( )` give a table, and are E19 with their word where they are empty. A text
/// literal, and `c()` of such texts alone, give the columns of these names as a table. Any other
/// expression gives a vector, its type first and then its value. It touches what valuing touches, a
/// cell for each place where one cell is repeated, and each cell of a column that a text names.
/// dtq's own rule, docs/LANGUAGE.md, section "Brackets".
#[tactic(auto, using(crate::proofs::TextFacts::literals))]
pub fn answer_of<V: Vars, L: Ledger>(
    alloc: Global,
    j: &Expr,
    s: &Scope<'_, V>,
    steps: &mut Steps<L>,
) -> Result<Computed, EvalFail>
    requires scope { IsScope s.now }
    requires rows { IsOverRows s.now }
    ensures answer { AnswersAs computed_seen (answer_in (meaning j.now) (env_of V.bound s.now))
        result }
    ensures own { IfErr result IsOwn }
{
    match text_literal(j) {
        Some(text) => text_answer(alloc, text, s, steps),
        None => untexted_answer(alloc, j, s, steps),
    }
}
