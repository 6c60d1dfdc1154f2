ghost use Rattle.std.specs.Prelude.{◌≡◌, ◌++◌, ◌∷◌, [], IfErr, IfOk, OnOk, codes, map};
ghost use Rattle.std.specs.Option.{option_copied};
ghost use Rattle.assign_sides.specs.Seen.{arg_item};
ghost use Rattle.eval_fail.specs.Answers.{AnswersAs, IsOwn};
ghost use Rattle.session_model.specs.Asked.{listed, wanted};
ghost use Rattle.session_model.specs.Assigned.{left_call, left_listing, left_names, left_text};
ghost use Rattle.session_model.specs.Expression.{each};
ghost use Rattle.session_model.specs.Meaning.{meaning};

use arg_bind::{bare_name, text_literal};
use dt_base::{Code, ColName, Text};
use dt_tree::{Arg, Expr};
use eval_fail::{EvalFail, stop};
use std::alloc::{AllocError, Global};

/// The argument that faults of a left side name.
const LEFT: &str = "j";

/// The text of an argument that is a text literal without a name.
#[tactic(auto, using(expr_scope::proofs::Ends::argument_means))]
fn left_text(arg: &Arg) -> Option<&str>
    ensures { option_copied result ≡ left_text (arg_item arg.now) }
{
    match &arg.name {
        Some(_) => None,
        None => text_literal(&arg.value),
    }
}

/// The same as a name of its own. An argument that is no text literal, or has a name, is E19 with
/// `j`.
fn wanted_text(alloc: Global, arg: &Arg) -> Result<ColName, EvalFail>
    ensures answer { AnswersAs (λ name. name) (wanted (codes "j") (left_text
        (arg_item arg.now))) result }
    ensures own { IfErr result IsOwn }
{
    match left_text(arg) {
        Some(text) => Ok(Text::make(alloc, text)?),
        None => Err(stop(alloc, Code::E19, LEFT)),
    }
}

/// One more name.
pub fn add_name(names: &mut Vec<ColName>, name: ColName) -> Result<(), AllocError>
    ensures { OnOk result (names.new.items ≡ names.old.items ++ name ∷ []) }
{
    names.push(name)?;
    Ok(())
}

/// The texts of these arguments, or the first fault.
fn left_texts(alloc: Global, args: &[Arg]) -> Result<Vec<ColName>, EvalFail>
    ensures answer { AnswersAs (λ v. v.items)
        (each (λ i. wanted (codes "j") (left_text i)) (map arg_item args.now)) result }
    ensures own { IfErr result IsOwn }
{
    let mut names = Vec::new(alloc);
    for arg in args {
        let name = wanted_text(alloc, arg)?;
        add_name(&mut names, name)?;
    }
    Ok(names)
}

/// The same of one argument or more.
fn some_texts(alloc: Global, args: &[Arg]) -> Result<Vec<ColName>, EvalFail>
    ensures answer { AnswersAs (λ v. v.items) (listed (codes "j") left_text
        (map arg_item args.now)) result }
    ensures own { IfErr result IsOwn }
{
    if args.is_empty() {
        return Err(stop(alloc, Code::E19, LEFT));
    }
    left_texts(alloc, args)
}

/// The names in a call: the texts of `c`.
fn left_call(alloc: Global, name: &str, args: &[Arg]) -> Result<Vec<ColName>, EvalFail>
    ensures answer { AnswersAs (λ v. v.items) (left_call name.now (map arg_item args.now)) result }
    ensures own { IfErr result IsOwn }
{
    if name == "c" {
        return some_texts(alloc, args);
    }
    Err(stop(alloc, Code::E19, LEFT))
}

#[tactic(auto, using(session_model::proofs::Forms::written))]
fn left_listing(alloc: Global, left: &Expr) -> Result<Vec<ColName>, EvalFail>
    ensures answer { AnswersAs (λ v. v.items) (left_listing (meaning left.now).listing) result }
    ensures own { IfErr result IsOwn }
{
    match left {
        Expr::Call { name, args } => left_call(alloc, name.as_str(), args.as_slice()),
        _ => Err(stop(alloc, Code::E19, LEFT)),
    }
}

/// A list of one name.
fn one_name(alloc: Global, name: &str) -> Result<Vec<ColName>, AllocError>
    ensures { IfOk result (λ v. v.items ≡ name.now ∷ []) }
{
    let mut names = Vec::new(alloc);
    let name = Text::make(alloc, name)?;
    add_name(&mut names, name)?;
    Ok(names)
}

/// The names on the left side of an assignment: a bare name, a text literal, or such texts in `c`
/// without names of their own. A name is the column's, also one that is special elsewhere.
///
/// Anything else is E19 with `j`. No name is looked up, and an empty one may be among them. It
/// touches no cell. The manual's page `:=`; docs/LANGUAGE.md, section "Assignment".
pub fn left_names(alloc: Global, left: &Expr) -> Result<Vec<ColName>, EvalFail>
    ensures answer { AnswersAs (λ v. v.items) (left_names (meaning left.now)) result }
    ensures own { IfErr result IsOwn }
{
    if let Some(name) = bare_name(left) {
        return Ok(one_name(alloc, name)?);
    }
    if let Some(text) = text_literal(left) {
        return Ok(one_name(alloc, text)?);
    }
    left_listing(alloc, left)
}
