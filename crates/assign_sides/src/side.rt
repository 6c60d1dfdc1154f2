ghost use Rattle.std.specs.Prelude.{◌≡◌, ◌++◌, ◌∷◌, [], Some, IfErr, IfOk, OnOk, map};
ghost use Rattle.assign_sides.specs.Seen.{arg_item, item_seen, items_seen, side_seen};
ghost use Rattle.eval_fail.specs.Answers.{AnswersAs, IsOwn};
ghost use Rattle.session_model.specs.Assigned.{call_names, call_side, is_null, list_side};
ghost use Rattle.session_model.specs.Assigned.{listing_side, right_side, valued_item};
ghost use Rattle.session_model.specs.Binding.{word_in};
ghost use Rattle.session_model.specs.Items.{bare_item};
ghost use Rattle.session_model.specs.Meaning.{arg_meaning, meaning};

use crate::left::add_name;
use dt_base::{Code, ColName, Text};
use dt_tree::{Arg, Expr};
use eval_fail::{EvalFail, stop};
use func_table::is_list;
use std::alloc::{AllocError, Global};
use written_forms::{Written, form_of};

/// The right side of an assignment, as it is written.
#[derive(Drop)]
pub enum Side<'a> {
    /// One expression, whose value all names get.
    ForAll(&'a Expr),
    /// For each name in order an expression, or none where the word NULL stands, which deletes.
    ForEach(Vec<Option<&'a Arg>>),
    /// The word NULL alone, which deletes all.
    Deletes,
}

/// Whether the expression is the word NULL, not in parentheses.
pub fn is_null(e: &Expr) -> bool
    ensures { result ≡ is_null (meaning e.now).form }
{
    match form_of(e) {
        Written::NullWord => true,
        _ => false,
    }
}

/// An item of a list; the word NULL is none.
#[tactic(auto, using(crate::proofs::Items::items))]
fn valued_item(arg: &Arg) -> Option<&Arg>
    ensures { item_seen result ≡ valued_item (arg_item arg.now) }
{
    if is_null(&arg.value) { None } else { Some(arg) }
}

/// One more item.
fn add_item<'a>(items: &mut Vec<Option<&'a Arg>>, item: Option<&'a Arg>) -> Result<(), AllocError>
    ensures { OnOk result (items.new.items ≡ items.old.items ++ item.entry ∷ []) }
{
    items.push(item)?;
    Ok(())
}

/// The items of a list.
#[tactic(auto, using(crate::proofs::Items::items))]
fn valued_items<'a>(alloc: Global, args: &'a [Arg]) -> Result<Vec<Option<&'a Arg>>, AllocError>
    ensures { IfOk result (λ v. items_seen v.items ≡ map valued_item (map arg_item args.now)) }
{
    let mut items = Vec::new(alloc);
    for arg in args {
        add_item(&mut items, valued_item(arg))?;
    }
    Ok(items)
}

/// A list of one item or more; an empty one is E19 with its word.
#[tactic(auto, using(crate::proofs::Items::items))]
fn list_side<'a>(alloc: Global, word: &str, args: &'a [Arg]) -> Result<Side<'a>, EvalFail>
    ensures answer { AnswersAs side_seen (list_side word.now (map arg_item args.now)) result }
    ensures own { IfErr result IsOwn }
{
    if args.is_empty() {
        return Err(stop(alloc, Code::E19, word));
    }
    Ok(Side::ForEach(valued_items(alloc, args)?))
}

/// A call: a list, or any other expression.
fn in_call<'a>(
    alloc: Global,
    e: &'a Expr,
    name: &str,
    args: &'a [Arg],
) -> Result<Side<'a>, EvalFail>
    ensures answer { AnswersAs side_seen (listing_side
        (Some (record { word = name.now; items = map arg_item args.now })) (bare_item
        (meaning e.now))) result }
    ensures own { IfErr result IsOwn }
{
    if is_list(name) {
        return list_side(alloc, name, args);
    }
    Ok(Side::ForAll(e))
}

#[tactic(auto, using(session_model::proofs::Forms::written))]
fn listing_side(alloc: Global, e: &Expr) -> Result<Side<'_>, EvalFail>
    ensures answer { AnswersAs side_seen
        (listing_side (meaning e.now).listing (bare_item (meaning e.now))) result }
    ensures own { IfErr result IsOwn }
{
    match e {
        Expr::Call { name, args } => in_call(alloc, e, name.as_str(), args.as_slice()),
        _ => Ok(Side::ForAll(e)),
    }
}

/// What the right side of an assignment is as it is written: the word NULL, which deletes; the
/// items of `.( )` or `list( )`, whose names have no effect; or one expression for all names.
///
/// An empty list is E19 with its word. No type and no value is looked at, and no cell touched. The
/// manual's page `:=`; docs/LANGUAGE.md, section "Assignment".
pub fn right_side(alloc: Global, e: &Expr) -> Result<Side<'_>, EvalFail>
    ensures answer { AnswersAs side_seen (right_side (meaning e.now)) result }
    ensures own { IfErr result IsOwn }
{
    if is_null(e) {
        return Ok(Side::Deletes);
    }
    listing_side(alloc, e)
}

/// The right side that the arguments of the call of `:=` are together.
#[tactic(auto, using(crate::proofs::Items::side_of_call))]
pub fn call_side(alloc: Global, args: &[Arg]) -> Result<Side<'_>, AllocError>
    ensures { IfOk result (λ side. side_seen side ≡ call_side (map arg_meaning args.now)) }
{
    Ok(Side::ForEach(valued_items(alloc, args)?))
}

/// The name of an argument of the call of `:=`; the grammar wants one of each.
fn call_name(alloc: Global, arg: &Arg) -> Result<ColName, AllocError>
    ensures { IfOk result (λ name. name ≡ word_in (arg_meaning arg.now).name) }
{
    match &arg.name {
        Some(name) => name.copy(),
        None => Text::make(alloc, ""),
    }
}

/// The left side that the arguments of the call of `:=` are together: their names, in order.
#[tactic(auto, using(crate::proofs::Items::items))]
pub fn call_names(alloc: Global, args: &[Arg]) -> Result<Vec<ColName>, AllocError>
    ensures { IfOk result (λ v. v.items ≡ call_names (map arg_meaning args.now)) }
{
    let mut names = Vec::new(alloc);
    for arg in args {
        let name = call_name(alloc, arg)?;
        add_name(&mut names, name)?;
    }
    Ok(names)
}
