ghost use Rattle.std.specs.Prelude.{◌≡◌, ◌++◌, ◌∷◌, [], IfErr, IfOk, OnOk, map};
ghost use Rattle.bracket_forms.specs.Items.{by_of, by_seen, call_listing, item_seen, items_of};
ghost use Rattle.bracket_forms.specs.Items.{texts_at, texts_by};
ghost use Rattle.eval_fail.specs.Answers.{AnswersAs, IsNoMemory, IsOwn};
ghost use Rattle.session_model.specs.Asked.{by_items, by_listing, by_name, ByList, ByText};
ghost use Rattle.session_model.specs.Meaning.{meaning};

use crate::items::{By, Item, add_word};
use arg_bind::{bare_name, text_literal};
use dt_base::Code;
use dt_tree::{Arg, Expr};
use eval_fail::{EvalFail, stop};
use func_table::is_list;
use std::alloc::{AllocError, Global};
use written_forms::{call_texts, name_of};

/// One more item.
fn add<'a>(items: &mut Vec<Item<'a>>, item: Item<'a>) -> Result<(), AllocError>
    ensures ok { OnOk result (items.new.items ≡ items.old.items ++ item.entry ∷ []) }
{
    items.push(item)?;
    Ok(())
}

/// Arguments as items.
fn all_items<'a>(alloc: Global, args: &'a [Arg]) -> Result<Vec<Item<'a>>, AllocError>
    ensures { IfOk result (λ v. map item_seen v.items ≡ items_of args.now) }
{
    let mut items = Vec::new(alloc);
    for arg in args {
        let item = Item {
            name: name_of(arg),
            value: &arg.value,
        };
        add(&mut items, item)?;
    }
    Ok(items)
}

/// The items of a list; an empty one is told with its own word.
fn in_list<'a>(alloc: Global, list: &str, args: &'a [Arg]) -> Result<By<'a>, EvalFail>
    ensures answer { AnswersAs by_seen (by_items list.now (items_of args.now)) result }
    ensures own { IfErr result IsOwn }
{
    if args.is_empty() {
        return Err(stop(alloc, Code::E19, list));
    }
    Ok(By::Items(all_items(alloc, args)?))
}

/// The texts in `c`, which has one or more.
fn in_texts<'a>(alloc: Global, word: &str, name: &str, args: &'a [Arg]) -> Result<By<'a>, EvalFail>
    ensures answer { AnswersAs by_seen (texts_by word.now (texts_at name.now args.now)) result }
    ensures own { IfErr result IsOwn }
{
    match call_texts(alloc, name, args)? {
        Some(texts) => Ok(By::Texts(texts)),
        None => Err(stop(alloc, Code::E19, word)),
    }
}

#[tactic(auto, using(crate::proofs::TextFacts::calls))]
fn in_call<'a>(alloc: Global, word: &str, name: &str, args: &'a [Arg]) -> Result<By<'a>, EvalFail>
    ensures answer { AnswersAs by_seen
        (by_listing word.now (call_listing name.now args.now)) result }
    ensures own { IfErr result IsOwn }
{
    if is_list(name) {
        return in_list(alloc, name, args);
    }
    in_texts(alloc, word, name, args)
}

#[tactic(auto, using(session_model::proofs::Forms::written))]
fn listed<'a>(alloc: Global, word: &str, e: &'a Expr) -> Result<By<'a>, EvalFail>
    ensures answer { AnswersAs by_seen (by_listing word.now (meaning e.now).listing) result }
    ensures own { IfErr result IsOwn }
{
    match e {
        Expr::Call { name, args } => in_call(alloc, word, name.as_str(), args.as_slice()),
        _ => Err(stop(alloc, Code::E19, word)),
    }
}

/// One text.
fn of_text<'a>(alloc: Global, text: &'a str) -> Result<By<'a>, EvalFail>
    ensures answer { IfOk result (λ b. by_seen b ≡ ByList (ByText text.now ∷ [])) }
    ensures err { IfErr result IsNoMemory }
{
    let mut texts = Vec::new(alloc);
    add_word(&mut texts, text)?;
    Ok(By::Texts(texts))
}

/// One bare name.
fn of_name<'a>(alloc: Global, name: &str, e: &'a Expr) -> Result<By<'a>, EvalFail>
    ensures answer { IfOk result (λ b. by_seen b ≡ by_name name.now (meaning e.now)) }
    ensures err { IfErr result IsNoMemory }
{
    if name == ".EACHI" {
        return Ok(By::EachRow);
    }
    let mut items = Vec::new(alloc);
    let item = Item {
        name: None,
        value: e,
    };
    add(&mut items, item)?;
    Ok(By::Items(items))
}

/// What by may be, or E19 with the argument's word, or with a list's word where the list is empty.
pub fn by<'a>(alloc: Global, word: &str, e: &'a Expr) -> Result<By<'a>, EvalFail>
    ensures answer { AnswersAs by_seen (by_of word.now e.now) result }
    ensures own { IfErr result IsOwn }
{
    if let Some(name) = bare_name(e) {
        return of_name(alloc, name, e);
    }
    if let Some(text) = text_literal(e) {
        return of_text(alloc, text);
    }
    listed(alloc, word, e)
}
