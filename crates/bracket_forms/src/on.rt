ghost use Rattle.std.specs.Prelude.{◌≡◌, ◌++◌, ◌∷◌, [], IfErr, IfOk, OnOk, option_map};
ghost use Rattle.std.specs.Option.{option_copied};
ghost use Rattle.bracket_forms.specs.Items.{arg_item, call_listing, items_of, list_wanted, on_of};
ghost use Rattle.bracket_forms.specs.Items.{on_seen, ons_seen, same_names, text_wanted};
ghost use Rattle.eval_fail.specs.Answers.{AnswersAs, IsNoMemory, IsOwn};
ghost use Rattle.session_model.specs.Asked.{cmp_of, listed, on_compared, on_items, on_listing};
ghost use Rattle.session_model.specs.Asked.{on_text, on_texts, on_written};
ghost use Rattle.session_model.specs.Expression.{each};
ghost use Rattle.session_model.specs.Meaning.{meaning};
ghost use Rattle.written_forms.specs.Seen.{form_seen};

use crate::items::OnItem;
use arg_bind::text_literal;
use dt_base::{Cmp, Code, Op};
use dt_tree::{Arg, Expr};
use eval_fail::{EvalFail, stop};
use func_table::is_list;
use std::alloc::{AllocError, Global};
use written_forms::{Written, form_of, name_of};

fn cmp_of(op: Op) -> Option<Cmp>
    ensures { result ≡ cmp_of op }
{
    match op {
        Op::Eq => Some(Cmp::Eq),
        Op::Ge => Some(Cmp::Ge),
        Op::Gt => Some(Cmp::Gt),
        Op::Le => Some(Cmp::Le),
        Op::Lt => Some(Cmp::Lt),
        _ => None,
    }
}

fn compared<'a>(cmp: Option<Cmp>, x: &'a str, y: &'a str) -> Option<OnItem<'a>>
    ensures { option_map on_seen result ≡ on_compared cmp x.now y.now }
{
    match cmp {
        Some(cmp) => Some(OnItem { x, y, cmp }),
        None => None,
    }
}

fn written<'a>(name: Option<&'a str>, form: Written<'a>) -> Option<OnItem<'a>>
    ensures { option_map on_seen result
        ≡ on_written (option_copied name.entry) (form_seen form.entry) }
{
    match (name, form) {
        (None, Written::BareName(y)) => Some(OnItem {
            x: y,
            y,
            cmp: Cmp::Eq,
        }),
        (Some(x), Written::BareName(y)) => Some(OnItem { x, y, cmp: Cmp::Eq }),
        (None, Written::Compares(op, x, y)) => compared(cmp_of(op), x, y),
        _ => None,
    }
}

/// A condition in a list.
fn in_list(arg: &Arg) -> Option<OnItem<'_>>
    ensures { option_map on_seen result
        ≡ on_written (arg_item arg.now).name (arg_item arg.now).form }
{
    written(name_of(arg), form_of(&arg.value))
}

/// One more condition.
fn add<'a>(items: &mut Vec<OnItem<'a>>, item: OnItem<'a>) -> Result<(), AllocError>
    ensures ok { OnOk result (items.new.items ≡ items.old.items ++ item.entry ∷ []) }
{
    items.push(item)?;
    Ok(())
}

/// The conditions of a list, which has one or more.
#[tactic(auto, using(session_model::proofs::InOrder::in_order))]
fn all_in_list<'a>(alloc: Global, word: &str, args: &'a [Arg]) -> Result<Vec<OnItem<'a>>, EvalFail>
    ensures answer { AnswersAs ons_seen (each (list_wanted word.now) (items_of args.now)) result }
    ensures own { IfErr result IsOwn }
{
    let mut items = Vec::new(alloc);
    for arg in args {
        let Some(item) = in_list(arg) else {
            return Err(stop(alloc, Code::E19, word));
        };
        add(&mut items, item)?;
    }
    Ok(items)
}

/// The conditions of a list; an empty one is told with its own word.
fn in_a_list<'a>(
    alloc: Global,
    word: &str,
    list: &str,
    args: &'a [Arg],
) -> Result<Vec<OnItem<'a>>, EvalFail>
    ensures answer { AnswersAs ons_seen (on_items word.now list.now (items_of args.now)) result }
    ensures own { IfErr result IsOwn }
{
    if args.is_empty() {
        return Err(stop(alloc, Code::E19, list));
    }
    all_in_list(alloc, word, args)
}

fn text_item<'a>(name: Option<&'a str>, text: Option<&'a str>) -> Option<OnItem<'a>>
    ensures { option_map on_seen result
        ≡ on_texts (option_copied name.entry) (option_copied text.entry) }
{
    match (name, text) {
        (None, Some(y)) => Some(OnItem {
            x: y,
            y,
            cmp: Cmp::Eq,
        }),
        (Some(x), Some(y)) => Some(OnItem { x, y, cmp: Cmp::Eq }),
        (_, None) => None,
    }
}

/// A condition in `c`.
fn in_texts(arg: &Arg) -> Option<OnItem<'_>>
    ensures { option_map on_seen result ≡ on_text (arg_item arg.now) }
{
    text_item(name_of(arg), text_literal(&arg.value))
}

/// The conditions in `c`, which has one or more.
#[tactic(auto, using(session_model::proofs::InOrder::in_order))]
fn all_in_texts<'a>(alloc: Global, word: &str, args: &'a [Arg]) -> Result<Vec<OnItem<'a>>, EvalFail>
    ensures answer { AnswersAs ons_seen (each (text_wanted word.now) (items_of args.now)) result }
    ensures own { IfErr result IsOwn }
{
    let mut items = Vec::new(alloc);
    for arg in args {
        let Some(item) = in_texts(arg) else {
            return Err(stop(alloc, Code::E19, word));
        };
        add(&mut items, item)?;
    }
    Ok(items)
}

fn in_c<'a>(alloc: Global, word: &str, args: &'a [Arg]) -> Result<Vec<OnItem<'a>>, EvalFail>
    ensures answer { AnswersAs ons_seen (listed word.now on_text (items_of args.now)) result }
    ensures own { IfErr result IsOwn }
{
    if args.is_empty() {
        return Err(stop(alloc, Code::E19, word));
    }
    all_in_texts(alloc, word, args)
}

fn in_call<'a>(
    alloc: Global,
    word: &str,
    name: &'a str,
    args: &'a [Arg],
) -> Result<Vec<OnItem<'a>>, EvalFail>
    ensures answer { AnswersAs ons_seen
        (on_listing word.now (call_listing name.now args.now)) result }
    ensures own { IfErr result IsOwn }
{
    if is_list(name) {
        return in_a_list(alloc, word, name, args);
    }
    if name == "c" {
        return in_c(alloc, word, args);
    }
    Err(stop(alloc, Code::E19, word))
}

fn one<'a>(alloc: Global, text: &'a str) -> Result<Vec<OnItem<'a>>, EvalFail>
    ensures answer { IfOk result (λ v. ons_seen v ≡ same_names text.now ∷ []) }
    ensures err { IfErr result IsNoMemory }
{
    let mut items = Vec::new(alloc);
    add(
        &mut items,
        OnItem {
            x: text,
            y: text,
            cmp: Cmp::Eq,
        },
    )?;
    Ok(items)
}

#[tactic(auto, using(session_model::proofs::Forms::written))]
fn listed<'a>(alloc: Global, word: &str, e: &'a Expr) -> Result<Vec<OnItem<'a>>, EvalFail>
    ensures answer { AnswersAs ons_seen (on_listing word.now (meaning e.now).listing) result }
    ensures own { IfErr result IsOwn }
{
    match e {
        Expr::Call { name, args } => in_call(alloc, word, name.as_str(), args.as_slice()),
        _ => Err(stop(alloc, Code::E19, word)),
    }
}

/// The conditions that `on` may be, or E19 with the argument's word, or with a list's word where
/// the list is empty.
pub fn conditions<'a>(alloc: Global, word: &str, e: &'a Expr) -> Result<Vec<OnItem<'a>>, EvalFail>
    ensures answer { AnswersAs ons_seen (on_of word.now e.now) result }
    ensures own { IfErr result IsOwn }
{
    match text_literal(e) {
        Some(text) => one(alloc, text),
        None => listed(alloc, word, e),
    }
}
