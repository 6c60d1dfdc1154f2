ghost use Rattle.std.specs.Prelude.{◌≡◌, ◌++◌, ◌∷◌, [], IfErr, IfOk, OnOk, Ok, map};
ghost use Rattle.std.specs.Prelude.{Some};
ghost use Rattle.std.specs.Str.{bytes_eq};
ghost use Rattle.bracket_forms.specs.Items.{all_asks, arg_item, argument_asks, arguments_asks};
ghost use Rattle.bracket_forms.specs.Items.{asked_seen, Asks, beside_seen, by_of, by_seen};
ghost use Rattle.bracket_forms.specs.Items.{call_listing, form_asks, items_of, noted, Stops};
ghost use Rattle.bracket_forms.specs.Items.{third_asks, word_asks};
ghost use Rattle.eval_fail.specs.Answers.{Answers, AnswersAs, IsNoMemory, IsOwn};
ghost use Rattle.func_table.specs.Special.{argument_of};
ghost use Rattle.session_model.specs.Asked.{asked, beside, both_flags, ends_in, flags_in, has_word};
ghost use Rattle.session_model.specs.Asked.{is_barred, not_each, nothing_asked, two_flags};
ghost use Rattle.session_model.specs.Asked.{unnamed_flag, wanted, words_in};
ghost use Rattle.session_model.specs.Binding.{word_in};
ghost use Rattle.session_model.specs.Form.{flag_in};
ghost use Rattle.session_model.specs.Meaning.{arg_meaning, bracket_meaning, meaning};
ghost use Rattle.vector_model.specs.Then.{then_do};
ghost use Rattle.written_forms.specs.Texts.{lent_texts};

use crate::by::by;
use crate::items::{Asked, Beside, By, add_word};
use crate::on::conditions;
use dt_base::{Code, Mult, NoMatch};
use dt_tree::{Arg, Bracket, Expr};
use eval_fail::{EvalFail, stop};
use func_table::{Argument, argument_named};
use std::alloc::Global;
use written_forms::{flag_in, form_of, mult_in, no_match_in, roll_in};

/// What a form gives, or the argument's fault.
fn wanted<T: Copy>(alloc: Global, word: &str, x: Option<T>) -> Result<T, EvalFail>
    ensures answer { Answers (wanted word.now x) result }
    ensures own { IfErr result IsOwn }
{
    match x {
        Some(x) => Ok(x),
        None => Err(stop(alloc, Code::E19, word)),
    }
}

fn not_each<'a>(alloc: Global, word: &str, by: By<'a>) -> Result<By<'a>, EvalFail>
    ensures answer { AnswersAs by_seen (not_each word.now (by_seen by.entry)) result }
    ensures own { IfErr result IsOwn }
{
    match by {
        By::EachRow => Err(stop(alloc, Code::E19, word)),
        other => Ok(other),
    }
}

/// What keyby may be.
fn keyed<'a>(alloc: Global, word: &str, e: &'a Expr) -> Result<By<'a>, EvalFail>
    ensures answer { AnswersAs by_seen (then_do (by_of word.now e.now) (not_each word.now)) result }
    ensures own { IfErr result IsOwn }
{
    match by(alloc, word, e) {
        Ok(by) => not_each(alloc, word, by),
        Err(error) => Err(error),
    }
}

fn unnamed_flag(arg: &Arg) -> Option<bool>
    ensures { result ≡ unnamed_flag (arg_item arg.now).name (arg_item arg.now).form }
{
    match &arg.name {
        Some(_) => None,
        None => flag_in(form_of(&arg.value)),
    }
}

fn both(a: Option<bool>, b: Option<bool>) -> Option<(bool, bool)>
    ensures { result ≡ both_flags a b }
{
    match (a, b) {
        (Some(a), Some(b)) => Some((a, b)),
        _ => None,
    }
}

fn two_flags(args: &[Arg]) -> Option<(bool, bool)>
    ensures { result ≡ two_flags (items_of args.now) }
{
    match args {
        [a, b] => both(unnamed_flag(a), unnamed_flag(b)),
        _ => None,
    }
}

fn flags_of_call(name: &str, args: &[Arg]) -> Option<(bool, bool)>
    ensures { result ≡ flags_in (call_listing name.now args.now) }
{
    if name == "c" { two_flags(args) } else { None }
}

#[tactic(auto, using(session_model::proofs::Forms::written))]
fn flags(e: &Expr) -> Option<(bool, bool)>
    ensures { result ≡ flags_in (meaning e.now).listing }
{
    match e {
        Expr::Call { name, args } => flags_of_call(name.as_str(), args.as_slice()),
        _ => None,
    }
}

fn ends(e: &Expr) -> Option<(bool, bool)>
    ensures { result ≡ ends_in (flag_in (meaning e.now).form) (meaning e.now).listing }
{
    match flag_in(form_of(e)) {
        Some(flag) => Some((flag, flag)),
        None => flags(e),
    }
}

/// What the form of one argument asks.
fn with_form<'a>(
    alloc: Global,
    word: &str,
    k: Argument,
    e: &'a Expr,
    q: &mut Asked<'a>,
) -> Result<(), EvalFail>
    ensures answer { Asks (form_asks word.now k e.now q.old) q.new result }
    ensures own { IfErr result IsOwn }
{
    match k {
        Argument::By => {
            q.by = by(alloc, word, e)?;
            Ok(())
        }
        Argument::Keyby => {
            q.by = keyed(alloc, word, e)?;
            q.sorted = true;
            Ok(())
        }
        Argument::On => {
            q.on = Some(conditions(alloc, word, e)?);
            Ok(())
        }
        Argument::Mult => {
            q.mult = wanted(alloc, word, mult_in(form_of(e)))?;
            Ok(())
        }
        Argument::NoMatch => {
            q.nomatch = wanted(alloc, word, no_match_in(form_of(e)))?;
            Ok(())
        }
        Argument::Roll => {
            q.roll = wanted(alloc, word, roll_in(form_of(e)))?;
            Ok(())
        }
        Argument::RollEnds => {
            q.ends = Some(wanted(alloc, word, ends(e))?);
            Ok(())
        }
        Argument::Cartesian => {
            q.cartesian = wanted(alloc, word, flag_in(form_of(e)))?;
            Ok(())
        }
        Argument::SdCols => {
            q.sd = Some(e);
            Ok(())
        }
    }
}

fn stood(word: &str, words: &[&str]) -> bool
    ensures { result ≡ has_word word.now (lent_texts words.now) }
{
    for w in words {
        if word == *w {
            return true;
        }
    }
    false
}

fn is_barred(c: Beside, k: Argument) -> bool
    ensures { result ≡ is_barred (beside_seen c) k }
{
    match k {
        Argument::By => !c.j,
        Argument::Keyby => !c.j || c.by,
        Argument::RollEnds => !c.roll,
        _ => false,
    }
}

/// The word behind those of the arguments before it.
fn noted<'a>(word: &'a str, q: &mut Asked<'a>) -> Result<(), EvalFail>
    ensures answer { IfOk result (λ u. asked_seen q.new ≡ noted q.old word.now) }
    ensures err { IfErr result IsNoMemory }
{
    add_word(&mut q.words, word)?;
    Ok(())
}

fn with_known<'a>(
    alloc: Global,
    c: Beside,
    word: &'a str,
    k: Argument,
    e: &'a Expr,
    q: &mut Asked<'a>,
) -> Result<(), EvalFail>
    ensures answer { Asks (word_asks c q.old word.now (Some k) e.now) q.new result }
    ensures own { IfErr result IsOwn }
{
    if stood(word, q.words.as_slice()) || is_barred(c, k) {
        return Err(stop(alloc, Code::E19, word));
    }
    match with_form(alloc, word, k, e, q) {
        Ok(()) => noted(word, q),
        Err(error) => Err(error),
    }
}

fn with_word<'a>(
    alloc: Global,
    c: Beside,
    word: &'a str,
    e: &'a Expr,
    q: &mut Asked<'a>,
) -> Result<(), EvalFail>
    ensures answer { Asks (word_asks c q.old word.now (argument_of word.now) e.now) q.new result }
    ensures own { IfErr result IsOwn }
{
    match argument_named(word) {
        Some(k) => with_known(alloc, c, word, k, e, q),
        None => Err(stop(alloc, Code::E19, word)),
    }
}

fn with_argument<'a>(
    alloc: Global,
    c: Beside,
    arg: &'a Arg,
    q: &mut Asked<'a>,
) -> Result<(), EvalFail>
    ensures answer { AnswersAs (λ u. asked_seen q.new) (argument_asks c q.old arg.now) result }
    ensures own { IfErr result IsOwn }
{
    match &arg.name {
        Some(name) => with_word(alloc, c, name.as_str(), &arg.value, q),
        None => with_word(alloc, c, "", &arg.value, q),
    }
}

/// What the arguments ask, one after another.
fn with_arguments<'a>(
    alloc: Global,
    c: Beside,
    args: &'a [Arg],
    q: &mut Asked<'a>,
) -> Result<(), EvalFail>
    ensures answer { AnswersAs (λ u. asked_seen q.new) (arguments_asks c q.old args.now) result }
    ensures own { IfErr result IsOwn }
{
    for arg in args {
        if let Err(error) = with_argument(alloc, c, arg, q) {
            return Err(error);
        }
    }
    Ok(())
}

fn is_word(arg: &Arg, word: &str) -> bool
    ensures { result ≡ bytes_eq word.now (word_in (arg_meaning arg.now).name) }
{
    match &arg.name {
        Some(name) => word == name.as_str(),
        None => word == "",
    }
}

fn has_word(word: &str, args: &[Arg]) -> bool
    ensures { result ≡ has_word word.now (words_in (map arg_meaning args.now)) }
{
    for arg in args {
        if is_word(arg, word) {
            return true;
        }
    }
    false
}

fn beside(b: &Bracket) -> Beside
    ensures { beside_seen result ≡ beside (bracket_meaning b.now) }
{
    Beside {
        j: b.second.is_some(),
        by: b.third.is_some() || has_word("by", b.args.as_slice()),
        roll: has_word("roll", b.args.as_slice()),
    }
}

fn nothing<'a>(alloc: Global) -> Asked<'a>
    ensures { asked_seen result ≡ nothing_asked }
{
    Asked {
        by: By::No,
        sorted: false,
        on: None,
        mult: Mult::All,
        nomatch: NoMatch::Na,
        roll: None,
        ends: None,
        cartesian: false,
        sd: None,
        words: Vec::new(alloc),
    }
}

fn with_third<'a>(
    alloc: Global,
    c: Beside,
    third: &'a Option<Expr>,
    q: &mut Asked<'a>,
) -> Result<(), EvalFail>
    requires { asked_seen q.old ≡ nothing_asked }
    ensures answer { Asks (third_asks c third.now) q.new result }
    ensures own { IfErr result IsOwn }
{
    match third {
        Some(e) => with_known(alloc, c, "by", Argument::By, e, q),
        None => Ok(()),
    }
}

fn with_all<'a>(
    alloc: Global,
    c: Beside,
    third: &'a Option<Expr>,
    args: &'a [Arg],
    q: &mut Asked<'a>,
) -> Result<(), EvalFail>
    requires { asked_seen q.old ≡ nothing_asked }
    ensures answer { IfOk result (λ u. all_asks c third.now args.now ≡ Ok (asked_seen q.new)) }
    ensures fault { IfErr result (Stops (all_asks c third.now args.now)) }
    ensures own { IfErr result IsOwn }
{
    match with_third(alloc, c, third, q) {
        Ok(()) => with_arguments(alloc, c, args, q),
        Err(error) => Err(error),
    }
}

/// What the arguments of a bracket ask, or the first fault: E19 with the argument's word.
///
/// Of each argument it looks first whether brackets have it, whether it stood before and may stand
/// beside the others, and then at its form: at the third item first, as the argument `by`, then at
/// the arguments as written. It looks at no table and at no value, and touches nothing.
pub fn asked<'a>(alloc: Global, b: &'a Bracket) -> Result<Asked<'a>, EvalFail>
    ensures answer { AnswersAs asked_seen (asked (bracket_meaning b.now)) result }
    ensures own { IfErr result IsOwn }
{
    let c = beside(b);
    let args = b.args.as_slice();
    let mut q = nothing(alloc);
    match with_all(alloc, c, &b.third, args, &mut q) {
        Ok(()) => Ok(q),
        Err(error) => {
            drop(q);
            Err(error)
        }
    }
}
