ghost use Rattle.std.specs.Prelude.{◌≡◌, IfErr, ◌<◌, ◌==◌, [], map, length, nat_lt};
ghost use Rattle.session_model.specs.Expression.{names_in};
ghost use Rattle.session_model.specs.Meaning.{arg_meaning};
ghost use Rattle.session_model.specs.Binding.{free_count, unnamed_count, place_of, places};
ghost use Rattle.session_model.specs.Binding.{is_formal, is_bad, names_fine, missing_word};
ghost use Rattle.session_model.specs.Binding.{is_lacking, all_there, word_in, counted};
ghost use Rattle.session_model.specs.Binding.{bound_by_name, bound_to_formals, bound_unnamed};
ghost use Rattle.session_model.specs.Binding.{bound, bound_with_more};
ghost use Rattle.eval_fail.specs.Answers.{Answers, IsOwn};

use crate::places::{is_free_formal, is_unnamed, next, place, place_named};
use dt_base::Code;
use dt_tree::Arg;
use eval_fail::{EvalFail, stop};
use func_table::{Arity, Formal, Func, arity_of, formal_word, formals, func_word, is_needed};
use std::alloc::Global;

fn count_free(args: &[Arg], ps: &[Formal]) -> usize
    ensures { result ≡ free_count (names_in (map arg_meaning args.now)) ps.now }
{
    let mut n = 0;
    for p in ps {
        if is_free_formal(args, *p) {
            n += 1;
        }
    }
    n
}

fn count_unnamed(args: &[Arg]) -> usize
    ensures { result ≡ unnamed_count (names_in (map arg_meaning args.now)) }
{
    let mut n = 0;
    for a in args {
        if is_unnamed(a) {
            n += 1;
        }
    }
    n
}

fn stands_in(w: &str, ps: &[Formal]) -> bool
    ensures { result ≡ is_formal w.now ps.now }
{
    for p in ps {
        if formal_word(*p) == w {
            return true;
        }
    }
    false
}

/// Whether the name of the argument at place i is unknown, or bound before.
fn is_refused(args: &[Arg], ps: &[Formal], i: usize, a: &Arg) -> bool
    ensures { result ≡ is_bad (names_in (map arg_meaning args.now)) ps.now i
        (arg_meaning a.now).name }
{
    match &a.name {
        None => false,
        Some(w) => {
            if !stands_in(w.as_str(), ps) {
                return true;
            }
            match place_named(args, w.as_str()) {
                None => false,
                Some(k) => k != i,
            }
        }
    }
}

fn word_of_name(a: &Arg) -> &str
    ensures { result.now ≡ word_in (arg_meaning a.now).name }
{
    match &a.name {
        None => "",
        Some(w) => w.as_str(),
    }
}

fn check_names(alloc: Global, args: &[Arg], ps: &[Formal]) -> Result<(), EvalFail>
    ensures answer { Answers
        (names_fine (names_in (map arg_meaning args.now)) ps.now 0
        (names_in (map arg_meaning args.now))) result }
    ensures own { IfErr result IsOwn }
{
    for (i, a) in args.iter().enumerate() {
        if is_refused(args, ps, i, a) {
            return Err(stop(alloc, Code::E19, word_of_name(a)));
        }
    }
    Ok(())
}

fn is_missing(args: &[Arg], before: usize, p: Formal) -> bool
    ensures { result ≡ is_lacking (p, place_of (names_in (map arg_meaning args.now)) before p) }
{
    place(args, before, p).is_none() && is_needed(p)
}

/// What names a formal that lacks its argument.
fn word_for(f: Func, p: Formal) -> &'static str
    ensures { result.now ≡ missing_word f p }
{
    let word = formal_word(p);
    if word == "" { func_word(f) } else { word }
}

fn check_there(alloc: Global, f: Func, args: &[Arg], ps: &[Formal]) -> Result<(), EvalFail>
    requires { length ps.now < 1000 }
    ensures answer { Answers (all_there f (places (names_in (map arg_meaning args.now)) 0 ps.now))
        result }
    ensures own { IfErr result IsOwn }
{
    let mut before = 0;
    for p in ps {
        if is_missing(args, before, *p) {
            return Err(stop(alloc, Code::E19, word_for(f, *p)));
        }
        before = next(args, before, *p);
    }
    Ok(())
}

fn check_count(alloc: Global, f: Func, is_wrong: bool) -> Result<(), EvalFail>
    ensures answer { Answers (counted f is_wrong) result }
    ensures own { IfErr result IsOwn }
{
    if is_wrong {
        return Err(stop(alloc, Code::E19, func_word(f)));
    }
    Ok(())
}

fn bind_formals(alloc: Global, f: Func, args: &[Arg]) -> Result<(), EvalFail>
    ensures answer { Answers (bound_to_formals f (names_in (map arg_meaning args.now))) result }
    ensures own { IfErr result IsOwn }
{
    let ps = formals(f);
    check_names(alloc, args, ps)?;
    check_there(alloc, f, args, ps)?;
    check_count(alloc, f, count_free(args, ps) < count_unnamed(args))
}

fn bind_unnamed(alloc: Global, f: Func, args: &[Arg]) -> Result<(), EvalFail>
    ensures answer { Answers (bound_unnamed f (names_in (map arg_meaning args.now))) result }
    ensures own { IfErr result IsOwn }
{
    check_names(alloc, args, &[])?;
    check_count(alloc, f, args.is_empty())
}

/// To formals, with any number of arguments behind them.
fn bind_with_more(alloc: Global, f: Func, args: &[Arg]) -> Result<(), EvalFail>
    ensures answer { Answers (bound_with_more f (names_in (map arg_meaning args.now))) result }
    ensures own { IfErr result IsOwn }
{
    let ps = formals(f);
    check_names(alloc, args, ps)?;
    check_there(alloc, f, args, ps)
}

/// To formals by their names alone.
fn bind_by_name(alloc: Global, f: Func, args: &[Arg]) -> Result<(), EvalFail>
    ensures answer { Answers (bound_by_name f (names_in (map arg_meaning args.now))) result }
    ensures own { IfErr result IsOwn }
{
    check_names(alloc, args, formals(f))?;
    check_count(alloc, f, count_unnamed(args) > 0 || args.is_empty())
}

/// Nothing, or the first fault of binding these arguments to a function's formals.
///
/// To formals: a name that is unknown or bound twice (E19 with the name, in the order written),
/// then a needed formal without an argument (E19 with its name, or the function's where the formal
/// has none), then too many arguments (E19 with the function's name). Without names: the first
/// name (E19 with it), then no argument at all (E19 with the function's name). As columns: no
/// argument at all. With more behind the formals there are never too many. By name alone: a name
/// that is unknown or bound twice, then an argument without a name, or none at all (E19 with the
/// function's name). dtq's own rule, docs/LANGUAGE.md, section "Calls".
pub fn bind(alloc: Global, f: Func, args: &[Arg]) -> Result<(), EvalFail>
    ensures answer { Answers (bound f (names_in (map arg_meaning args.now))) result }
    ensures own { IfErr result IsOwn }
{
    match arity_of(f) {
        Arity::Fixed => bind_formals(alloc, f, args),
        Arity::Columns => check_count(alloc, f, args.is_empty()),
        Arity::Unnamed => bind_unnamed(alloc, f, args),
        Arity::More => bind_with_more(alloc, f, args),
        Arity::Named => bind_by_name(alloc, f, args),
    }
}
