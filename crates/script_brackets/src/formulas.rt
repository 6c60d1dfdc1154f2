//! A formula: the names of a sum of bare names, and its beginning in the argument of a call.
ghost use Rattle.std.specs.Prelude.{◌≡◌, IfOk, option_map, option_copied, map, ◌∷◌, []};
ghost use Rattle.run_model.specs.TreeView.{tree_of, tail_of, args_of};
ghost use Rattle.dt_grammar.specs.Machine as model;
ghost use Rattle.script_frames.specs.Ends as ends;
ghost use Rattle.script_frames.specs.Ends.{made_of, made_at};
ghost use Rattle.script_frames.specs.Frames.{frame_of};
ghost use Rattle.script_frames.specs.Steps.{bare_name, added_name, names_behind};
ghost use Rattle.script_frames.specs.declared.frames.End.TheVariants as end;

use dt_base::{Op, Text};
use dt_tree::{Arg, BinOp, Expr, Tail};
use script_frames::{Formula, Frame, Made};
use sqlite_items::Items;
use std::alloc::{AllocError, Global};

/// The name behind a `+`, where a bare name and no other operator stands there.
#[tactic(auto, using(dt_grammar::proofs::Trees::tail_of_is))]
fn added_name(tail: &Tail) -> Option<&Text>
    ensures { option_copied result ≡ added_name (tail_of tail.now) }
{
    match tail.op {
        BinOp::Arith(Op::Add) => bare_name(&tail.arg),
        _ => None,
    }
}

/// The name that an expression is, where it is a bare name.
#[tactic(auto, using(dt_grammar::proofs::Trees::trees))]
fn bare_name(operand: &Expr) -> Option<&Text>
    ensures { option_copied result ≡ bare_name (tree_of operand.now) }
{
    match operand {
        Expr::Name { name } => Some(name),
        _ => None,
    }
}

/// These names, and those that a sum of bare names adds to them.
#[tactic(auto, using(script_frames::proofs::Sums::names_turn))]
fn tail_names(mut names: Items<Text>, rest: &[Tail]) -> Result<Option<Items<Text>>, AllocError>
    ensures { IfOk result (λ all. all ≡ names_behind names (map tail_of rest.now)) }
{
    for tail in rest {
        match added_name(tail) {
            Some(name) => names.push(name.copy()?)?,
            None => return Ok(None),
        }
    }
    Ok(Some(names))
}

/// The names of a sum of bare names.
#[tactic(auto, using(dt_grammar::proofs::Trees::trees, script_frames::proofs::Sums::sums))]
pub fn names_of(alloc: Global, operand: &Expr) -> Result<Option<Items<Text>>, AllocError>
    ensures { IfOk result (λ names. names ≡ model.names_of (tree_of operand.now)) }
{
    match operand {
        Expr::Name { name } => Ok(Some(one_name(alloc, name)?)),
        Expr::Chain { first, rest } => match bare_name(first.get()) {
            Some(name) => tail_names(one_name(alloc, name)?, rest.as_slice()),
            None => Ok(None),
        },
        _ => Ok(None),
    }
}

/// A list of one name.
fn one_name(alloc: Global, name: &Text) -> Result<Items<Text>, AllocError>
    ensures { IfOk result (λ names. names ≡ name.now ∷ []) }
{
    let mut names = Items::new(alloc);
    names.push(name.copy()?)?;
    Ok(names)
}

/// The names of a sum of bare names.
fn into_names(alloc: Global, operand: Expr) -> Result<Option<Items<Text>>, AllocError>
    ensures { IfOk result (λ names. names ≡ model.names_of (tree_of operand)) }
{
    let names = names_of(alloc, &operand);
    drop(operand);
    names
}

/// A formula begins in the argument of a call, where its left side is a sum of bare names.
fn begin_formula(
    alloc: Global,
    call: Text,
    args: Items<Arg>,
    target: Option<Text>,
    operand: Expr,
) -> Result<Option<Made>, AllocError>
    ensures { IfOk result (λ made. option_map made_of made
        ≡ option_map (λ left. ends.NeedWord call (args_of args) target left [])
        (model.names_of (tree_of operand))) }
{
    match into_names(alloc, operand)? {
        Some(left) => Ok(Some(Made::NeedWord(Formula {
            call,
            args,
            target,
            left,
            right: Items::new(alloc),
        }))),
        None => Ok(None),
    }
}

/// `~` ends the left side of a formula, where that is a sum of bare names in a call.
pub fn tilde(alloc: Global, frame: Frame, operand: Expr) -> Result<Option<Made>, AllocError>
    ensures { IfOk result (λ made. option_map made_of made
        ≡ made_at end.Tilde (frame_of frame) (tree_of operand)) }
{
    match frame {
        Frame::InCall { name, args, target } => begin_formula(alloc, name, args, target, operand),
        other => {
            drop((other, operand));
            Ok(None)
        }
    }
}
