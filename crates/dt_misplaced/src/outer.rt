ghost use Rattle.std.specs.Prelude.{◌≡◌, ◌++◌, IfOk, OnOk};
ghost use Rattle.run_model.specs.Misplaced as spec;
ghost use Rattle.run_model.specs.TokenView.{plain_token, plain_tokens};
ghost use Rattle.run_model.specs.TreeView.{tree_of, item_of_second, args_of, brackets_of, first_of};
ghost use Rattle.run_model.specs.TreeView.{second_of, stmts_of, script_of};
ghost use Rattle.dt_tree.specs.declared.tree.Bracket.{out-Bracket};
ghost use Rattle.dt_misplaced.specs.Stages.{stage_of};

use crate::inner::{is_assign, push, walk, walk_args, walk_first, walk_second, walk_target};
use dt_tree::{Arg, Bracket, Expr, Placed, Script, Second, Sign, Stmt, Token};
use std::alloc::{AllocError, Global};

/// How far an outermost chain has come: no assignment yet, one, or one and a bracket behind it.
#[derive(Clone, Copy)]
pub enum Stage {
    Free,
    Assigned,
    Over,
}

/// The place, counted from 0, of the first token that stands wrong in a script which the tokens
/// spell: a `:=`, the name `` `:=` `` of a call, or the `[` of a bracket behind an assignment. None
/// where no token stands wrong.
///
/// An assignment stands only in the outermost chain of a statement, and behind its bracket only
/// one empty bracket may follow. The call of `:=` is an assignment as j, with one argument or more,
/// each with a name. Cost: linear in the tokens; it takes a byte or so for each mark. The rule is
/// dtq's own, docs/LANGUAGE.md, section Grammar.
pub fn misplaced_at(
    alloc: Global,
    tokens: &[Placed],
    script: &Script,
) -> Result<Option<usize>, AllocError>
    ensures { IfOk result (λ at. at
        ≡ spec.misplaced (plain_tokens tokens.now) (script_of script.now)) }
{
    let mut flags = Vec::new(alloc);
    walk_stmts(&mut flags, script.stmts.as_slice())?;
    Ok(first_wrong(tokens, flags.as_slice()))
}

/// The flags of statements.
fn walk_stmts(flags: &mut Vec<bool>, stmts: &[Stmt]) -> Result<(), AllocError>
    ensures { OnOk result (flags.new.items ≡ flags.old.items ++ spec.flags (stmts_of stmts.now)) }
{
    for stmt in stmts {
        walk_target(flags, &stmt.target)?;
        walk_outer(flags, &stmt.expr)?;
    }
    Ok(())
}

/// The flags of a statement's expression.
fn walk_outer(flags: &mut Vec<bool>, expr: &Expr) -> Result<(), AllocError>
    ensures { OnOk result (flags.new.items ≡ flags.old.items ++ spec.outer (tree_of expr.now)) }
{
    match expr {
        Expr::Query { head, brackets } => {
            walk(flags, head.get())?;
            walk_chain(flags, brackets.as_slice())
        }
        _ => walk(flags, expr),
    }
}

/// The flags of the brackets of an outermost chain.
fn walk_chain(flags: &mut Vec<bool>, brackets: &[Bracket]) -> Result<(), AllocError>
    ensures { OnOk result (flags.new.items ≡ flags.old.items
        ++ spec.outer_brackets (brackets_of brackets.now)) }
{
    let mut stage = Stage::Free;
    for bracket in brackets {
        walk_bracket(flags, bracket, stage)?;
        stage = next_stage(stage, &bracket.second);
    }
    Ok(())
}

/// The stage behind a bracket with this j.
fn next_stage(stage: Stage, j: &Option<Second>) -> Stage
    ensures { stage_of result ≡ spec.next_stage (stage_of stage) (second_of j.now) }
{
    match stage {
        Stage::Free => j_stage(j),
        _ => Stage::Over,
    }
}

/// The stage behind this j, where no bracket before it assigns.
fn j_stage(j: &Option<Second>) -> Stage
    ensures { stage_of result ≡ spec.j_stage (second_of j.now) }
{
    match j {
        Some(second) => second_stage(second),
        None => Stage::Free,
    }
}

#[tactic(auto, using(crate::proofs::Chains::stages))]
fn second_stage(j: &Second) -> Stage
    ensures { stage_of result ≡ spec.j_stage (item_of_second j.now) }
{
    match j {
        Second::Value(_) => Stage::Free,
        Second::Assign { .. } => Stage::Assigned,
        Second::AssignAll { .. } => Stage::Assigned,
    }
}

/// The flags of a bracket of an outermost chain, which has come this far before it.
fn walk_bracket(flags: &mut Vec<bool>, bracket: &Bracket, stage: Stage) -> Result<(), AllocError>
    ensures { let b = out-Bracket bracket.now in
        OnOk result (flags.new.items ≡ flags.old.items
        ++ spec.bracket_flags (stage_of stage) (first_of b.first) (second_of b.second)
        (first_of b.third) (args_of b.args)) }
{
    match stage {
        Stage::Free => {
            push(flags, false)?;
            walk_first(flags, &bracket.first)?;
            walk_free(flags, &bracket.second)?;
        }
        Stage::Assigned => {
            push(flags, !is_empty(bracket))?;
            walk_first(flags, &bracket.first)?;
            walk_second(flags, &bracket.second)?;
        }
        Stage::Over => {
            push(flags, true)?;
            walk_first(flags, &bracket.first)?;
            walk_second(flags, &bracket.second)?;
        }
    }
    walk_first(flags, &bracket.third)?;
    walk_args(flags, bracket.args.as_slice())
}

/// Whether nothing stands in the bracket.
fn is_empty(bracket: &Bracket) -> bool
    ensures { let b = out-Bracket bracket.now in
        result ≡ spec.is_empty (first_of b.first) (second_of b.second) (first_of b.third)
        (args_of b.args) }
{
    if bracket.first.is_some() {
        return false;
    }
    if bracket.second.is_some() {
        return false;
    }
    if bracket.third.is_some() {
        return false;
    }
    bracket.args.as_slice().is_empty()
}

/// The flags of j, where an assignment may stand.
fn walk_free(flags: &mut Vec<bool>, j: &Option<Second>) -> Result<(), AllocError>
    ensures { OnOk result (flags.new.items ≡ flags.old.items ++ spec.j_flags (second_of j.now)) }
{
    match j {
        Some(second) => walk_free_j(flags, second),
        None => Ok(()),
    }
}

#[tactic(auto, using(crate::proofs::Chains::free))]
fn walk_free_j(flags: &mut Vec<bool>, j: &Second) -> Result<(), AllocError>
    ensures { OnOk result (flags.new.items ≡ flags.old.items
        ++ spec.j_flags (item_of_second j.now)) }
{
    match j {
        Second::Value(expr) => walk(flags, expr),
        Second::Assign { left, right } => {
            walk(flags, left)?;
            push(flags, false)?;
            walk(flags, right)
        }
        Second::AssignAll { args } => {
            push(flags, !are_pairs(args.as_slice()))?;
            walk_args(flags, args.as_slice())
        }
    }
}

/// Whether there is an argument, and each has a name.
fn are_pairs(args: &[Arg]) -> bool
    ensures { result ≡ spec.are_pairs (args_of args.now) }
{
    !args.is_empty() && all_named(args)
}

/// Whether each argument has a name.
fn all_named(args: &[Arg]) -> bool
    ensures { result ≡ spec.all_named (args_of args.now) }
{
    for arg in args {
        if arg.name.is_none() {
            return false;
        }
    }
    true
}

/// Whether the token may stand wrong.
fn is_mark(token: &Token) -> bool
    ensures { result ≡ spec.is_mark (plain_token token.now) }
{
    match token {
        Token::Name(name) => is_assign(name),
        Token::Sign(Sign::Assign) => true,
        Token::Sign(Sign::OpenSquare) => true,
        _ => false,
    }
}

/// The place of the first mark whose flag is true.
fn first_wrong(tokens: &[Placed], flags: &[bool]) -> Option<usize>
    ensures { result ≡ spec.first_wrong (spec.marks_from 0 (plain_tokens tokens.now)) flags.now }
{
    let mut next = 0;
    for (at, placed) in tokens.iter().enumerate() {
        if is_mark(&placed.token) {
            if next >= flags.len() {
                return None;
            }
            if flags[next] {
                return Some(at);
            }
            next += 1;
        }
    }
    None
}
