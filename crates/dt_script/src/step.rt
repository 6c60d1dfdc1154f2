ghost use Rattle.std.specs.Prelude.{◌≡◌, ◌∷◌, ◌++◌, [], IfOk, Some, option_map};
ghost use Rattle.run_model.specs.TreeView.{tree_of, args_of, stmts_of};
ghost use Rattle.run_model.specs.GrammarTrees as grammar;
ghost use Rattle.dt_grammar.specs.Machine as model;
ghost use Rattle.script_frames.specs.Ends.{end_step};
ghost use Rattle.script_frames.specs.Frames.{head_tree, filled_of, frames_of, state_of, symbol_of};

use crate::having::{have, in_frame};
use crate::wanting::want;
use dt_base::{Op, Text};
use dt_tree::{BinOp, Expr, Stmt};
use script_brackets::last_stmt;
use script_frames::{End, Filled, Formula, Frame, Head, State, Symbol};
use script_operators::{close, enter};
use sqlite_items::Items;
use std::alloc::{AllocError, Global};

/// A token where the name of an item is to come.
fn need_name(head: Head, filled: Filled, frames: Vec<Frame>, symbol: Symbol) -> Option<State>
    ensures { option_map state_of result
        ≡ model.step (model.NeedName (head_tree head) (filled_of filled) (frames_of frames.items))
        (symbol_of symbol) }
{
    match symbol {
        Symbol::Name(name) => Some(State::NeedIs {
            head,
            filled,
            name,
            frames,
        }),
        other => {
            drop((other, head, filled));
            None
        }
    }
}

/// A token behind the name of an item.
fn need_is(
    head: Head,
    filled: Filled,
    name: Text,
    frames: Vec<Frame>,
    symbol: Symbol,
) -> Result<Option<State>, AllocError>
    ensures { IfOk result (λ next. option_map state_of next
        ≡ model.step (model.NeedIs (head_tree head) (filled_of filled) name
        (frames_of frames.items)) (symbol_of symbol)) }
{
    match symbol {
        Symbol::Is => enter(Frame::InNamed { head, filled, name }, frames),
        other => {
            drop((other, head, filled));
            Ok(None)
        }
    }
}

/// A name on the right of `~`.
fn one_more(
    mut formula: Formula,
    name: Text,
    frames: Vec<Frame>,
) -> Result<Option<State>, AllocError>
    ensures { IfOk result (λ next. option_map state_of next
        ≡ Some (model.HaveWords formula.call (args_of formula.args) formula.target formula.left
        (formula.right ++ name ∷ []) (frames_of frames.items))) }
{
    formula.right.push(name)?;
    Ok(Some(State::HaveWords { formula, frames }))
}

/// A token where a name on the right of `~` is to come.
fn need_word(
    formula: Formula,
    frames: Vec<Frame>,
    symbol: Symbol,
) -> Result<Option<State>, AllocError>
    ensures { IfOk result (λ next. option_map state_of next
        ≡ model.step (model.NeedWord formula.call (args_of formula.args) formula.target formula.left
        formula.right (frames_of frames.items)) (symbol_of symbol)) }
{
    match symbol {
        Symbol::Name(name) => one_more(formula, name, frames),
        other => {
            drop((other, formula));
            Ok(None)
        }
    }
}

/// A token that ends the call of a formula, or its argument: the formula is the expression that has
/// come in it.
fn ended(
    alloc: Global,
    end: End,
    formula: Formula,
    frames: Vec<Frame>,
) -> Result<Option<State>, AllocError>
    ensures { IfOk result (λ next. option_map state_of next
        ≡ end_step end (
          model.InCall formula.call (args_of formula.args) formula.target
              ∷ frames_of frames.items,
          grammar.Formula formula.left formula.right,
        )) }
{
    let Formula {
        call,
        args,
        target,
        left,
        right,
    } = formula;
    let frame = Frame::InCall {
        name: call,
        args,
        target,
    };
    in_frame(alloc, end, frame, frames, Expr::Formula { left, right })
}

/// A token behind the names on the right of `~`.
fn have_words(
    alloc: Global,
    formula: Formula,
    frames: Vec<Frame>,
    symbol: Symbol,
) -> Result<Option<State>, AllocError>
    ensures { IfOk result (λ next. option_map state_of next
        ≡ model.step (model.HaveWords formula.call (args_of formula.args) formula.target
        formula.left formula.right (frames_of frames.items)) (symbol_of symbol)) }
{
    match symbol {
        Symbol::Operator(BinOp::Arith(Op::Add)) => Ok(Some(State::NeedWord { formula, frames })),
        Symbol::End(End::Round) => ended(alloc, End::Round, formula, frames),
        Symbol::End(End::Comma) => ended(alloc, End::Comma, formula, frames),
        other => {
            drop((other, formula));
            Ok(None)
        }
    }
}

/// What one more token makes of the state, or none where no script goes on so.
pub fn step(alloc: Global, state: State, symbol: Symbol) -> Result<Option<State>, AllocError>
    ensures { IfOk result (λ next. option_map state_of next
        ≡ model.step (state_of state) (symbol_of symbol)) }
{
    match state {
        State::Want { frames } => want(alloc, frames, symbol),
        State::Have { frames, operand } => have(alloc, frames, operand, symbol),
        State::NeedName {
            head,
            filled,
            frames,
        } => Ok(need_name(head, filled, frames, symbol)),
        State::NeedIs {
            head,
            filled,
            name,
            frames,
        } => need_is(head, filled, name, frames, symbol),
        State::NeedWord { formula, frames } => need_word(formula, frames, symbol),
        State::HaveWords { formula, frames } => have_words(alloc, formula, frames, symbol),
    }
}

/// The statements, where the script may end where nothing has come.
#[tactic(auto, using(script_frames::proofs::FrameViews::frames))]
fn finish_none(mut frames: Vec<Frame>) -> Option<Items<Stmt>>
    ensures { option_map stmts_of result ≡ model.finish (model.Want (frames_of frames.items)) }
{
    match frames.pop() {
        Some(
            Frame::InStmt {
                done,
                target: None,
                ..
            },
        ) => Some(done),
        _ => None,
    }
}

/// The statements, where the script may end behind this expression.
fn finish_stmt(
    alloc: Global,
    frames: Vec<Frame>,
    operand: Expr,
) -> Result<Option<Items<Stmt>>, AllocError>
    ensures { IfOk result (λ done. option_map stmts_of done
        ≡ model.finish (model.Have (frames_of frames.items) (tree_of operand))) }
{
    let (mut frames, operand) = close(alloc, frames, operand, 0)?;
    match frames.pop() {
        Some(frame) => last_stmt(frame, operand),
        None => {
            drop(operand);
            Ok(None)
        }
    }
}

/// The statements, where the script may end here.
pub fn finish(alloc: Global, state: State) -> Result<Option<Items<Stmt>>, AllocError>
    ensures { IfOk result (λ done. option_map stmts_of done ≡ model.finish (state_of state)) }
{
    match state {
        State::Want { frames } => Ok(finish_none(frames)),
        State::Have { frames, operand } => finish_stmt(alloc, frames, operand),
        other => {
            drop(other);
            Ok(None)
        }
    }
}
