ghost use Rattle.std.specs.Prelude.{◌≡◌, ◌≤◌, ◌+◌, Ok, codes, length, IfOk, IfErr};
ghost use Rattle.eval_fail.specs.Answers.{AnswersAs, IsOwn};
ghost use Rattle.dt_model.specs.Operations.{binary, chosen, contained};
ghost use Rattle.expr_model.specs.Operators.{op_word, unary_word, op_result, tail_value};
ghost use Rattle.expr_model.specs.Operators.{sign_value};
ghost use Rattle.expr_operate.specs.Refusals.{Refuses};
ghost use Rattle.valued.specs.Valued.{vector_of};

use crate::ranges::range_value;
use crate::types::{op_name, unary_name};
use dt_base::{Code, Op, Steps, UnOp};
use dt_tree::BinOp;
use eval_fail::{EvalFail, stop, stop_length};
use na_ops::{OpFail, binary, choose, contained, unary};
use na_vector::Column;
use std::alloc::Global;
use std::sync::ledger::Ledger;

/// The fault of an operation that is refused, told with this word.
fn refused(alloc: Global, word: &str, fail: OpFail) -> EvalFail
    ensures answer { Refuses word.now fail result }
    ensures own { IsOwn result }
{
    match fail {
        OpFail::BadType => stop(alloc, Code::E04, word),
        OpFail::Length { left, right } => stop_length(alloc, right, left),
        OpFail::Overflow { place: _ } => stop(alloc, Code::E06, word),
        OpFail::TooManyRows => stop(alloc, Code::E07, ""),
        OpFail::NoMemory(error) => EvalFail::NoMemory(error),
    }
}

#[tactic(auto, using(crate::proofs::Refused::refused_told))]
fn arith_value<L: Ledger>(
    alloc: Global,
    op: Op,
    a: &Column,
    b: &Column,
    steps: &mut Steps<L>,
) -> Result<Column, EvalFail>
    ensures answer { AnswersAs vector_of
        (op_result (op_word op) (binary op a.now.vector b.now.vector)) result }
    ensures own { IfErr result IsOwn }
    ensures touches { steps.new
        ≤ steps.old + (length a.now.vector.cells + length b.now.vector.cells) }
{
    match binary(alloc, op, a, b, steps) {
        Ok(column) => Ok(column),
        Err(fail) => Err(refused(alloc, op_name(op), fail)),
    }
}

fn member_value<L: Ledger>(
    alloc: Global,
    a: &Column,
    b: &Column,
    steps: &mut Steps<L>,
) -> Result<Column, EvalFail>
    ensures answer { AnswersAs vector_of (Ok (contained a.now.vector b.now.vector)) result }
    ensures own { IfErr result IsOwn }
    ensures touches { steps.new
        ≤ steps.old + (length a.now.vector.cells + length b.now.vector.cells) }
{
    match contained(alloc, a, b, steps) {
        Ok(column) => Ok(column),
        Err(e) => Err(EvalFail::NoMemory(e)),
    }
}

/// What a two-sided operator gives for two vectors.
pub fn tail_value<L: Ledger>(
    alloc: Global,
    op: BinOp,
    a: &Column,
    b: &Column,
    steps: &mut Steps<L>,
) -> Result<Column, EvalFail>
    ensures answer { AnswersAs vector_of (tail_value op a.now.vector b.now.vector) result }
    ensures own { IfErr result IsOwn }
    ensures touches { steps.new
        ≤ steps.old + (length a.now.vector.cells + length b.now.vector.cells) }
{
    match op {
        BinOp::Arith(op) => arith_value(alloc, op, a, b, steps),
        BinOp::In => member_value(alloc, a, b, steps),
        BinOp::Range => range_value(alloc, a, b, steps),
    }
}

/// What `-`, `!` or `is.na` gives for a vector. It touches each cell once.
#[tactic(auto, using(crate::proofs::Refused::refused_told, crate::proofs::Signs::unary_cells))]
pub fn sign_value<L: Ledger>(
    alloc: Global,
    op: UnOp,
    a: &Column,
    steps: &mut Steps<L>,
) -> Result<Column, EvalFail>
    ensures answer { AnswersAs vector_of (sign_value op a.now.vector) result }
    ensures count { IfOk result (λ c. length c.vector.cells ≡ length a.now.vector.cells) }
    ensures own { IfErr result IsOwn }
    ensures touches { steps.new ≡ steps.old + length a.now.vector.cells }
{
    match unary(alloc, op, a, steps) {
        Ok(column) => Ok(column),
        Err(fail) => Err(refused(alloc, unary_name(op), fail)),
    }
}

#[tactic(auto, using(crate::proofs::Refused::refused_told))]
pub fn chosen<L: Ledger>(
    alloc: Global,
    test: &Column,
    a: &Column,
    b: &Column,
    steps: &mut Steps<L>,
) -> Result<Column, EvalFail>
    ensures answer { AnswersAs vector_of
        (op_result (codes "fifelse") (chosen test.now.vector a.now.vector b.now.vector)) result }
    ensures own { IfErr result IsOwn }
{
    match choose(alloc, test, a, b, steps) {
        Ok(column) => Ok(column),
        Err(fail) => Err(refused(alloc, "fifelse", fail)),
    }
}
