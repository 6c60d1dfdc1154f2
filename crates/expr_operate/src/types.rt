ghost use Rattle.std.specs.Prelude.{◌≡◌, IfErr};
ghost use Rattle.eval_fail.specs.Answers.{Answers, IsOwn};
ghost use Rattle.dt_model.specs.Operations.{arithmetic_type};
ghost use Rattle.expr_model.specs.Operators.{op_word, unary_word, typed_as, range_type, tail_type};
ghost use Rattle.expr_model.specs.Operators.{sign_type};

use dt_base::{Code, ColType, Op, UnOp};
use dt_tree::BinOp;
use eval_fail::{EvalFail, stop};
use na_ops::op_type;
use std::alloc::Global;

/// An operator as it is written.
pub fn op_name(op: Op) -> &'static str
    ensures { result.now ≡ op_word op }
{
    match op {
        Op::Add => "+",
        Op::Sub => "-",
        Op::Mul => "*",
        Op::Div => "%/%",
        Op::Mod => "%%",
        Op::Eq => "==",
        Op::Ne => "!=",
        Op::Lt => "<",
        Op::Le => "<=",
        Op::Gt => ">",
        Op::Ge => ">=",
        Op::And => "&",
        Op::Or => "|",
    }
}

/// A one-sided operator as it is written.
pub fn unary_name(op: UnOp) -> &'static str
    ensures { result.now ≡ unary_word op }
{
    match op {
        UnOp::Neg => "-",
        UnOp::Not => "!",
        UnOp::IsNa => "is.na",
    }
}

/// The type of a result, or E04 with the word where the types have none.
fn typed_as(alloc: Global, word: &str, kind: Option<ColType>) -> Result<ColType, EvalFail>
    ensures answer { Answers (typed_as word.now kind) result }
    ensures own { IfErr result IsOwn }
{
    match kind {
        Some(kind) => Ok(kind),
        None => Err(stop(alloc, Code::E04, word)),
    }
}

/// The type of arithmetic.
fn arithmetic_type(a: ColType, b: ColType) -> Option<ColType>
    ensures { result ≡ arithmetic_type a b }
{
    op_type(Op::Add, a, b)
}

/// The type of a range. Texts are E04 with `:`.
pub fn range_type(alloc: Global, a: ColType, b: ColType) -> Result<ColType, EvalFail>
    ensures answer { Answers (range_type a b) result }
    ensures own { IfErr result IsOwn }
{
    typed_as(alloc, ":", arithmetic_type(a, b))
}

/// The type that a two-sided operator gives for two types. Types that it does not take are E04 with
/// the operator.
pub fn tail_type(alloc: Global, op: BinOp, a: ColType, b: ColType) -> Result<ColType, EvalFail>
    ensures answer { Answers (tail_type op a b) result }
    ensures own { IfErr result IsOwn }
{
    match op {
        BinOp::Arith(op) => typed_as(alloc, op_name(op), op_type(op, a, b)),
        BinOp::In => Ok(ColType::Lgl),
        BinOp::Range => range_type(alloc, a, b),
    }
}

/// The type that `-` or `!` gives for a type, or `is.na`.
pub fn sign_type(alloc: Global, op: UnOp, kind: ColType) -> Result<ColType, EvalFail>
    ensures answer { Answers (sign_type op kind) result }
    ensures own { IfErr result IsOwn }
{
    match op {
        UnOp::Neg => typed_as(alloc, "-", op_type(Op::Sub, kind, kind)),
        UnOp::Not => typed_as(alloc, "!", op_type(Op::And, kind, kind)),
        UnOp::IsNa => Ok(ColType::Lgl),
    }
}
