ghost use Rattle.std.specs.Prelude.{◌≡◌};
ghost use Rattle.run_model.specs.Grammar.{level, is_single, prefix_level};
ghost use Rattle.script_frames.specs.Frames.{prefix_of};

use dt_base::Op;
use dt_tree::BinOp;
use script_frames::Prefix;

/// How tightly an operator binds: 0 is the loosest.
pub fn level(op: BinOp) -> u8
    ensures { result ≡ level op }
{
    match op {
        BinOp::Arith(Op::Or) => 0,
        BinOp::Arith(Op::And) => 1,
        BinOp::Arith(Op::Eq | Op::Ne | Op::Lt | Op::Le | Op::Gt | Op::Ge) => 3,
        BinOp::Arith(Op::Add | Op::Sub) => 4,
        BinOp::Arith(Op::Mul) => 5,
        BinOp::Arith(Op::Div | Op::Mod) | BinOp::In => 6,
        BinOp::Range => 7,
    }
}

/// Whether at most one operator of this level stands in a row.
pub fn is_single(op: BinOp) -> bool
    ensures { result ≡ is_single op }
{
    match op {
        BinOp::Arith(Op::Eq | Op::Ne | Op::Lt | Op::Le | Op::Gt | Op::Ge) | BinOp::Range => true,
        _ => false,
    }
}

/// How tightly a one-sided operator binds.
pub fn prefix_level(prefix: Prefix) -> u8
    ensures { result ≡ prefix_level (prefix_of prefix) }
{
    match prefix {
        Prefix::Not => 2,
        Prefix::Negate => 8,
    }
}
