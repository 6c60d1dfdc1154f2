ghost use Rattle.std.specs.Prelude.{◌≡◌, ◌≤◌, ◌+◌, length, IfOk, IfErr};
ghost use Rattle.eval_fail.specs.Answers.{AnswersAs, IsOwn};
ghost use Rattle.dt_base.specs.Warns.{both_warns};
ghost use Rattle.expr_model.specs.Functions.{choice_value, conversion, na_test};
ghost use Rattle.expr_scope.specs.Slots.{operand_of};
ghost use Rattle.session_model.specs.Expression.{met, signed};
ghost use Rattle.valued.specs.Valued.{valued_of};

use dt_base::{ColType, Steps, UnOp};
use dt_tree::BinOp;
use eval_fail::EvalFail;
use expr_operate::{chosen, sign_value, tail_value};
use expr_scope::{Operand, unwarned};
use na_ops::coerce;
use na_vector::Column;
use std::alloc::Global;
use std::sync::ledger::Ledger;
use valued::Valued;

/// What a two-sided operator gives for two values, with the warnings of both. It touches each cell
/// of both once at most.
fn of_both<L: Ledger>(
    alloc: Global,
    op: BinOp,
    left: &Operand<'_>,
    right: &Operand<'_>,
    steps: &mut Steps<L>,
) -> Result<Valued, EvalFail>
    ensures answer { AnswersAs valued_of (met op (operand_of left.now) (operand_of right.now))
        result }
    ensures own { IfErr result IsOwn }
    ensures touches { steps.new ≤ steps.old
        + (length (operand_of left.now).vector.cells + length (operand_of right.now).vector.cells) }
{
    let column = tail_value(alloc, op, left.column(), right.column(), steps)?;
    Ok(Valued {
        column,
        warns: left.warns().both(right.warns()),
    })
}

/// The same, of values that end here.
pub fn met<'a, L: Ledger>(
    alloc: Global,
    op: BinOp,
    left: Operand<'a>,
    right: Operand<'a>,
    steps: &mut Steps<L>,
) -> Result<Operand<'a>, EvalFail>
    ensures answer { AnswersAs operand_of (met op (operand_of left.entry) (operand_of right.entry))
        result }
    ensures own { IfErr result IsOwn }
    ensures touches { steps.new ≤ steps.old
        + (length (operand_of left.entry).vector.cells
        + length (operand_of right.entry).vector.cells) }
{
    let value = of_both(alloc, op, &left, &right, steps);
    drop((left, right));
    Ok(Operand::Own(value?))
}

/// What `-` or `!` gives for a value, with its warnings. It touches each cell once.
pub fn signed<L: Ledger>(
    alloc: Global,
    op: UnOp,
    a: &Operand<'_>,
    steps: &mut Steps<L>,
) -> Result<Valued, EvalFail>
    ensures answer { AnswersAs valued_of (signed op (operand_of a.now)) result }
    ensures count { IfOk result (λ v. length v.column.vector.cells
        ≡ length (operand_of a.now).vector.cells) }
    ensures own { IfErr result IsOwn }
    ensures touches { steps.new ≡ steps.old + length (operand_of a.now).vector.cells }
{
    let column = sign_value(alloc, op, a.column(), steps)?;
    Ok(Valued {
        column,
        warns: a.warns(),
    })
}

/// `is.na`.
pub fn na_test<L: Ledger>(
    alloc: Global,
    x: &Column,
    steps: &mut Steps<L>,
) -> Result<Valued, EvalFail>
    ensures answer { AnswersAs valued_of (na_test x.now.vector) result }
    ensures own { IfErr result IsOwn }
{
    Ok(unwarned(sign_value(alloc, UnOp::IsNa, x, steps)?))
}

/// `fifelse`.
pub fn choice_value<L: Ledger>(
    alloc: Global,
    test: &Column,
    a: &Column,
    b: &Column,
    steps: &mut Steps<L>,
) -> Result<Valued, EvalFail>
    ensures answer { AnswersAs valued_of (choice_value test.now.vector a.now.vector b.now.vector)
        result }
    ensures own { IfErr result IsOwn }
{
    Ok(unwarned(chosen(alloc, test, a, b, steps)?))
}

/// `as.logical`, `as.integer`, `as.character`.
pub fn conversion<L: Ledger>(
    alloc: Global,
    to: ColType,
    x: &Column,
    steps: &mut Steps<L>,
) -> Result<Valued, EvalFail>
    ensures answer { AnswersAs valued_of (conversion to x.now.vector) result }
    ensures own { IfErr result IsOwn }
{
    match coerce(alloc, x, to, steps) {
        Ok((column, warns)) => Ok(Valued { column, warns }),
        Err(e) => Err(EvalFail::NoMemory(e)),
    }
}
