ghost use Rattle.std.specs.Prelude.{◌≡◌, ◌+◌, Ok, IfErr};
ghost use Rattle.eval_fail.specs.Answers.{AnswersAs, IsOwn};
ghost use Rattle.expr_scope.specs.Slots.{copied_cells, operand_of};
ghost use Rattle.valued.specs.Valued.{valued_of};

use crate::lent::copied;
use dt_base::{Steps, Warns};
use eval_fail::EvalFail;
use na_vector::Column;
use std::alloc::Global;
use std::sync::ledger::Ledger;
use valued::Valued;

/// What an operator or a function is given: a value that is made, or a column that a name stands
/// for, which is lent and only read.
#[derive(Drop)]
pub enum Operand<'a> {
    Own(Valued),
    Lent(&'a Column),
}

impl Operand<'_> {
    ghost use Rattle.std.specs.Prelude.{◌≡◌};
    ghost use Rattle.expr_scope.specs.Slots.{operand_of};

    /// Its column.
    pub fn column(&self) -> &Column
        ensures { result.now.vector ≡ (operand_of self.now).vector }
    {
        match self {
            Operand::Own(value) => &value.column,
            Operand::Lent(column) => column,
        }
    }

    /// Its warnings: a column that is lent has none.
    pub fn warns(&self) -> Warns
        ensures { result ≡ (operand_of self.now).warns }
    {
        match self {
            Operand::Own(value) => value.warns,
            Operand::Lent(_) => Warns::none(),
        }
    }
}

/// The operand as a value of its own: what is lent is copied.
pub fn owned<L: Ledger>(
    alloc: Global,
    operand: Operand<'_>,
    steps: &mut Steps<L>,
) -> Result<Valued, EvalFail>
    ensures answer { AnswersAs valued_of (Ok (operand_of operand.entry)) result }
    ensures own { IfErr result IsOwn }
    ensures touches { steps.new ≡ steps.old + copied_cells operand.entry }
{
    match operand {
        Operand::Own(value) => Ok(value),
        Operand::Lent(column) => copied(alloc, column, steps),
    }
}
