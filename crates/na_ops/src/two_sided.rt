ghost use Rattle.std.specs.Prelude.{◌≡◌, ◌+◌, length};
ghost use Rattle.dt_model.specs.Operations.{binary, op_type};
ghost use Rattle.na_common.specs.Answers.{Answers, vector_of};
ghost use Rattle.na_words.specs.Shown.{shown, IsShown};

use crate::arithmetic::{Add, Divide, Modulo, Multiply, Subtract, calculate};
use crate::compare::{Equal, Greater, GreaterOrEqual, Less, LessOrEqual, NotEqual, compare};
use crate::logic::{Both, Either, connect};
use dt_base::{ColType, Op, Steps};
use na_common::OpFail;
use na_vector::Column;
use na_words::{Words, words_of};
use std::alloc::Global;
use std::sync::ledger::Ledger;

/// What two types give: a type, or nothing.
type Case = Option<ColType>;

/// The number of types. A new type is a new row and a new column of each table.
const TYPES: usize = 3;

const NONE: Case = None;

const LGL: Case = Some(ColType::Lgl);

const INT: Case = Some(ColType::Int);

/// The types of arithmetic, by the type of the left side and that of the right: Lgl, Int, Chr.
const ARITHMETIC: [[Case; TYPES]; TYPES] = [[INT, INT, NONE], [INT, INT, NONE], [NONE, NONE, NONE]];

/// The types of comparisons.
const COMPARISON: [[Case; TYPES]; TYPES] = [[LGL, LGL, LGL], [LGL, LGL, LGL], [LGL, LGL, LGL]];

/// The types of `&` and `|`.
const LOGIC: [[Case; TYPES]; TYPES] = [[LGL, NONE, NONE], [NONE, NONE, NONE], [NONE, NONE, NONE]];

/// The type of an operation's result for two types, if they have one.
pub fn op_type(op: Op, a: ColType, b: ColType) -> Option<ColType>
    ensures { result ≡ op_type op a b }
{
    match op {
        Op::Add | Op::Sub | Op::Mul | Op::Div | Op::Mod => ARITHMETIC[a as usize][b as usize],
        Op::Eq | Op::Ne | Op::Lt | Op::Le | Op::Gt | Op::Ge => COMPARISON[a as usize][b as usize],
        Op::And | Op::Or => LOGIC[a as usize][b as usize],
    }
}

/// The operation on the words of two columns.
fn operate(alloc: Global, op: Op, a: Words<'_>, b: Words<'_>) -> Result<Column, OpFail>
    requires left { IsShown a }
    requires right { IsShown b }
    ensures { Answers vector_of (binary op (shown a.entry) (shown b.entry)) result }
{
    match op {
        Op::Add => calculate::<Add>(alloc, a, b),
        Op::Sub => calculate::<Subtract>(alloc, a, b),
        Op::Mul => calculate::<Multiply>(alloc, a, b),
        Op::Div => calculate::<Divide>(alloc, a, b),
        Op::Mod => calculate::<Modulo>(alloc, a, b),
        Op::Eq => compare::<Equal>(alloc, a, b),
        Op::Ne => compare::<NotEqual>(alloc, a, b),
        Op::Lt => compare::<Less>(alloc, a, b),
        Op::Le => compare::<LessOrEqual>(alloc, a, b),
        Op::Gt => compare::<Greater>(alloc, a, b),
        Op::Ge => compare::<GreaterOrEqual>(alloc, a, b),
        Op::And => connect::<Both>(alloc, a, b),
        Op::Or => connect::<Either>(alloc, a, b),
    }
}

/// The column of an operation at each place of two columns.
///
/// Two lengths are equal, or one is 1 and its only cell stands at every place; the result has the
/// other length, 0 included. It is `BadType` where the two types have no result, else `Length`
/// where the lengths do not go together, else `Overflow` with the least place where some result is
/// outside the integers; else only memory can lack. It touches each cell of both columns once,
/// refused or not.
///
/// dtq's own rule, docs/LANGUAGE.md, section "Operators".
pub fn binary<L: Ledger>(
    alloc: Global,
    op: Op,
    a: &Column,
    b: &Column,
    steps: &mut Steps<L>,
) -> Result<Column, OpFail>
    ensures answer { Answers vector_of (binary op a.now.vector b.now.vector) result }
    ensures touches { steps.new ≡
        steps.old + (length a.now.vector.cells + length b.now.vector.cells) }
{
    let left = words_of(a, steps);
    let right = words_of(b, steps);
    operate(alloc, op, left, right)
}
