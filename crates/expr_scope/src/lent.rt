ghost use Rattle.std.specs.Prelude.{◌≡◌, ◌+◌, ◌<◌, ◌≤◌, ◌^◌, length, pos, map, Ok, IfOk, IfErr};
ghost use Rattle.eval_fail.specs.Answers.{AnswersAs, IsOwn};
ghost use Rattle.dt_base.specs.Warns.{no_warns};
ghost use Rattle.dt_base.specs.declared.cell.Cell.TheVariants as is;
ghost use Rattle.dt_base.specs.declared.limits.TheConstants.{MAX_ROWS};
ghost use Rattle.expr_scope.specs.Scope.{env_of, IsScope};
ghost use Rattle.expr_scope.specs.Slots.{operand_of};
ghost use Rattle.session_model.specs.Expression.{quiet};
ghost use Rattle.expr_model.specs.Surroundings.{var_vector, bracket_vector, group_vector};
ghost use Rattle.expr_model.specs.Surroundings.{special_vector, name_vector, row_number, integer};
ghost use Rattle.na_vector.specs.Words.{int_cell};
ghost use Rattle.na_words.specs.Shown.{vector_from};
ghost use Rattle.valued.specs.Valued.{valued_of};

use crate::names::{bracket_vector, var_vector};
use crate::operands::Operand;
use crate::{Scope, Vars};
use dt_base::limits::NA_WORD;
use dt_base::{Code, ColType, Steps, Warns};
use eval_fail::{EvalFail, stop};
use func_table::{Special, special_named};
use na_vector::Column;
use std::alloc::{AllocError, Global};
use std::sync::ledger::Ledger;
use valued::{Valued, one};

/// A number as a word.
fn number_word(n: u64) -> i64
    requires { n < 2 ^ 63 }
    ensures { int_cell result ≡ is.Int (pos n) }
{
    n as i64
}

/// The word of a row's number, counted from 1; that of NA for a row of NA.
fn row_word(position: Option<u32>) -> i64
    ensures { int_cell result ≡ row_number position }
{
    match position {
        Some(p) => number_word(p as u64 + 1),
        None => NA_WORD,
    }
}

/// The words of the rows' numbers.
fn row_words(alloc: Global, positions: &[Option<u32>]) -> Result<Vec<i64>, AllocError>
    ensures cells { IfOk result (λ v. map int_cell v.items ≡ map row_number positions.now) }
    ensures count { IfOk result (λ v. length v.items ≡ length positions.now) }
{
    let mut words = Vec::new(alloc);
    for p in positions {
        words.push(row_word(*p))?;
    }
    Ok(words)
}

/// The column of the rows' numbers.
fn position_column(alloc: Global, positions: &[Option<u32>]) -> Result<Column, AllocError>
    requires { length positions.now ≤ MAX_ROWS }
    ensures { IfOk result (λ c. c.vector ≡ vector_from ColType.Int (map row_number positions.now)) }
{
    Ok(Column::from_ints(row_words(alloc, positions)?))
}

fn rows_value<V: Vars>(alloc: Global, s: &Scope<'_, V>) -> Result<Valued, EvalFail>
    requires { IsScope s.now }
    ensures answer { AnswersAs valued_of
        (quiet (special_vector (env_of V.bound s.now) Special.Places)) result }
    ensures own { IfErr result IsOwn }
{
    let _rows = s.wide.rows();
    match position_column(alloc, s.positions) {
        Ok(column) => Ok(unwarned(column)),
        Err(e) => Err(EvalFail::NoMemory(e)),
    }
}

/// A column without warnings.
pub fn unwarned(column: Column) -> Valued
    ensures column { result.column ≡ column }
    ensures warns { result.warns ≡ no_warns }
{
    Valued {
        column,
        warns: Warns::none(),
    }
}

/// The vector of one number.
pub fn number_value(alloc: Global, n: u64) -> Result<Valued, EvalFail>
    requires { n < 2 ^ 63 }
    ensures answer { AnswersAs valued_of (quiet (Ok (integer n))) result }
    ensures own { IfErr result IsOwn }
{
    one::<i64>(alloc, number_word(n))
}

fn group_value(alloc: Global, group: u64) -> Result<Valued, EvalFail>
    requires { group < 2 ^ 63 }
    ensures answer { AnswersAs valued_of (quiet (group_vector group)) result }
    ensures own { IfErr result IsOwn }
{
    if group == 0 {
        return Err(stop(alloc, Code::E03, ".GRP"));
    }
    number_value(alloc, group)
}

/// The value of a special name. `.GRP` is E03 where there are no groups, and `.SD` is E04.
fn special_value<V: Vars>(
    alloc: Global,
    s: &Scope<'_, V>,
    special: Special,
) -> Result<Valued, EvalFail>
    requires { IsScope s.now }
    ensures answer { AnswersAs valued_of (quiet (special_vector (env_of V.bound s.now) special))
        result }
    ensures own { IfErr result IsOwn }
{
    match special {
        Special::Count => number_value(alloc, s.count),
        Special::Places => rows_value(alloc, s),
        Special::Group => group_value(alloc, s.group),
        Special::Rows => Err(stop(alloc, Code::E04, ".SD")),
    }
}

/// A copy of a column, without warnings.
pub fn copied<L: Ledger>(
    alloc: Global,
    column: &Column,
    steps: &mut Steps<L>,
) -> Result<Valued, EvalFail>
    ensures answer { AnswersAs valued_of (quiet (Ok column.now.vector)) result }
    ensures own { IfErr result IsOwn }
    ensures touches { steps.new ≡ steps.old + length column.now.vector.cells }
{
    match column.copy(alloc, steps) {
        Ok(column) => Ok(unwarned(column)),
        Err(e) => Err(EvalFail::NoMemory(e)),
    }
}

fn outside_operand<'a, V: Vars>(
    alloc: Global,
    s: &Scope<'a, V>,
    name: &str,
) -> Result<Operand<'a>, EvalFail>
    ensures answer { AnswersAs operand_of
        (quiet (var_vector Code.E02 name.now (V.bound s.now.vars.now name.now))) result }
    ensures own { IfErr result IsOwn }
{
    Ok(Operand::Lent(var_vector(alloc, s.vars, Code::E02, name)?))
}

fn bracket_operand<'a, V: Vars>(
    alloc: Global,
    s: &Scope<'a, V>,
    name: &str,
) -> Result<Operand<'a>, EvalFail>
    requires { IsScope s.now }
    ensures answer { AnswersAs operand_of (quiet (bracket_vector (env_of V.bound s.now) name.now))
        result }
    ensures own { IfErr result IsOwn }
{
    Ok(Operand::Lent(bracket_vector(alloc, s, name)?))
}

fn special_operand<'a, V: Vars>(
    alloc: Global,
    s: &Scope<'a, V>,
    special: Special,
) -> Result<Operand<'a>, EvalFail>
    requires { IsScope s.now }
    ensures answer { AnswersAs operand_of (quiet (special_vector (env_of V.bound s.now) special))
        result }
    ensures own { IfErr result IsOwn }
{
    Ok(Operand::Own(special_value(alloc, s, special)?))
}

/// What a name gives where a vector is wanted. A column is lent.
pub fn name_operand<'a, V: Vars>(
    alloc: Global,
    s: &Scope<'a, V>,
    name: &str,
) -> Result<Operand<'a>, EvalFail>
    requires { IsScope s.now }
    ensures answer { AnswersAs operand_of (quiet (name_vector (env_of V.bound s.now) name.now))
        result }
    ensures own { IfErr result IsOwn }
{
    if !s.inside {
        return outside_operand(alloc, s, name);
    }
    match special_named(name) {
        Some(special) => special_operand(alloc, s, special),
        None => bracket_operand(alloc, s, name),
    }
}
