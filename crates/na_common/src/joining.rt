ghost use Rattle.std.specs.Prelude.{◌≡◌, ◌+◌, ◌≤◌, ◌++◌, length, map, IfOk};
ghost use Rattle.dt_model.specs.Coercion.{brought};
ghost use Rattle.dt_model.specs.Combine.{combined};
ghost use Rattle.na_common.specs.Answers.{Answers, vector_of};
ghost use Rattle.na_words.specs.Shown.{shown, vector_from};

use crate::OpFail;
use crate::types::common;
use dt_base::limits::MAX_ROWS;
use dt_base::{ColType, Steps, Text};
use na_vector::Column;
use na_words::{Target, Words, append_words, words_of};
use std::alloc::{AllocError, Global};
use std::sync::ledger::Ledger;

/// The words of two columns in a row, brought to the type.
fn joined<W: Target + Drop>(alloc: Global, a: Words<'_>, b: Words<'_>) -> Result<Column, AllocError>
    requires { length (shown a).cells + length (shown b).cells ≤ MAX_ROWS }
    ensures { IfOk result (λ c. c.vector ≡ vector_from W.kind
        (map (brought W.kind) (shown a.entry).cells
        ++ map (brought W.kind) (shown b.entry).cells)) }
{
    let mut out = Vec::new(alloc);
    append_words::<W>(alloc, &mut out, a)?;
    append_words::<W>(alloc, &mut out, b)?;
    W::column(out)
}

/// The words of two columns in a row, brought to a type.
fn joined_as(alloc: Global, kind: ColType, a: Words<'_>, b: Words<'_>) -> Result<Column, AllocError>
    requires { length (shown a).cells + length (shown b).cells ≤ MAX_ROWS }
    ensures { IfOk result (λ c. c.vector ≡ vector_from kind
        (map (brought kind) (shown a.entry).cells ++ map (brought kind) (shown b.entry).cells)) }
{
    match kind {
        ColType::Lgl => joined::<u8>(alloc, a, b),
        ColType::Int => joined::<i64>(alloc, a, b),
        ColType::Chr => joined::<Option<Text>>(alloc, a, b),
    }
}

/// All cells of two columns in a row, in the common type: `c` of two vectors.
///
/// It is `TooManyRows` where there would be more than 16,777,216 cells; else only memory can lack.
/// It touches each cell of both columns once, refused or not.
///
/// From the function `c` of R; the types are dtq's own rule, docs/LANGUAGE.md, section "Operators".
pub fn concat<L: Ledger>(
    alloc: Global,
    a: &Column,
    b: &Column,
    steps: &mut Steps<L>,
) -> Result<Column, OpFail>
    ensures answer { Answers vector_of (combined a.now.vector b.now.vector) result }
    ensures touches { steps.new ≡
        steps.old + (length a.now.vector.cells + length b.now.vector.cells) }
{
    let left = words_of(a, steps);
    let right = words_of(b, steps);
    if MAX_ROWS < a.len() + b.len() {
        return Err(OpFail::TooManyRows);
    }
    match joined_as(alloc, common(a.kind(), b.kind()), left, right) {
        Ok(column) => Ok(column),
        Err(e) => Err(OpFail::NoMemory(e)),
    }
}
