ghost use Rattle.std.specs.Prelude.{◌≡◌, ◌+◌, ◌<◌, ◌≤◌, ◌==◌, length, map, All, IfOk};
ghost use Rattle.std.specs.Prelude.{if◌then◌else◌};
ghost use Rattle.dt_base.specs.declared.cell.ColType.TheVariants as ty;
ghost use Rattle.dt_base.specs.declared.limits.TheConstants.{MAX_ROWS};
ghost use Rattle.dt_model.specs.Coercion.{brought};
ghost use Rattle.dt_model.specs.Operations.{chosen, picked_by, at_places, goes_with};
ghost use Rattle.na_vector.specs.Words.{lgl_cell};
ghost use Rattle.na_common.specs.Answers.{Answers, vector_of};
ghost use Rattle.na_common.specs.Brought.{choice_at};
ghost use Rattle.na_common.specs.Places.{Serves};
ghost use Rattle.na_words.specs.Shown.{shown, IsShown, vector_from};

use crate::OpFail;
use crate::places::{place_in, push};
use crate::types::common;
use dt_base::{ColType, Steps, Text};
use na_vector::Column;
use na_words::{NA_LGL, Target, Word, Words, words_of};
use std::alloc::{AllocError, Global};
use std::sync::ledger::Ledger;

/// The word that a test picks, brought to the type.
fn pick<A: Word, B: Word, W: Target>(alloc: Global, test: u8, a: &A, b: &B) -> Result<W, AllocError>
    ensures word { IfOk result (λ w. W.cell w ≡
        picked_by (lgl_cell test) (brought W.kind (A.cell a.now)) (brought W.kind (B.cell b.now))) }
    ensures fine { IfOk result W.fine }
{
    match test {
        NA_LGL => Ok(W::na()),
        1 => W::of(alloc, a),
        _ => W::of(alloc, b),
    }
}

/// The word that the test at a place picks.
fn pick_at<A: Word, B: Word, W: Target>(
    alloc: Global,
    test: &[u8],
    a: &[A],
    b: &[B],
    p: usize,
) -> Result<W, AllocError>
    requires place { p < length test.now }
    requires left { (if length a.now == 1 then 0 else p) < length a.now }
    requires right { (if length b.now == 1 then 0 else p) < length b.now }
    ensures word { IfOk result (λ w. W.cell w ≡
        choice_at W.kind (map lgl_cell test.now) (map A.cell a.now) (map B.cell b.now) p) }
    ensures fine { IfOk result W.fine }
{
    pick::<A, B, W>(
        alloc,
        test[p],
        &a[place_in(a.len(), p)],
        &b[place_in(b.len(), p)],
    )
}

/// The words of all places of the test.
fn picks<A: Word, B: Word, W: Target + Drop>(
    alloc: Global,
    test: &[u8],
    a: &[A],
    b: &[B],
) -> Result<Vec<W>, AllocError>
    requires left { Serves (length test.now) (length a.now) }
    requires right { Serves (length test.now) (length b.now) }
    ensures cells { IfOk result (λ v. map W.cell v.items ≡ at_places (length test.now)
        (choice_at W.kind (map lgl_cell test.now) (map A.cell a.now) (map B.cell b.now))) }
    ensures fine { IfOk result (λ v. All W.fine v.items) }
    ensures count { IfOk result (λ v. length v.items ≡ length test.now) }
{
    let mut out = Vec::new(alloc);
    for p in 0..test.len() {
        let w = pick_at::<A, B, W>(alloc, test, a, b, p)?;
        push(&mut out, w)?;
    }
    Ok(out)
}

/// The column of all places of the test.
fn picked<A: Word, B: Word, W: Target + Drop>(
    alloc: Global,
    test: &[u8],
    a: &[A],
    b: &[B],
) -> Result<Column, AllocError>
    requires short { length test.now ≤ MAX_ROWS }
    requires left { Serves (length test.now) (length a.now) }
    requires right { Serves (length test.now) (length b.now) }
    ensures { IfOk result (λ c. c.vector ≡ vector_from W.kind (at_places (length test.now)
        (choice_at W.kind (map lgl_cell test.now) (map A.cell a.now) (map B.cell b.now)))) }
{
    let words = picks::<A, B, W>(alloc, test, a, b)?;
    W::column(words)
}

/// The column of all places of the test, of words of any type.
fn picked_words<W: Target + Drop>(
    alloc: Global,
    test: &[u8],
    a: Words<'_>,
    b: Words<'_>,
) -> Result<Column, AllocError>
    requires short { length test.now ≤ MAX_ROWS }
    requires left { Serves (length test.now) (length (shown a).cells) }
    requires right { Serves (length test.now) (length (shown b).cells) }
    ensures { IfOk result (λ c. c.vector ≡ vector_from W.kind (at_places (length test.now)
        (choice_at W.kind (map lgl_cell test.now) (shown a.entry).cells (shown b.entry).cells))) }
{
    match (a, b) {
        (Words::Lgl(x), Words::Lgl(y)) => picked::<u8, u8, W>(alloc, test, x, y),
        (Words::Lgl(x), Words::Int(y)) => picked::<u8, i64, W>(alloc, test, x, y),
        (Words::Lgl(x), Words::Chr(y)) => picked::<u8, Option<Text>, W>(alloc, test, x, y),
        (Words::Int(x), Words::Lgl(y)) => picked::<i64, u8, W>(alloc, test, x, y),
        (Words::Int(x), Words::Int(y)) => picked::<i64, i64, W>(alloc, test, x, y),
        (Words::Int(x), Words::Chr(y)) => picked::<i64, Option<Text>, W>(alloc, test, x, y),
        (Words::Chr(x), Words::Lgl(y)) => picked::<Option<Text>, u8, W>(alloc, test, x, y),
        (Words::Chr(x), Words::Int(y)) => picked::<Option<Text>, i64, W>(alloc, test, x, y),
        (Words::Chr(x), Words::Chr(y)) => {
            picked::<Option<Text>, Option<Text>, W>(alloc, test, x, y)
        }
    }
}

/// The column of all places of the test, in a type.
fn picked_as(
    alloc: Global,
    kind: ColType,
    test: &[u8],
    a: Words<'_>,
    b: Words<'_>,
) -> Result<Column, AllocError>
    requires short { length test.now ≤ MAX_ROWS }
    requires left { Serves (length test.now) (length (shown a).cells) }
    requires right { Serves (length test.now) (length (shown b).cells) }
    ensures { IfOk result (λ c. c.vector ≡ vector_from kind (at_places (length test.now)
        (choice_at kind (map lgl_cell test.now) (shown a.entry).cells (shown b.entry).cells))) }
{
    match kind {
        ColType::Lgl => picked_words::<u8>(alloc, test, a, b),
        ColType::Int => picked_words::<i64>(alloc, test, a, b),
        ColType::Chr => picked_words::<Option<Text>>(alloc, test, a, b),
    }
}

/// Whether a length goes with that of a test: it is 1, or the same.
fn goes_with(n: usize, m: usize) -> bool
    ensures { result ≡ goes_with n m }
{
    m == 1 || m == n
}

/// The column of the first words where the test is TRUE, of the second where it is FALSE and of NA
/// where it is NA, in the common type of the two: `fifelse`.
///
/// It is `BadType` where the test is not logical, else `Length` with the test's length and that of
/// the first column that has another length and not 1; else only memory can lack. It touches each
/// cell of the three columns once, refused or not.
///
/// From the function `fifelse` of data.table; the common type is dtq's own rule, docs/LANGUAGE.md,
/// section "Functions".
pub fn choose<L: Ledger>(
    alloc: Global,
    test: &Column,
    a: &Column,
    b: &Column,
    steps: &mut Steps<L>,
) -> Result<Column, OpFail>
    ensures answer { Answers vector_of (chosen test.now.vector a.now.vector b.now.vector) result }
    ensures touches { steps.new ≡ steps.old + (length test.now.vector.cells
        + length a.now.vector.cells + length b.now.vector.cells) }
{
    let tests = words_of(test, steps);
    let left = words_of(a, steps);
    let right = words_of(b, steps);
    let kind = common(a.kind(), b.kind());
    let n = test.len();
    let Words::Lgl(flags) = tests else {
        return Err(OpFail::BadType);
    };
    if !goes_with(n, a.len()) {
        return Err(OpFail::Length {
            left: n,
            right: a.len(),
        });
    }
    if !goes_with(n, b.len()) {
        return Err(OpFail::Length {
            left: n,
            right: b.len(),
        });
    }
    match picked_as(alloc, kind, flags, left, right) {
        Ok(column) => Ok(column),
        Err(e) => Err(OpFail::NoMemory(e)),
    }
}
