ghost use Rattle.std.specs.Prelude.{◌≡◌, ◌≤◌, Bool, Some, map, length};
ghost use Rattle.dt_base.specs.declared.cell.ColType.TheVariants as ty;
ghost use Rattle.std.specs.Cmp.Lexicographic.{slice_cmp};
ghost use Rattle.std.specs.Ordering.{nat_cmp, int_cmp, is_eq, is_ne, is_lt, is_le, is_gt, is_ge};
ghost use Rattle.std.specs.declared.cmp.Ordering.{Ordering};
ghost use Rattle.dt_base.specs.declared.limits.TheConstants.{MAX_ROWS};
ghost use Rattle.dt_model.specs.Operations.{Gives, number, text, order_of, tested, over_cells};
ghost use Rattle.dt_model.specs.Operations.{typed};
ghost use Rattle.na_vector.specs.Words.{int_cell, lgl_cell, text_cell, IsLglWord};
ghost use Rattle.na_common.specs.Answers.{Answers, vector_of};
ghost use Rattle.na_ops.specs.Families.{comparison_answer};
ghost use Rattle.na_words.specs.Shown.{shown, IsShown};

use crate::places::{Kernel, over};
use dt_base::Text;
use dt_base::limits::NA_WORD;
use na_common::OpFail;
use na_vector::Column;
use na_words::{NA_LGL, Number, Words, brought_words};
use std::alloc::Global;
use std::marker::PhantomData;

/// A test of the order of two values.
pub trait Comparison {
    ghost test: { Ordering → Bool };

    fn numbers(x: i64, y: i64) -> bool
        ensures { result ≡ test (int_cmp x y) };

    /// Texts are ordered by their bytes.
    fn texts(x: &str, y: &str) -> bool
        ensures { result ≡ test (slice_cmp nat_cmp x.now y.now) };
}

/// A test of the numbers that two words count as.
pub struct NumbersTest<K> {
    test: PhantomData<K>,
}

/// A test of two texts.
pub struct TextsTest<K> {
    test: PhantomData<K>,
}

fn number_test<K: Comparison>(x: i64, y: i64) -> u8
    ensures word { tested K.test (order_of int_cmp (number (int_cell x)) (number (int_cell y)))
        ≡ Gives (lgl_cell result) }
    ensures fine { IsLglWord result }
{
    if x == NA_WORD || y == NA_WORD {
        return NA_LGL;
    }
    K::numbers(x, y) as u8
}

impl<A: Number, B: Number, K: Comparison> Kernel<A, B, u8> for NumbersTest<K> {
    ghost table = { λ a b. tested K.test (order_of int_cmp (number a) (number b)) };

    fn at(x: &A, y: &B) -> Option<u8> {
        Some(number_test::<K>(x.number(), y.number()))
    }
}

impl<K: Comparison> Kernel<Option<Text>, Option<Text>, u8> for TextsTest<K> {
    ghost table = { λ a b. tested K.test (order_of (slice_cmp nat_cmp) (text a) (text b)) };

    fn at(x: &Option<Text>, y: &Option<Text>) -> Option<u8> {
        match (x, y) {
            (Some(x), Some(y)) => Some(K::texts(x.as_str(), y.as_str()) as u8),
            _ => Some(NA_LGL),
        }
    }
}

/// The test of texts on the left and a column on the right, which is brought to texts.
fn compare_texts_left<K: Comparison>(
    alloc: Global,
    a: &[Option<Text>],
    b: Words<'_>,
) -> Result<Column, OpFail>
    requires left { length a.now ≤ MAX_ROWS }
    requires right { IsShown b }
    ensures { Answers vector_of (typed (Some ty.Lgl)
        (over_cells (λ x y. tested K.test (order_of (slice_cmp nat_cmp) (text x) (text y)))
        (map text_cell a.now) (shown b.entry).cells)) result }
{
    match brought_words::<Option<Text>>(alloc, b) {
        Ok(texts) => over::<Option<Text>, Option<Text>, u8, TextsTest<K>>(
            alloc,
            a,
            texts.as_slice(),
        ),
        Err(e) => Err(OpFail::NoMemory(e)),
    }
}

/// The test of texts on the right and a column on the left, which is brought to texts.
fn compare_texts_right<K: Comparison>(
    alloc: Global,
    a: Words<'_>,
    b: &[Option<Text>],
) -> Result<Column, OpFail>
    requires left { IsShown a }
    requires right { length b.now ≤ MAX_ROWS }
    ensures { Answers vector_of (typed (Some ty.Lgl)
        (over_cells (λ x y. tested K.test (order_of (slice_cmp nat_cmp) (text x) (text y)))
        (shown a.entry).cells (map text_cell b.now))) result }
{
    match brought_words::<Option<Text>>(alloc, a) {
        Ok(texts) => over::<Option<Text>, Option<Text>, u8, TextsTest<K>>(
            alloc,
            texts.as_slice(),
            b,
        ),
        Err(e) => Err(OpFail::NoMemory(e)),
    }
}

/// The test of two columns, in their common type.
pub fn compare<K: Comparison>(alloc: Global, a: Words<'_>, b: Words<'_>) -> Result<Column, OpFail>
    requires left { IsShown a }
    requires right { IsShown b }
    ensures { Answers vector_of (comparison_answer K.test (shown a.entry) (shown b.entry)) result }
{
    match (a, b) {
        (Words::Lgl(x), Words::Lgl(y)) => over::<u8, u8, u8, NumbersTest<K>>(alloc, x, y),
        (Words::Lgl(x), Words::Int(y)) => over::<u8, i64, u8, NumbersTest<K>>(alloc, x, y),
        (Words::Int(x), Words::Lgl(y)) => over::<i64, u8, u8, NumbersTest<K>>(alloc, x, y),
        (Words::Int(x), Words::Int(y)) => over::<i64, i64, u8, NumbersTest<K>>(alloc, x, y),
        (Words::Chr(x), Words::Lgl(_)) => compare_texts_left::<K>(alloc, x, b),
        (Words::Chr(x), Words::Int(_)) => compare_texts_left::<K>(alloc, x, b),
        (Words::Chr(x), Words::Chr(_)) => compare_texts_left::<K>(alloc, x, b),
        (Words::Lgl(_), Words::Chr(y)) => compare_texts_right::<K>(alloc, a, y),
        (Words::Int(_), Words::Chr(y)) => compare_texts_right::<K>(alloc, a, y),
    }
}

pub struct Equal;

pub struct NotEqual;

pub struct Less;

pub struct LessOrEqual;

pub struct Greater;

pub struct GreaterOrEqual;

impl Comparison for Equal {
    ghost test = { is_eq };

    fn numbers(x: i64, y: i64) -> bool {
        x == y
    }

    fn texts(x: &str, y: &str) -> bool {
        x == y
    }
}

impl Comparison for NotEqual {
    ghost test = { is_ne };

    fn numbers(x: i64, y: i64) -> bool {
        x != y
    }

    fn texts(x: &str, y: &str) -> bool {
        x != y
    }
}

impl Comparison for Less {
    ghost test = { is_lt };

    fn numbers(x: i64, y: i64) -> bool {
        x < y
    }

    fn texts(x: &str, y: &str) -> bool {
        x < y
    }
}

impl Comparison for LessOrEqual {
    ghost test = { is_le };

    fn numbers(x: i64, y: i64) -> bool {
        x <= y
    }

    fn texts(x: &str, y: &str) -> bool {
        x <= y
    }
}

impl Comparison for Greater {
    ghost test = { is_gt };

    fn numbers(x: i64, y: i64) -> bool {
        x > y
    }

    fn texts(x: &str, y: &str) -> bool {
        x > y
    }
}

impl Comparison for GreaterOrEqual {
    ghost test = { is_ge };

    fn numbers(x: i64, y: i64) -> bool {
        x >= y
    }

    fn texts(x: &str, y: &str) -> bool {
        x >= y
    }
}
