ghost use Rattle.std.specs.Prelude.{◌≡◌, ◌+◌, ◌<◌, ◌≤◌, ◌++◌, length, map, All, OnOk, IfOk};
ghost use Rattle.std.specs.List.{list_any};
ghost use Rattle.dt_base.specs.declared.cell.Cell.{Cell};
ghost use Rattle.dt_base.specs.declared.cell.ColType.TheVariants as ty;
ghost use Rattle.dt_base.specs.declared.limits.TheConstants.{MAX_ROWS};
ghost use Rattle.dt_model.specs.Coercion.{brought, becomes_true, becomes_na, coerced};
ghost use Rattle.dt_model.specs.Coercion.{coercion_warns};
ghost use Rattle.dt_model.specs.Vector.{cell_at};
ghost use Rattle.na_vector.specs.Words.{int_cell, text_cell};
ghost use Rattle.na_words.specs.Shown.{shown, IsShown};

use crate::words::{Target, Word, Words, words_of};
use dt_base::limits::NA_WORD;
use dt_base::{ColType, Steps, Text, Warns};
use na_vector::Column;
use std::alloc::{AllocError, Global};
use std::sync::ledger::Ledger;

/// A change of one word into another.
pub trait Change<A: Word, W: Word> {
    ghost table: { Cell → Cell };

    fn of(alloc: Global, x: &A) -> Result<W, AllocError>
        ensures word { IfOk result (λ w. W.cell w ≡ table (A.cell x.now)) }
        ensures fine { IfOk result W.fine };
}

/// A word, brought to the type of another.
pub struct Bring;

impl<A: Word, W: Target> Change<A, W> for Bring {
    ghost table = { brought W.kind };

    fn of(alloc: Global, x: &A) -> Result<W, AllocError> {
        W::of(alloc, x)
    }
}

/// Puts the changed words after those that are there.
pub fn append<A: Word, W: Word + Drop, C: Change<A, W>>(
    alloc: Global,
    out: &mut Vec<W>,
    a: &[A],
) -> Result<(), AllocError>
    requires fine { All W.fine out.old.items }
    ensures cells { OnOk result
        (map W.cell out.new.items ≡ map W.cell out.old.items ++ map C.table (map A.cell a.now)) }
    ensures fine { OnOk result (All W.fine out.new.items) }
    ensures count { OnOk result (length out.new.items ≡ length out.old.items + length a.now) }
{
    for x in a {
        out.push(C::of(alloc, x)?)?;
    }
    Ok(())
}

/// Puts the words of a column, brought to the type, after those that are there.
pub fn append_words<W: Target + Drop>(
    alloc: Global,
    out: &mut Vec<W>,
    words: Words<'_>,
) -> Result<(), AllocError>
    requires fine { All W.fine out.old.items }
    ensures cells { OnOk result
        (map W.cell out.new.items ≡ map W.cell out.old.items
        ++ map (brought W.kind) (shown words.entry).cells) }
    ensures fine { OnOk result (All W.fine out.new.items) }
    ensures count { OnOk result
        (length out.new.items ≡ length out.old.items + length (shown words.entry).cells) }
{
    match words {
        Words::Lgl(x) => append::<u8, W, Bring>(alloc, out, x),
        Words::Int(x) => append::<i64, W, Bring>(alloc, out, x),
        Words::Chr(x) => append::<Option<Text>, W, Bring>(alloc, out, x),
    }
}

/// The words of a column, brought to the type.
#[tactic(auto, using(crate::proofs::Short::shown_short))]
pub fn brought_words<W: Target + Drop>(
    alloc: Global,
    words: Words<'_>,
) -> Result<Vec<W>, AllocError>
    requires { IsShown words }
    ensures cells { IfOk result
        (λ v. map W.cell v.items ≡ map (brought W.kind) (shown words.entry).cells) }
    ensures fine { IfOk result (λ v. All W.fine v.items) }
    ensures short { IfOk result (λ v. length v.items ≤ MAX_ROWS) }
{
    let mut out = Vec::new(alloc);
    append_words::<W>(alloc, &mut out, words)?;
    Ok(out)
}

/// Whether an integer is neither 0 nor 1.
fn some_other(a: &[i64]) -> bool
    ensures { result ≡ list_any (becomes_true ty.Lgl) (map int_cell a.now) }
{
    for n in a {
        if *n != NA_WORD && *n != 0 && *n != 1 {
            return true;
        }
    }
    false
}

/// Whether a text became NA.
fn is_lost<W: Target>(x: &Option<Text>, made: &W) -> bool
    requires { W.cell made.now ≡ brought W.kind (text_cell x.now) }
    ensures { result ≡ becomes_na W.kind (text_cell x.now) }
{
    match x {
        Some(_) => made.is_na(),
        None => false,
    }
}

/// Whether the text at a place became NA.
fn is_lost_at<W: Target>(a: &[Option<Text>], made: &[W], p: usize) -> bool
    requires made { map W.cell made.now ≡ map (brought W.kind) (map text_cell a.now) }
    requires place { p < length a.now }
    ensures { result ≡ becomes_na W.kind (cell_at (map text_cell a.now) p) }
{
    is_lost::<W>(&a[p], &made[p])
}

/// Whether some text became NA.
fn some_lost<W: Target>(a: &[Option<Text>], made: &[W]) -> bool
    requires { map W.cell made.now ≡ map (brought W.kind) (map text_cell a.now) }
    ensures { result ≡ list_any (becomes_na W.kind) (map text_cell a.now) }
{
    for p in 0..a.len() {
        if is_lost_at::<W>(a, made, p) {
            return true;
        }
    }
    false
}

/// Whether some integer that is neither 0 nor 1 becomes TRUE.
fn becomes_true(words: Words<'_>, to: ColType) -> bool
    ensures { result ≡ list_any (becomes_true to) (shown words.entry).cells }
{
    match words {
        Words::Lgl(_) => false,
        Words::Int(x) => match to {
            ColType::Lgl => some_other(x),
            ColType::Int => false,
            ColType::Chr => false,
        },
        Words::Chr(_) => false,
    }
}

/// Whether some text became NA.
fn becomes_na<W: Target>(words: Words<'_>, made: &[W]) -> bool
    requires { map W.cell made.now ≡ map (brought W.kind) (shown words).cells }
    ensures { result ≡ list_any (becomes_na W.kind) (shown words.entry).cells }
{
    match words {
        Words::Lgl(_) => false,
        Words::Int(_) => false,
        Words::Chr(x) => some_lost::<W>(x, made),
    }
}

/// The warnings of a column whose words were brought to the type.
fn warns_of<W: Target>(words: Words<'_>, made: &[W]) -> Warns
    requires { map W.cell made.now ≡ map (brought W.kind) (shown words).cells }
    ensures { result ≡ coercion_warns W.kind (shown words.entry) }
{
    Warns {
        w01: becomes_true(words, W::kind()),
        w02: becomes_na::<W>(words, made),
        w03: false,
        w04: false,
        w05: false,
        w06: false,
    }
}

/// The column of words that are brought to the type, and its warnings.
fn coerced_words<W: Target + Drop>(
    alloc: Global,
    words: Words<'_>,
) -> Result<(Column, Warns), AllocError>
    requires { IsShown words }
    ensures column { IfOk result (λ r. r.0.vector ≡ coerced W.kind (shown words.entry)) }
    ensures warns { IfOk result (λ r. r.1 ≡ coercion_warns W.kind (shown words.entry)) }
{
    let made = brought_words::<W>(alloc, words)?;
    let warns = warns_of::<W>(words, made.as_slice());
    Ok((W::column(made)?, warns))
}

/// The column brought to a type, and the warnings of that: W01 where an integer that is neither 0
/// nor 1 became TRUE, W02 where a text became NA.
///
/// It touches each cell of the column once.
pub fn coerce<L: Ledger>(
    alloc: Global,
    a: &Column,
    to: ColType,
    steps: &mut Steps<L>,
) -> Result<(Column, Warns), AllocError>
    ensures column { IfOk result (λ r. r.0.vector ≡ coerced to a.now.vector) }
    ensures warns { IfOk result (λ r. r.1 ≡ coercion_warns to a.now.vector) }
    ensures touches { steps.new ≡ steps.old + length a.now.vector.cells }
{
    let words = words_of(a, steps);
    match to {
        ColType::Lgl => coerced_words::<u8>(alloc, words),
        ColType::Int => coerced_words::<i64>(alloc, words),
        ColType::Chr => coerced_words::<Option<Text>>(alloc, words),
    }
}
