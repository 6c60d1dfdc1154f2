ghost use Rattle.std.specs.Prelude.{◌≡◌, ◌<◌, ◌≤◌, ◌==◌, ◌++◌, ◌∷◌, [], length, map, All, Some};
ghost use Rattle.std.specs.Prelude.{OnOk, IfOk, IfErr, IfSome, if◌then◌else◌};
ghost use Rattle.dt_base.specs.declared.cell.Cell.{Cell};
ghost use Rattle.dt_base.specs.declared.limits.TheConstants.{MAX_ROWS};
ghost use Rattle.dt_model.specs.Operations.{Outcome, at_place, at_places, settled, joint};
ghost use Rattle.dt_model.specs.Operations.{over_cells, typed};
ghost use Rattle.na_common.specs.Answers.{Answers, IsNoMemory, vector_of};
ghost use Rattle.na_common.specs.Places.{Serves};
ghost use Rattle.na_ops.specs.Words.{IsWord};

use na_common::{OpFail, place_in};
use na_vector::Column;
use na_words::{Target, Word};
use std::alloc::{AllocError, Global};

/// An operation on words of two types.
pub trait Kernel<A: Word, B: Word, W: Word> {
    ghost table: { Cell → Cell → Outcome };

    /// The word of the result, or none where it is outside.
    fn at(x: &A, y: &B) -> Option<W>
        ensures word { IsWord W.cell (table (A.cell x.now) (B.cell y.now)) result }
        ensures fine { IfSome result W.fine };
}

/// The word for one place.
fn word_at<A: Word, B: Word, W: Word, K: Kernel<A, B, W>>(a: &[A], b: &[B], p: usize) -> Option<W>
    requires left { (if length a.now == 1 then 0 else p) < length a.now }
    requires right { (if length b.now == 1 then 0 else p) < length b.now }
    ensures word { IsWord W.cell (at_place K.table (map A.cell a.now) (map B.cell b.now) p) result }
    ensures fine { IfSome result W.fine }
{
    K::at(&a[place_in(a.len(), p)], &b[place_in(b.len(), p)])
}

/// `list` with one more at its end.
fn add<W: Drop>(list: &mut Vec<W>, x: W) -> Result<(), OpFail>
    ensures ok { OnOk result (list.new.items ≡ list.old.items ++ x ∷ []) }
    ensures err { IfErr result IsNoMemory }
{
    match list.push(x) {
        Ok(()) => Ok(()),
        Err(_) => Err(OpFail::NoMemory(AllocError)),
    }
}

/// The words of all places, in order, or the least place whose result is outside.
pub fn fill<A: Word, B: Word, W: Word + Drop, K: Kernel<A, B, W>>(
    alloc: Global,
    a: &[A],
    b: &[B],
    n: usize,
) -> Result<Vec<W>, OpFail>
    requires left { Serves n (length a.now) }
    requires right { Serves n (length b.now) }
    ensures fine { IfOk result (λ v. All W.fine v.items) }
    ensures count { IfOk result (λ v. length v.items ≡ n) }
    ensures value { Answers (λ v. map W.cell v.items)
        (settled (at_places n (at_place K.table (map A.cell a.now) (map B.cell b.now)))) result }
{
    let mut out = Vec::new(alloc);
    for p in 0..n {
        let Some(w) = word_at::<A, B, W, K>(a, b, p) else {
            return Err(OpFail::Overflow { place: p });
        };
        add(&mut out, w)?;
    }
    Ok(out)
}

/// The length of the result for two lengths, if they go together.
fn joint(n: usize, m: usize) -> Option<usize>
    ensures { result ≡ joint n m }
{
    if n == m {
        Some(n)
    } else if n == 1 {
        Some(m)
    } else if m == 1 {
        Some(n)
    } else {
        None
    }
}

/// The words of all places of two columns.
fn words_over<A: Word, B: Word, W: Word + Drop, K: Kernel<A, B, W>>(
    alloc: Global,
    a: &[A],
    b: &[B],
) -> Result<Vec<W>, OpFail>
    requires left { length a.now ≤ MAX_ROWS }
    requires right { length b.now ≤ MAX_ROWS }
    ensures fine { IfOk result (λ v. All W.fine v.items) }
    ensures short { IfOk result (λ v. length v.items ≤ MAX_ROWS) }
    ensures value { Answers (λ v. map W.cell v.items)
        (over_cells K.table (map A.cell a.now) (map B.cell b.now)) result }
{
    let Some(n) = joint(a.len(), b.len()) else {
        return Err(OpFail::Length {
            left: a.len(),
            right: b.len(),
        });
    };
    fill::<A, B, W, K>(alloc, a, b, n)
}

/// An operation on two columns that its types suit.
#[tactic(auto, using(crate::proofs::Answered::refused_typed))]
pub fn over<A: Word, B: Word, W: Target + Drop, K: Kernel<A, B, W>>(
    alloc: Global,
    a: &[A],
    b: &[B],
) -> Result<Column, OpFail>
    requires left { length a.now ≤ MAX_ROWS }
    requires right { length b.now ≤ MAX_ROWS }
    ensures { Answers vector_of
        (typed (Some W.kind) (over_cells K.table (map A.cell a.now) (map B.cell b.now))) result }
{
    match words_over::<A, B, W, K>(alloc, a, b) {
        Ok(words) => match W::column(words) {
            Ok(column) => Ok(column),
            Err(e) => Err(OpFail::NoMemory(e)),
        },
        Err(fail) => Err(fail),
    }
}
