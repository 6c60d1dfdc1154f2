ghost use Rattle.std.specs.Prelude.{◌≡◌, ◌+◌, ◌≤◌, length, map, All, IfOk};
ghost use Rattle.std.specs.HashSet.{contains};
ghost use Rattle.std.specs.Set.{is_member};
ghost use Rattle.dt_base.specs.declared.cell.Cell.TheVariants as cell;
ghost use Rattle.dt_base.specs.declared.limits.TheConstants.{MAX_ROWS};
ghost use Rattle.dt_model.specs.Coercion.{brought, common};
ghost use Rattle.dt_model.specs.Operations.{contained, same_cell};
ghost use Rattle.na_vector.specs.Words.{lgl_cell, IsLglWord};
ghost use Rattle.na_common.specs.Brought.{among};
ghost use Rattle.na_common.specs.Same.{same_lgl, same_int, same_text};
ghost use Rattle.na_words.specs.Shown.{shown, IsShown, vector_from};

use crate::places::push;
use crate::types::common;
use dt_base::{ColType, Steps, Text};
use na_vector::Column;
use na_words::{Target, Word, Words, brought_words, words_of};
use std::alloc::{AllocError, Global};
use std::collections::HashSet;
use std::hash::Hash;
use std::sync::ledger::Ledger;

/// A word that is looked up: equal words are the same cell.
pub trait Keyed: Target + Eq + Hash {
    ghost same: { (x y : Self) → Self.fine x → Self.fine y
        → Self.eq x y ≡ same_cell (Self.cell x) (Self.cell y) };
}

impl Keyed for u8 {
    ghost same = { same_lgl };
}

impl Keyed for i64 {
    ghost same = { λ x y _ _. same_int x y };
}

impl Keyed for Option<Text> {
    ghost same = { λ x y _ _. same_text x y };
}

/// The set of these words.
fn set_of<W: Keyed + Drop>(alloc: Global, words: Vec<W>) -> Result<HashSet<W>, AllocError>
    ensures { IfOk result (λ s. (q : W) → contains W.eq s q ≡ is_member W.eq words.items q) }
{
    words.into_iter().collect(alloc)
}

/// Whether the set has the word.
fn has<W: Keyed>(set: &HashSet<W>, w: &W) -> bool
    ensures { result ≡ contains W.eq set.now w.now }
{
    set.contains(w)
}

/// The word of a truth value.
fn flag(b: bool) -> u8
    ensures word { lgl_cell result ≡ cell.Lgl b }
    ensures fine { IsLglWord result }
{
    b as u8
}

/// For each word whether it is among others, both brought to the type.
fn members<A: Word, W: Keyed + Drop>(
    alloc: Global,
    a: &[A],
    words: Vec<W>,
) -> Result<Vec<u8>, AllocError>
    requires { All W.fine words.items }
    ensures cells { IfOk result (λ v. map lgl_cell v.items ≡
        map (among W.kind (map W.cell words.items)) (map A.cell a.now)) }
    ensures fine { IfOk result (λ v. All IsLglWord v.items) }
    ensures count { IfOk result (λ v. length v.items ≡ length a.now) }
{
    let set = set_of(alloc, words)?;
    let mut out = Vec::new(alloc);
    for x in a {
        let w = W::of(alloc, x)?;
        let found = has::<W>(&set, &w);
        push(&mut out, flag(found))?;
    }
    Ok(out)
}

/// The column of these answers.
fn members_column<A: Word, W: Keyed + Drop>(
    alloc: Global,
    a: &[A],
    words: Vec<W>,
) -> Result<Column, AllocError>
    requires fine { All W.fine words.items }
    requires short { length a.now ≤ MAX_ROWS }
    ensures { IfOk result (λ c. c.vector ≡ vector_from ColType.Lgl
        (map (among W.kind (map W.cell words.items)) (map A.cell a.now))) }
{
    Ok(Column::from_lgls(members::<A, W>(alloc, a, words)?))
}

/// The same of words of any type.
fn contained_words<W: Keyed + Drop>(
    alloc: Global,
    a: Words<'_>,
    b: Words<'_>,
) -> Result<Column, AllocError>
    requires left { IsShown a }
    requires right { IsShown b }
    ensures { IfOk result (λ c. c.vector ≡ vector_from ColType.Lgl
        (map (among W.kind (map (brought W.kind) (shown b.entry).cells)) (shown a.entry).cells)) }
{
    let words = brought_words::<W>(alloc, b)?;
    match a {
        Words::Lgl(x) => members_column::<u8, W>(alloc, x, words),
        Words::Int(x) => members_column::<i64, W>(alloc, x, words),
        Words::Chr(x) => members_column::<Option<Text>, W>(alloc, x, words),
    }
}

/// The common type of two columns.
fn common_of(a: &Column, b: &Column) -> ColType
    ensures { result ≡ common a.now.vector.kind b.now.vector.kind }
{
    common(a.kind(), b.kind())
}

/// The same in a type.
fn contained_as(
    alloc: Global,
    kind: ColType,
    a: Words<'_>,
    b: Words<'_>,
) -> Result<Column, AllocError>
    requires left { IsShown a }
    requires right { IsShown b }
    ensures { IfOk result (λ c. c.vector ≡ vector_from ColType.Lgl
        (map (among kind (map (brought kind) (shown b.entry).cells)) (shown a.entry).cells)) }
{
    match kind {
        ColType::Lgl => contained_words::<u8>(alloc, a, b),
        ColType::Int => contained_words::<i64>(alloc, a, b),
        ColType::Chr => contained_words::<Option<Text>>(alloc, a, b),
    }
}

/// For each cell of the first column whether the second has the same one, both in the common type:
/// `%in%`. NA is the same as NA. The lengths need not go together, and no type is refused.
///
/// The second column is hashed once, so it is linear in both. It touches each cell of both once.
///
/// From the operator `%in%` of R; the types are dtq's own rule, docs/LANGUAGE.md, section
/// "Operators".
pub fn contained<L: Ledger>(
    alloc: Global,
    a: &Column,
    b: &Column,
    steps: &mut Steps<L>,
) -> Result<Column, AllocError>
    ensures answer { IfOk result (λ c. c.vector ≡ contained a.now.vector b.now.vector) }
    ensures touches { steps.new ≡
        steps.old + (length a.now.vector.cells + length b.now.vector.cells) }
{
    let left = words_of(a, steps);
    let right = words_of(b, steps);
    let kind = common_of(a, b);
    contained_as(alloc, kind, left, right)
}
