ghost use Rattle.std.specs.Prelude.{◌≡◌, ◌+◌, IfOk, map, length};
ghost use Rattle.dt_model.specs.Vector.{cell_at};
ghost use Rattle.na_vector.specs.Words.{int_cell, lgl_cell, text_cell};
ghost use Rattle.order_model.specs.Order.{cell_cmp};
ghost use Rattle.order_model.specs.Places.{IsPass};
ghost use Rattle.row_order.specs.Keyed.{text_shown, ShowsRows};

use dt_base::limits::NA_WORD;
use dt_base::{Cell, ColType, Steps, Text};
use na_vector::{Column, NA_LGL};
use std::alloc::{AllocError, Global};
use std::cmp::Ordering;
use std::sync::ledger::Ledger;

/// The word of a row. No row that is sorted stands past the end; there it would be NA.
fn int_at(words: &[i64], row: u32) -> i64
    ensures { int_cell result ≡ cell_at (map int_cell words.now) row }
{
    match words.get(row as usize) {
        Some(word) => *word,
        None => NA_WORD,
    }
}

fn lgl_at(words: &[u8], row: u32) -> u8
    ensures { lgl_cell result ≡ cell_at (map lgl_cell words.now) row }
{
    match words.get(row as usize) {
        Some(word) => *word,
        None => NA_LGL,
    }
}

fn text_at(texts: &[Option<Text>], row: u32) -> Option<&str>
    ensures { text_shown result ≡ cell_at (map text_cell texts.now) row }
{
    match texts.get(row as usize) {
        Some(Some(t)) => Some(t.as_str()),
        _ => None,
    }
}

fn compare_ints(a: i64, b: i64, down: bool, na_last: bool) -> Ordering
    ensures { result ≡ cell_cmp down na_last (int_cell a) (int_cell b) }
{
    match (a == NA_WORD, b == NA_WORD) {
        (true, true) => Ordering::Equal,
        (true, false) => na_first(na_last),
        (false, true) => na_first(!na_last),
        (false, false) => { if down { b.cmp(&a) } else { a.cmp(&b) } }
    }
}

fn compare_lgls(a: u8, b: u8, down: bool, na_last: bool) -> Ordering
    ensures { result ≡ cell_cmp down na_last (lgl_cell a) (lgl_cell b) }
{
    match (a == NA_LGL, b == NA_LGL) {
        (true, true) => Ordering::Equal,
        (true, false) => na_first(na_last),
        (false, true) => na_first(!na_last),
        (false, false) => {
            if down {
                (b == 1).cmp(&(a == 1))
            } else {
                (a == 1).cmp(&(b == 1))
            }
        }
    }
}

fn compare_texts(a: Option<&str>, b: Option<&str>, down: bool, na_last: bool) -> Ordering
    ensures { result ≡ cell_cmp down na_last (text_shown a.entry) (text_shown b.entry) }
{
    match (a, b) {
        (None, None) => Ordering::Equal,
        (None, Some(_)) => na_first(na_last),
        (Some(_), None) => na_first(!na_last),
        (Some(x), Some(y)) => { if down { y.cmp(x) } else { x.cmp(y) } }
    }
}

ghost use Rattle.std.specs.Prelude.{if◌then◌else◌};

/// How NA compares with another cell.
fn na_first(na_last: bool) -> Ordering
    ensures { result ≡ (if na_last then Ordering.Greater else Ordering.Less) }
{
    if na_last {
        Ordering::Greater
    } else {
        Ordering::Less
    }
}

/// A row with its word in the column that is sorted by. The words stand beside each other, so that
/// a sort reads none far away.
#[derive(Clone, Copy)]
struct Keyed<K> {
    key: K,
    row: u32,
}

/// The rows alone.
fn rows_of<K>(alloc: Global, keyed: &[Keyed<K>]) -> Result<Vec<u32>, AllocError>
    ensures { IfOk result (λ rows. rows.items ≡ map (λ k. k.row) keyed.now) }
{
    let mut rows = Vec::with_capacity(alloc, keyed.len())?;
    for k in keyed {
        rows.push(k.row)?;
    }
    Ok(rows)
}

/// These rows, each with its word.
fn with_ints(alloc: Global, rows: &[u32], words: &[i64]) -> Result<Vec<Keyed<i64>>, AllocError>
    ensures { IfOk result (λ keyed.
        ShowsRows int_cell (map int_cell words.now) rows.now keyed.items) }
{
    let mut keyed = Vec::with_capacity(alloc, rows.len())?;
    for row in rows {
        let key = int_at(words, *row);
        keyed.push(Keyed { key, row: *row })?;
    }
    Ok(keyed)
}

/// Sorts rows stably by the cells of a column of integers.
fn sort_ints(
    alloc: Global,
    rows: &[u32],
    words: &[i64],
    down: bool,
    na_last: bool,
) -> Result<Vec<u32>, AllocError>
    ensures { IfOk result (λ new.
        IsPass (record { cells = map int_cell words.now; down = down; na_last = na_last })
        rows.now new.items) }
{
    let mut keyed = with_ints(alloc, rows, words)?;
    keyed.sort_by(|a, b| compare_ints(a.key, b.key, down, na_last))?;
    Ok(rows_of(alloc, &keyed)?)
}

/// These rows, each with its word.
fn with_lgls(alloc: Global, rows: &[u32], words: &[u8]) -> Result<Vec<Keyed<u8>>, AllocError>
    ensures { IfOk result (λ keyed.
        ShowsRows lgl_cell (map lgl_cell words.now) rows.now keyed.items) }
{
    let mut keyed = Vec::with_capacity(alloc, rows.len())?;
    for row in rows {
        let key = lgl_at(words, *row);
        keyed.push(Keyed { key, row: *row })?;
    }
    Ok(keyed)
}

/// The same by a column of logicals.
fn sort_lgls(
    alloc: Global,
    rows: &[u32],
    words: &[u8],
    down: bool,
    na_last: bool,
) -> Result<Vec<u32>, AllocError>
    ensures { IfOk result (λ new.
        IsPass (record { cells = map lgl_cell words.now; down = down; na_last = na_last })
        rows.now new.items) }
{
    let mut keyed = with_lgls(alloc, rows, words)?;
    keyed.sort_by(|a, b| compare_lgls(a.key, b.key, down, na_last))?;
    Ok(rows_of(alloc, &keyed)?)
}

/// These rows, each with its text.
fn with_texts<'a>(
    alloc: Global,
    rows: &[u32],
    texts: &'a [Option<Text>],
) -> Result<Vec<Keyed<Option<&'a str>>>, AllocError>
    ensures { IfOk result (λ keyed.
        ShowsRows text_shown (map text_cell texts.now) rows.now keyed.items) }
{
    let mut keyed = Vec::with_capacity(alloc, rows.len())?;
    for row in rows {
        let key = text_at(texts, *row);
        keyed.push(Keyed { key, row: *row })?;
    }
    Ok(keyed)
}

/// The same by a column of texts.
fn sort_texts(
    alloc: Global,
    rows: &[u32],
    texts: &[Option<Text>],
    down: bool,
    na_last: bool,
) -> Result<Vec<u32>, AllocError>
    ensures { IfOk result (λ new.
        IsPass (record { cells = map text_cell texts.now; down = down; na_last = na_last })
        rows.now new.items) }
{
    let mut keyed = with_texts(alloc, rows, texts)?;
    keyed.sort_by(|a, b| compare_texts(a.key, b.key, down, na_last))?;
    Ok(rows_of(alloc, &keyed)?)
}

/// Sorts rows stably by one column; rows that are equal in it keep their order. It touches each
/// cell of the column.
pub fn sort_by_column<L: Ledger>(
    alloc: Global,
    rows: &[u32],
    col: &Column,
    down: bool,
    na_last: bool,
    steps: &mut Steps<L>,
) -> Result<Vec<u32>, AllocError>
    ensures ok { IfOk result (λ new.
        IsPass (record { cells = col.now.vector.cells; down = down; na_last = na_last })
        rows.now new.items) }
    ensures touches { steps.new ≡ steps.old + length col.now.vector.cells }
{
    match col.kind() {
        ColType::Lgl => sort_lgls(alloc, rows, col.lgls(steps), down, na_last),
        ColType::Int => sort_ints(alloc, rows, col.ints(steps), down, na_last),
        ColType::Chr => sort_texts(alloc, rows, col.texts(steps), down, na_last),
    }
}
