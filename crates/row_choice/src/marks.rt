ghost use Rattle.std.specs.Prelude.{ℕ, ◌≡◌, ◌<◌, ◌≤◌, ◌==◌, ◌||◌, false, not, length, map};
ghost use Rattle.std.specs.Prelude.{slice_index_or, IfOk};
ghost use Rattle.std.specs.List.{list_any};
ghost use Rattle.dt_base.specs.declared.limits.TheConstants.{MAX_ROWS};
ghost use Rattle.row_model.specs.Rows.{leaves_out, left_rows, rows_where};
ghost use Rattle.na_vector.specs.Words.{int_cell};

use crate::listing::push_if;
use crate::place::{Place, place_of};
use std::alloc::{AllocError, Global};

/// Marks a place, where there is one.
fn mark_place(marks: &mut [bool], k: u64)
    ensures count { length marks.new ≡ length marks.old }
    ensures marks { (p : ℕ) → p < length marks.old →
        slice_index_or marks.new p false ≡ (slice_index_or marks.old p false || k == p) }
{
    if k < marks.len() as u64 {
        marks[k as usize] = true;
    }
}

/// Marks the row that a word leaves out, where it leaves one out.
fn mark(marks: &mut [bool], word: i64)
    ensures count { length marks.new ≡ length marks.old }
    ensures marks { (p : ℕ) → p < length marks.old →
        slice_index_or marks.new p false
        ≡ (slice_index_or marks.old p false || leaves_out p (int_cell word)) }
{
    if let Place::Out(k) = place_of(word) {
        mark_place(marks, k);
    }
}

/// Marks the rows that the words leave out.
fn mark_all(marks: &mut [bool], words: &[i64])
    requires { (p : ℕ) → p < length marks.old → slice_index_or marks.old p false ≡ false }
    ensures count { length marks.new ≡ length marks.old }
    ensures marks { (p : ℕ) → p < length marks.old →
        slice_index_or marks.new p false ≡ list_any (leaves_out p) (map int_cell words.now) }
{
    for word in words {
        mark(marks, *word);
    }
}

/// The rows without a mark, in order.
fn unmarked(alloc: Global, marks: &[bool]) -> Result<Vec<Option<u32>>, AllocError>
    requires { length marks.now ≤ MAX_ROWS }
    ensures { IfOk result (λ v. v.items ≡
        rows_where (λ p. not (slice_index_or marks.now p false)) (length marks.now)) }
{
    let mut out = Vec::new(alloc);
    for p in 0..marks.len() {
        push_if(&mut out, p, !marks[p])?;
    }
    Ok(out)
}

/// All rows in order but those that a word leaves out. A mark for each row keeps this linear.
pub fn left_rows(alloc: Global, rows: usize, words: &[i64]) -> Result<Vec<Option<u32>>, AllocError>
    requires { rows ≤ MAX_ROWS }
    ensures { IfOk result (λ v. v.items ≡ left_rows rows (map int_cell words.now)) }
{
    let mut marks = vec![in alloc; false; rows]?;
    mark_all(&mut marks, words);
    unmarked(alloc, &marks)
}
