ghost use Rattle.std.specs.Prelude.{◌≡◌, ◌+◌, ◌*◌, ◌<◌, ◌≤◌, All, IfOk, OnOk, length};
ghost use Rattle.std.specs.List.{range_with_len};
ghost use Rattle.dt_base.specs.declared.limits.TheConstants.{MAX_ROWS};
ghost use Rattle.na_vector.specs.Frame.{vectors_of};
ghost use Rattle.order_model.specs.Places.{ordering};
ghost use Rattle.row_order.specs.Columns.{sorting_of};

use crate::passes::sort_by_column;
use dt_base::Steps;
use na_vector::Frame;
use std::alloc::{AllocError, Global};
use std::sync::ledger::Ledger;

/// A column that orders rows: its place in the frame, counted from 0, whether its cells fall, and
/// whether NA stands last.
#[derive(Clone, Copy, Debug)]
pub struct SortCol {
    pub col: usize,
    pub down: bool,
    pub na_last: bool,
}

/// The numbers of all rows, from 0 on.
fn all_rows(alloc: Global, n: usize) -> Result<Vec<u32>, AllocError>
    requires { n ≤ MAX_ROWS }
    ensures { IfOk result (λ rows. rows.items ≡ range_with_len 0 n) }
{
    let mut rows = Vec::with_capacity(alloc, n)?;
    for row in 0..n {
        rows.push(row as u32)?;
    }
    Ok(rows)
}

/// The row numbers in order: by the first of these columns in which two rows differ, and by number
/// where they differ in none. It touches each cell of these columns.
pub fn order<L: Ledger>(
    alloc: Global,
    f: &Frame,
    by: &[SortCol],
    steps: &mut Steps<L>,
) -> Result<Vec<u32>, AllocError>
    requires { All (λ s. s.col < length f.now.columns) by.now }
    ensures ok { IfOk result (λ rows.
        rows.items ≡ ordering (sorting_of (vectors_of f.now.columns) by.now) f.now.rows) }
    ensures touches { OnOk result (steps.new ≡ steps.old + length by.now * f.now.rows) }
    ensures at_most { steps.new ≤ steps.old + length by.now * f.now.rows }
{
    let mut rows = all_rows(alloc, f.rows())?;
    for k in (0..by.len()).rev() {
        let s = by[k];
        rows = sort_by_column(alloc, &rows, f.col(s.col), s.down, s.na_last, steps)?;
    }
    Ok(rows)
}
