ghost use Rattle.std.specs.Prelude.{◌≡◌, ◌+◌, ◌*◌, ◌<◌, ◌≤◌, All, IfOk, OnOk, [], length, map};
ghost use Rattle.dt_table.specs.Plain.{plain};
ghost use Rattle.dt_table.specs.Table.{IsReordered};
ghost use Rattle.keys_index.specs.Columns.{rises, sorting_named};
ghost use Rattle.na_vector.specs.Frame.{vectors_of};
ghost use Rattle.order_model.specs.Keys.{order_set};
ghost use Rattle.order_model.specs.Order.{rising};
ghost use Rattle.order_model.specs.Places.{ordering};
ghost use Rattle.row_order.specs.Columns.{sorting_of};

use dt_base::Steps;
use dt_table::Table;
use na_vector::Frame;
use row_order::{SortCol, order};
use std::alloc::{AllocError, Global};
use std::sync::ledger::Ledger;

/// These columns, whose cells rise, NA first.
fn rising_columns(alloc: Global, cols: &[usize]) -> Result<Vec<SortCol>, AllocError>
    ensures { IfOk result (λ by. by.items ≡ map rises cols.now) }
{
    let mut by = Vec::with_capacity(alloc, cols.len())?;
    for col in cols {
        by.push(SortCol {
            col: *col,
            down: false,
            na_last: false,
        })?;
    }
    Ok(by)
}

/// The numbers of all rows in the order of these columns, whose cells rise, NA first. It touches
/// each cell of these columns.
pub(crate) fn rising_order<L: Ledger>(
    alloc: Global,
    frame: &Frame,
    cols: &[usize],
    steps: &mut Steps<L>,
) -> Result<Vec<u32>, AllocError>
    requires { All (λ c. c < length frame.now.columns) cols.now }
    ensures ok { IfOk result (λ rows. rows.items
        ≡ ordering (rising (vectors_of frame.now.columns) cols.now) frame.now.rows) }
    ensures touches { OnOk result (steps.new ≡ steps.old + length cols.now * frame.now.rows) }
    ensures at_most { steps.new ≤ steps.old + length cols.now * frame.now.rows }
{
    let by = rising_columns(alloc, cols)?;
    Ok(order(alloc, frame, &by, steps)?)
}

/// A new table with the rows in the order of these columns: by the first of them in which two rows
/// differ, and by number where they differ in none. It has the same names and as many slots, and
/// neither a key nor an index.
///
/// The columns are in range, and one may stand twice; without any, the rows stay in their order.
/// Want of memory is the one error. It touches each cell of these columns once, and then each cell
/// of the table; its memory is linear in the cells.
pub fn ordered<L: Ledger>(
    alloc: Global,
    t: &Table,
    by: &[SortCol],
    steps: &mut Steps<L>,
) -> Result<Table, AllocError>
    requires { All (λ s. s.col < length t.now.names) by.now }
    ensures plain { IfOk result (λ u. plain u
        ≡ order_set (sorting_named t.now.names (plain t.now) by.now) (plain t.now)) }
    ensures ok { IfOk result (IsReordered t.now
        (ordering (sorting_of (vectors_of t.now.frame.columns) by.now) t.now.frame.rows) []) }
    ensures touches { OnOk result (steps.new ≡ steps.old + (length by.now * t.now.frame.rows
        + length t.now.frame.columns * t.now.frame.rows)) }
    ensures at_most { steps.new ≤ steps.old + (length by.now * t.now.frame.rows
        + length t.now.frame.columns * t.now.frame.rows) }
{
    let rows = order(alloc, t.frame(), by, steps)?;
    Ok(t.reordered(alloc, &rows, Vec::new(alloc), steps)?)
}
