ghost use Rattle.std.specs.Prelude.{◌≡◌, ◌<◌, ◌≤◌, ◌+◌, ◌*◌, All, IfOk, None, Some, false};
ghost use Rattle.std.specs.Prelude.{length, map, option_map, replicate};
ghost use Rattle.dt_base.specs.Cell.{IsOfType};
ghost use Rattle.dt_base.specs.declared.limits.TheConstants.{MAX_ROWS};
ghost use Rattle.dt_model.specs.Vector.{IsWithin, cell_at, gathered, picked};
ghost use Rattle.assign_model.specs.Assign.{begins, for_all, values};
ghost use Rattle.assign_model.specs.Targets.{has_length};
ghost use Rattle.assign_ref.specs.Seen.{rows_seen};
ghost use Rattle.dt_table.specs.Table.{put_in_order};
ghost use Rattle.assign_ref.specs.Values.{HasLength, place_of_value, value_places};

use dt_base::{Cell, Steps};
use na_vector::Column;
use std::alloc::{AllocError, Global};
use std::sync::ledger::Ledger;

/// The place of the first cell, n times over.
fn first_places(alloc: Global, n: usize) -> Result<Vec<Option<u32>>, AllocError>
    ensures { IfOk result (λ v. v.items ≡ replicate n (Some 0)) }
{
    vec![in alloc; Some(0); n]
}

/// The first cell of a column, n times over.
#[tactic(auto, using(crate::proofs::Repeats::picked_first))]
fn first_cells<L: Ledger>(
    alloc: Global,
    column: &Column,
    n: usize,
    steps: &mut Steps<L>,
) -> Result<Column, AllocError>
    requires one { length column.now.vector.cells ≡ 1 }
    requires short { n ≤ MAX_ROWS }
    ensures cells { IfOk result (λ c. c.vector ≡ record {
      kind = column.now.vector.kind;
      cells = replicate n
          (cell_at column.now.vector.cells 0);
    }) }
    ensures touches { steps.new ≤ steps.old + n }
{
    let places = first_places(alloc, n)?;
    column.gather(alloc, places.as_slice(), steps)
}

/// A value for n rows: its one cell n times over, or the column itself.
pub fn column_for_all<L: Ledger>(
    alloc: Global,
    column: Column,
    n: usize,
    steps: &mut Steps<L>,
) -> Result<Column, AllocError>
    requires short { n ≤ MAX_ROWS }
    ensures vector { IfOk result (λ c. c.vector ≡ record
        { kind = column.vector.kind; cells = values n column.vector }) }
    ensures touches { steps.new ≤ steps.old + n }
{
    if column.len() == 1 {
        return first_cells(alloc, &column, n, steps);
    }
    Ok(column)
}

/// A cell of a column, owned.
fn cell_of<L: Ledger>(
    alloc: Global,
    column: &Column,
    p: usize,
    steps: &mut Steps<L>,
) -> Result<Cell, AllocError>
    requires { p < length column.now.vector.cells }
    ensures cell { IfOk result (λ c. c ≡ cell_at column.now.vector.cells p) }
    ensures typed { IfOk result (IsOfType column.now.vector.kind) }
    ensures touches { steps.new ≡ steps.old + 1 }
{
    column.cell(p, steps).to_cell(alloc)
}

/// All cells of a column, owned.
fn all_cells<L: Ledger>(
    alloc: Global,
    column: &Column,
    steps: &mut Steps<L>,
) -> Result<Vec<Cell>, AllocError>
    ensures cells { IfOk result (λ v. v.items ≡ column.now.vector.cells) }
    ensures typed { IfOk result (λ v. All (IsOfType column.now.vector.kind) v.items) }
    ensures touches { steps.new ≤ steps.old + length column.now.vector.cells }
{
    let mut cells = Vec::new(alloc);
    for p in 0..column.len() {
        cells.push(cell_of(alloc, column, p, steps)?)?;
    }
    Ok(cells)
}

/// The first cell of a column, k times over, owned.
fn first_cell_times<L: Ledger>(
    alloc: Global,
    column: &Column,
    k: usize,
    steps: &mut Steps<L>,
) -> Result<Vec<Cell>, AllocError>
    requires { 0 < length column.now.vector.cells }
    ensures cells { IfOk result (λ v. v.items ≡ replicate k (cell_at column.now.vector.cells 0)) }
    ensures typed { IfOk result (λ v. All (IsOfType column.now.vector.kind) v.items) }
    ensures touches { steps.new ≤ steps.old + k }
{
    let mut cells = Vec::new(alloc);
    for i in 0..k {
        cells.push(cell_of(alloc, column, 0, steps)?)?;
    }
    Ok(cells)
}

/// A value for k rows, cell by cell: its one cell k times over, or all its cells.
pub fn cells_for<L: Ledger>(
    alloc: Global,
    column: &Column,
    k: usize,
    steps: &mut Steps<L>,
) -> Result<Vec<Cell>, AllocError>
    requires { HasLength k column.now.vector }
    ensures cells { IfOk result (λ v. v.items ≡ values k column.now.vector) }
    ensures typed { IfOk result (λ v. All (IsOfType column.now.vector.kind) v.items) }
    ensures count { IfOk result (λ v. length v.items ≡ k) }
    ensures touches { steps.new ≤ steps.old + k }
{
    if column.len() == 1 {
        return first_cell_times(alloc, column, k, steps);
    }
    all_cells(alloc, column, steps)
}

/// The place of the value for the k-th row: its only cell, or the k-th.
fn value_place(one: bool, k: usize) -> u32
    requires { one ≡ false → k < MAX_ROWS }
    ensures { result ≡ place_of_value one k }
{
    if one { 0 } else { k as u32 }
}

/// For each of n rows the place of its value, or none: that of the last of the chosen rows that
/// it is.
fn value_places(
    alloc: Global,
    n: usize,
    at: &[u32],
    one: bool,
) -> Result<Vec<Option<u32>>, AllocError>
    requires rows { All (λ row. row < n) at.now }
    requires short { one ≡ false → length at.now ≤ MAX_ROWS }
    ensures places { IfOk result (λ v. v.items ≡ put_in_order at.now
        (value_places one (length at.now)) (replicate n None)) }
    ensures count { IfOk result (λ v. length v.items ≡ n) }
{
    let mut places = vec![in alloc; None; n]?;
    for k in 0..at.len() {
        places[at[k] as usize] = Some(value_place(one, k));
    }
    Ok(places)
}

/// The cells of a value at the chosen rows of n, and NA at the others.
pub fn cells_at<L: Ledger>(
    alloc: Global,
    column: &Column,
    n: usize,
    at: &[u32],
    steps: &mut Steps<L>,
) -> Result<Column, AllocError>
    requires rows { All (λ row. row < n) at.now }
    requires short { n ≤ MAX_ROWS }
    requires fits { HasLength (length at.now) column.now.vector }
    ensures vector { IfOk result (λ c. c.vector ≡ begins n (Some at.now) column.now.vector) }
    ensures touches { steps.new ≤ steps.old + n }
{
    let places = value_places(alloc, n, at, column.len() == 1)?;
    column.gather(alloc, places.as_slice(), steps)
}
