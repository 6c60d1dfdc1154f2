ghost use Rattle.std.specs.Prelude.{◌≡◌, ◌==◌, ◌+◌, ◌<◌, ◌≤◌, ◌++◌, ℕ, length, map, take, drop};
ghost use Rattle.std.specs.Prelude.{All, slice_set};
ghost use Rattle.std.specs.List.{IsDistinct};
ghost use Rattle.dt_base.specs.Cell.{IsOfType};
ghost use Rattle.na_vector.specs.Frame.{column_at};
ghost use Rattle.dt_table.specs.Change.{cols_of, goes, is_named, is_of, part_seen, parts_seen};
ghost use Rattle.dt_table.specs.Change.{stays_before, texts_in};
ghost use Rattle.dt_table.specs.Parts.{goes_before};
ghost use Rattle.dt_table.specs.Table.{put_in_order};

use crate::Part;
use dt_base::{Cell, Steps};
use na_vector::Frame;
use std::mem::replace;
use std::sync::ledger::Ledger;

/// Whether the part names this column.
pub fn is_of(part: &Part, c: usize) -> bool
    ensures { result ≡ is_of c (part_seen part.now) }
{
    match part {
        Part::Replace { col, .. } => *col == c,
        Part::Write { col, .. } => *col == c,
        Part::Add { .. } => false,
        Part::Delete { col } => *col == c,
    }
}

/// Whether some part names this column.
pub fn is_named(parts: &[Part], c: usize) -> bool
    ensures { result ≡ is_named (parts_seen parts.now) c }
{
    for part in parts {
        if is_of(part, c) {
            return true;
        }
    }
    false
}

/// Whether the part that names this column deletes it.
pub fn goes(parts: &[Part], c: usize) -> bool
    ensures { result ≡ goes (parts_seen parts.now) c }
{
    for part in parts {
        if is_of(part, c) {
            return matches!(part, Part::Delete { .. });
        }
    }
    false
}

/// Whether the part deletes a column before this one.
fn goes_before(part: &Part, c: usize) -> bool
    ensures { result ≡ goes_before c (part_seen part.now) }
{
    match part {
        Part::Delete { col } => *col < c,
        Part::Replace { .. } | Part::Write { .. } | Part::Add { .. } => false,
    }
}

/// How many of the columns before this one stay, where no two parts name one column.
pub fn stays_before(parts: &[Part], c: usize) -> usize
    requires once { IsDistinct (λ (a b : ℕ). a == b) (cols_of (parts_seen parts.now)) }
    ensures { result ≡ stays_before (parts_seen parts.now) c }
{
    let mut place = c;
    for part in parts {
        if goes_before(part, c) {
            place -= 1;
        }
    }
    place
}

/// Writes the cells one after another at their rows of a column, and leaves NA in their place.
pub fn put_cells<L: Ledger>(
    frame: &mut Frame,
    c: usize,
    at: &[u32],
    cells: &mut [Cell],
    steps: &mut Steps<L>,
)
    requires column { c < length frame.old.columns }
    requires rows { All (λ row. row < frame.old.rows) at.now }
    requires each { length at.now ≡ length cells.old }
    requires typed { All (IsOfType (column_at frame.old.columns c).vector.kind) cells.old }
    requires room { texts_in cells.old ≤ (column_at frame.old.columns c).spare }
    ensures kind { (column_at frame.new.columns c).vector.kind
        ≡ (column_at frame.old.columns c).vector.kind }
    ensures cells { (column_at frame.new.columns c).vector.cells
        ≡ put_in_order at.now cells.old (column_at frame.old.columns c).vector.cells }
    ensures others { frame.new.columns ≡ slice_set frame.old.columns c
        (column_at frame.new.columns c) }
    ensures rows { frame.new.rows ≡ frame.old.rows }
    ensures spare { frame.new.spare ≡ frame.old.spare }
    ensures touches { steps.new ≡ steps.old + length at.now }
{
    for k in 0..at.len() {
        let v = replace(&mut cells[k], Cell::Na);
        frame.put(at[k] as usize, c, v, steps);
    }
}
