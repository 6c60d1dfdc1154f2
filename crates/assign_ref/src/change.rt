ghost use Rattle.std.specs.Prelude.{◌≡◌, ◌<◌, ◌≤◌, ◌+◌, ◌*◌, ◌++◌, ◌∷◌, [], OnOk, All, IfOk};
ghost use Rattle.std.specs.Prelude.{IfErr, None, Ok, Some, length, map, true};
ghost use Rattle.dt_base.specs.declared.limits.TheConstants.{MAX_ROWS};
ghost use Rattle.dt_base.specs.Warns.{no_warns};
ghost use Rattle.dt_model.specs.Coercion.{coercion_warns};
ghost use Rattle.na_vector.specs.Frame.{column_at, vectors_of};
ghost use Rattle.dt_table.specs.Change.{Add, FitsPart, FitsTable, part_names, part_seen};
ghost use Rattle.dt_table.specs.Change.{parts_seen};
ghost use Rattle.dt_table.specs.Plain.{plain, plain_changed};
ghost use Rattle.dt_table.specs.Table.{IsFilled};
ghost use Rattle.dt_model.specs.Table.{place_of};
ghost use Rattle.assign_ref.specs.Planned.{delete_part, part_at_column, part_by, part_of};
ghost use Rattle.assign_ref.specs.Planned.{parts_of, vector_at};
ghost use Rattle.assign_model.specs.Assign.{assigned, begins};
ghost use Rattle.assign_model.specs.Targets.{assign_fault, is_name, names_of, rows_assigned};
ghost use Rattle.assign_ref.specs.Seen.{IsFault, rows_seen, target_seen, targets_seen};
ghost use Rattle.assign_ref.specs.Values.{AreRows, FitsTarget, FitsValue, HasLength, allowance};
ghost use Rattle.assign_ref.specs.Values.{brought_warns, part_allowance, part_warns, parts_warns};

use crate::faults::check_all;
use crate::values::{cells_at, cells_for, column_for_all};
use crate::{ChangeFail, Target};
use dt_base::{ColName, ColType, Steps, Warns};
use dt_table::{Change, Part, Table};
use na_vector::Column;
use na_words::coerce;
use std::alloc::{AllocError, Global};
use std::sync::ledger::Ledger;

/// The type of a column.
fn kind_of(t: &Table, col: usize) -> ColType
    requires { col < length t.now.names }
    ensures vector { result ≡ (vector_at (vectors_of t.now.frame.columns) col).kind }
    ensures column { result ≡ (column_at t.now.frame.columns col).vector.kind }
{
    let _ = t.names();
    t.frame().col(col).kind()
}

/// A value brought to the type of a column, at the rows of it, with the warnings of that.
fn write_part<L: Ledger>(
    alloc: Global,
    t: &Table,
    at: &[u32],
    col: usize,
    value: &Column,
    steps: &mut Steps<L>,
) -> Result<(Part, Warns), AllocError>
    requires column { col < length t.now.names }
    requires rows { All (λ row. row < t.now.frame.rows) at.now }
    requires fits { HasLength (length at.now) value.now.vector }
    ensures part { IfOk result (λ r. part_seen r.0
        ≡ part_at_column t.now.frame.rows (Some at.now) col value.now.vector
        (vector_at (vectors_of t.now.frame.columns) col)) }
    ensures fits { IfOk result (λ r. FitsPart t.now (part_seen r.0)) }
    ensures warns { IfOk result (λ r. r.1 ≡ coercion_warns
        (vector_at (vectors_of t.now.frame.columns) col).kind value.now.vector) }
    ensures touches { steps.new ≤ steps.old + (length value.now.vector.cells + length at.now) }
{
    let (brought, warns) = coerce(alloc, value, kind_of(t, col), steps)?;
    let cells = cells_for(alloc, &brought, at.len(), steps)?;
    let at = Vec::from_slice(alloc, at)?;
    Ok((Part::Write { col, at, cells }, warns))
}

/// A value for all rows of a column: its cell, brought to the column's type, for each, with the
/// warnings of that; or all its cells, in the column's place.
fn replace_part<L: Ledger>(
    alloc: Global,
    t: &Table,
    col: usize,
    value: Column,
    steps: &mut Steps<L>,
) -> Result<(Part, Warns), AllocError>
    requires column { col < length t.now.names }
    requires fits { HasLength t.now.frame.rows value.vector }
    ensures part { IfOk result (λ r. part_seen r.0
        ≡ part_at_column t.now.frame.rows None col value.vector
        (vector_at (vectors_of t.now.frame.columns) col)) }
    ensures fits { IfOk result (λ r. FitsPart t.now (part_seen r.0)) }
    ensures warns { IfOk result (λ r. r.1 ≡ brought_warns None value.vector
        (vector_at (vectors_of t.now.frame.columns) col).kind) }
    ensures touches { steps.new ≤ steps.old + (1 + t.now.frame.rows) }
{
    if value.len() == 1 {
        let (brought, warns) = coerce(alloc, &value, kind_of(t, col), steps)?;
        drop(value);
        let with = column_for_all(alloc, brought, t.frame().rows(), steps)?;
        return Ok((Part::Replace { col, with }, warns));
    }
    Ok((Part::Replace { col, with: value }, Warns::none()))
}

/// A new column of a value: for all rows, or at those that are chosen.
fn begun<L: Ledger>(
    alloc: Global,
    n: usize,
    rows: Option<&[u32]>,
    value: Column,
    steps: &mut Steps<L>,
) -> Result<Column, AllocError>
    requires rows { AreRows n (rows_seen rows) }
    requires short { n ≤ MAX_ROWS }
    requires fits { HasLength (rows_assigned n (rows_seen rows)) value.vector }
    ensures vector { IfOk result (λ c. c.vector ≡ begins n (rows_seen rows.entry) value.vector) }
    ensures touches { steps.new ≤ steps.old + n }
{
    match rows {
        None => column_for_all(alloc, value, n, steps),
        Some(at) => cells_at(alloc, &value, n, at, steps),
    }
}

/// A new column of a name and a value.
fn add_part<L: Ledger>(
    alloc: Global,
    t: &Table,
    rows: Option<&[u32]>,
    name: &ColName,
    value: Column,
    steps: &mut Steps<L>,
) -> Result<Part, AllocError>
    requires rows { AreRows t.now.frame.rows (rows_seen rows) }
    requires fits { HasLength (rows_assigned t.now.frame.rows (rows_seen rows)) value.vector }
    ensures part { IfOk result (λ p. part_seen p ≡ Add name.now
        (begins t.now.frame.rows (rows_seen rows.entry) value.vector)) }
    ensures fits { IfOk result (λ p. FitsPart t.now (part_seen p)) }
    ensures touches { steps.new ≤ steps.old + t.now.frame.rows }
{
    let with = begun(alloc, t.frame().rows(), rows, value, steps)?;
    let name = name.copy()?;
    Ok(Part::Add { name, with })
}

/// A value for a column that is there.
fn column_part<L: Ledger>(
    alloc: Global,
    t: &Table,
    rows: Option<&[u32]>,
    col: usize,
    value: Column,
    steps: &mut Steps<L>,
) -> Result<(Part, Warns), AllocError>
    requires column { col < length t.now.names }
    requires rows { AreRows t.now.frame.rows (rows_seen rows) }
    requires fits { HasLength (rows_assigned t.now.frame.rows (rows_seen rows)) value.vector }
    ensures part { IfOk result (λ r. part_seen r.0
        ≡ part_at_column t.now.frame.rows (rows_seen rows.entry) col value.vector
        (vector_at (vectors_of t.now.frame.columns) col)) }
    ensures fits { IfOk result (λ r. FitsPart t.now (part_seen r.0)) }
    ensures warns { IfOk result (λ r. r.1 ≡ brought_warns (rows_seen rows.entry) value.vector
        (vector_at (vectors_of t.now.frame.columns) col).kind) }
    ensures touches { steps.new ≤ steps.old + (2 * rows_assigned t.now.frame.rows
        (rows_seen rows.entry) + 1) }
{
    match rows {
        None => replace_part(alloc, t, col, value, steps),
        Some(at) => write_part(alloc, t, at, col, &value, steps),
    }
}

/// The part of a value for a column of this name, which may be a new one.
fn value_part<L: Ledger>(
    alloc: Global,
    t: &Table,
    rows: Option<&[u32]>,
    name: &ColName,
    value: Column,
    steps: &mut Steps<L>,
) -> Result<(Part, Warns), AllocError>
    requires rows { AreRows t.now.frame.rows (rows_seen rows) }
    requires fits { HasLength (rows_assigned t.now.frame.rows (rows_seen rows)) value.vector }
    ensures part { IfOk result (λ r. part_seen r.0
        ≡ part_by t.now.frame.rows (rows_seen rows.entry) t.now.names
        (vectors_of t.now.frame.columns) name.now (Some value.vector)) }
    ensures fits { IfOk result (λ r. FitsPart t.now (part_seen r.0)) }
    ensures warns { IfOk result (λ r. r.1 ≡ part_warns (rows_seen rows.entry) t.now.names
        (vectors_of t.now.frame.columns) name.now (Some value.vector)) }
    ensures touches { steps.new ≤ steps.old + part_allowance t.now.frame.rows
        (rows_seen rows.entry) t.now.names name.now (Some value.vector) }
{
    match t.place(name.as_str()) {
        Some(col) => column_part(alloc, t, rows, col, value, steps),
        None => Ok((add_part(alloc, t, rows, name, value, steps)?, Warns::none())),
    }
}

/// The part of a column that goes.
fn delete_part(t: &Table, name: &ColName) -> Part
    requires { is_name t.now.names name.now ≡ true }
    ensures part { part_seen result ≡ delete_part (length t.now.names)
        (place_of name.now t.now.names) }
    ensures fits { FitsPart t.now (part_seen result) }
{
    match t.place(name.as_str()) {
        Some(col) => Part::Delete { col },
        None => unreachable!(),
    }
}

/// The part that a target becomes, with its warnings. It takes the target's value.
fn part_of<L: Ledger>(
    alloc: Global,
    t: &Table,
    rows: Option<&[u32]>,
    target: &mut Target,
    steps: &mut Steps<L>,
) -> Result<(Part, Warns), AllocError>
    requires rows { AreRows t.now.frame.rows (rows_seen rows) }
    requires fits { FitsValue t.now.names t.now.frame.rows (rows_seen rows) target.old.name
        (target_seen target.old).value }
    ensures part { IfOk result (λ r. part_seen r.0
        ≡ part_of t.now.frame.rows (rows_seen rows.entry) t.now.names
        (vectors_of t.now.frame.columns) (target_seen target.old)) }
    ensures fits { IfOk result (λ r. FitsPart t.now (part_seen r.0)) }
    ensures warns { IfOk result (λ r. r.1 ≡ part_warns (rows_seen rows.entry) t.now.names
        (vectors_of t.now.frame.columns) target.old.name (target_seen target.old).value) }
    ensures touches { steps.new ≤ steps.old + part_allowance t.now.frame.rows
        (rows_seen rows.entry) t.now.names target.old.name (target_seen target.old).value }
{
    match target.value.take() {
        None => Ok((delete_part(t, &target.name), Warns::none())),
        Some(value) => value_part(alloc, t, rows, &target.name, value, steps),
    }
}

/// Adds a part.
fn add(parts: &mut Vec<Part>, part: Part) -> Result<(), AllocError>
    ensures { OnOk result (parts.new.items ≡ parts.old.items ++ part ∷ []) }
{
    Ok(parts.push(part)?)
}

/// The parts that targets become, with their warnings. It takes their values.
fn parts_of<L: Ledger>(
    alloc: Global,
    t: &Table,
    rows: Option<&[u32]>,
    targets: &mut [Target],
    steps: &mut Steps<L>,
) -> Result<(Vec<Part>, Warns), AllocError>
    requires rows { AreRows t.now.frame.rows (rows_seen rows) }
    requires fits { All (FitsTarget t.now.names t.now.frame.rows (rows_seen rows))
        (targets_seen targets.old) }
    ensures parts { IfOk result (λ r. parts_seen r.0.items
        ≡ parts_of t.now.frame.rows (rows_seen rows.entry) t.now.names
        (vectors_of t.now.frame.columns) (targets_seen targets.old)) }
    ensures fits { IfOk result (λ r. All (FitsPart t.now) (parts_seen r.0.items)) }
    ensures warns { IfOk result (λ r. r.1 ≡ parts_warns (rows_seen rows.entry) t.now.names
        (vectors_of t.now.frame.columns) (targets_seen targets.old)) }
    ensures touches { steps.new ≤ steps.old + allowance t.now.frame.rows (rows_seen rows.entry)
        t.now.names (targets_seen targets.old) }
{
    let mut parts = Vec::new(alloc);
    let mut warns = Warns::none();
    for k in 0..targets.len() {
        let (part, more) = part_of(alloc, t, rows, &mut targets[k], steps)?;
        add(&mut parts, part)?;
        warns = warns.both(more);
    }
    Ok((parts, warns))
}

/// The change of a table that targets make, at these rows or at all, with the warnings of the
/// values; or the first fault. Rows are in range, and no target's name is empty. The change fits
/// the table, and its parts name the targets' columns, in their order.
///
/// The faults of targets come in their order: a name that stood before, a deletion of what is no
/// column, a deletion where rows are chosen, a length that is neither 1 nor the number of rows.
/// Then there are too many columns, or too many cells.
pub fn change_of<L: Ledger>(
    alloc: Global,
    t: &Table,
    rows: Option<&[u32]>,
    targets: Vec<Target>,
    steps: &mut Steps<L>,
) -> Result<(Change, Warns), ChangeFail>
    requires rows { AreRows t.now.frame.rows (rows_seen rows) }
    requires filled { All IsFilled (names_of (targets_seen targets.items)) }
    ensures fits { IfOk result (λ r. FitsTable t.now r.0) }
    ensures change { IfOk result (λ r. assigned (plain t.now) (rows_seen rows.entry)
        (targets_seen targets.items) ≡ Ok (record {
          table = plain_changed t.now r.0;
          warns =
              r.1;
        })) }
    ensures names { IfOk result (λ r. part_names t.now.names r.0.parts
        ≡ names_of (targets_seen targets.items)) }
    ensures fault { IfErr result (λ e. IsFault t.now.slots e
        (assign_fault t.now.names t.now.frame.rows t.now.slots (rows_seen rows.entry)
        (targets_seen targets.items))) }
    ensures touches { steps.new ≤ steps.old + allowance t.now.frame.rows (rows_seen rows.entry)
        t.now.names (targets_seen targets.items) }
{
    let _ = t.names();
    check_all(t, rows, &targets)?;
    let mut targets = targets;
    let (parts, warns) = parts_of(alloc, t, rows, &mut targets, steps)?;
    Ok((Change { parts }, warns))
}
