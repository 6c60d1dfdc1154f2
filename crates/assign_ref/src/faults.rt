ghost use Rattle.std.specs.Prelude.{◌≡◌, ◌<◌, ◌≤◌, ◌+◌, IfErr, OnOk, None, Option, length};
ghost use Rattle.std.specs.Prelude.{slice_index_or, take};
ghost use Rattle.std.specs.List.{filter};
ghost use Rattle.dt_model.specs.Table.{is_repeated};
ghost use Rattle.assign_model.specs.Targets.{adds, assign_fault, is_name, limit_fault};
ghost use Rattle.assign_model.specs.Targets.{names_after, names_of, rows_assigned, stays};
ghost use Rattle.assign_model.specs.Targets.{target_fault, targets_fault, value_fault};
ghost use Rattle.assign_ref.specs.Seen.{IsFault, rows_seen, target_in, target_seen, targets_seen};

use crate::{ChangeFail, Target};
use dt_base::ColName;
use dt_base::limits::MAX_CELLS;
use dt_table::Table;

/// Whether a target has this name.
fn is_named(targets: &[Target], name: &str) -> bool
    ensures { result ≡ is_name (names_of (targets_seen targets.now)) name.now }
{
    for target in targets {
        if name == target.name.as_str() {
            return true;
        }
    }
    false
}

/// Whether the name of the target at a place stands before it too.
fn is_repeated(targets: &[Target], k: usize) -> bool
    requires { k < length targets.now }
    ensures { result ≡ is_repeated (names_of (targets_seen targets.now)) k }
{
    is_named(&targets[..k], targets[k].name.as_str())
}

/// Whether the table has a column of this name.
fn is_column(t: &Table, name: &str) -> bool
    ensures { result ≡ is_name t.now.names name.now }
{
    t.place(name).is_some()
}

/// How many rows are assigned.
pub fn rows_assigned(n: usize, rows: Option<&[u32]>) -> usize
    ensures { result ≡ rows_assigned n (rows_seen rows.entry) }
{
    match rows {
        Some(at) => at.len(),
        None => n,
    }
}

/// The fault of a target whose name does not stand before it, if it has one.
fn check_value(t: &Table, rows: Option<&[u32]>, k: usize, target: &Target) -> Result<(), ChangeFail>
    ensures ok { OnOk result (value_fault t.now.names t.now.frame.rows (rows_seen rows.entry) k
        (target_seen target.now).name (target_seen target.now).value ≡ None) }
    ensures err { IfErr result (λ e. IsFault t.now.slots e
        (value_fault t.now.names t.now.frame.rows (rows_seen rows.entry) k
        (target_seen target.now).name (target_seen target.now).value)) }
{
    match &target.value {
        None => {
            if !is_column(t, target.name.as_str()) {
                return Err(ChangeFail::Unknown { t: k });
            }
            if rows.is_some() {
                return Err(ChangeFail::Delete { t: k });
            }
            Ok(())
        }
        Some(column) => {
            let want = rows_assigned(t.frame().rows(), rows);
            if column.len() == 1 || column.len() == want {
                return Ok(());
            }
            Err(ChangeFail::Length {
                t: k,
                got: column.len() as u64,
                want: want as u64,
            })
        }
    }
}

/// The fault of the target at a place, if it has one.
fn check_target(
    t: &Table,
    rows: Option<&[u32]>,
    targets: &[Target],
    k: usize,
) -> Result<(), ChangeFail>
    requires { k < length targets.now }
    ensures ok { OnOk result (target_fault t.now.names t.now.frame.rows (rows_seen rows.entry)
        (targets_seen targets.now) k (target_in (targets_seen targets.now) k) ≡ None) }
    ensures err { IfErr result (λ e. IsFault t.now.slots e
        (target_fault t.now.names t.now.frame.rows (rows_seen rows.entry)
        (targets_seen targets.now) k (target_in (targets_seen targets.now) k))) }
{
    if is_repeated(targets, k) {
        return Err(ChangeFail::Duplicate { t: k });
    }
    check_value(t, rows, k, &targets[k])
}

/// The first fault of the targets, one after another.
pub fn check_targets(t: &Table, rows: Option<&[u32]>, targets: &[Target]) -> Result<(), ChangeFail>
    ensures ok { OnOk result (targets_fault t.now.names t.now.frame.rows (rows_seen rows.entry)
        (targets_seen targets.now) 0 (targets_seen targets.now) ≡ None) }
    ensures err { IfErr result (λ e. IsFault t.now.slots e
        (targets_fault t.now.names t.now.frame.rows (rows_seen rows.entry)
        (targets_seen targets.now) 0 (targets_seen targets.now))) }
{
    for k in 0..targets.len() {
        check_target(t, rows, targets, k)?;
    }
    Ok(())
}

/// Whether a column stays: the first target of its name, if there is one, has a value.
fn stays(targets: &[Target], name: &str) -> bool
    ensures { result ≡ stays (targets_seen targets.now) name.now }
{
    for target in targets {
        if name == target.name.as_str() {
            return target.value.is_some();
        }
    }
    true
}

/// How many columns stay.
fn count_stay(names: &[ColName], targets: &[Target]) -> usize
    ensures count { result ≡ length (filter (stays (targets_seen targets.now)) names.now) }
    ensures bound { result ≤ length names.now }
{
    let mut count = 0;
    for name in names {
        if stays(targets, name.as_str()) {
            count += 1;
        }
    }
    count
}

/// Whether a target adds a column.
fn adds(t: &Table, target: &Target) -> bool
    ensures { result ≡ adds t.now.names (target_seen target.now) }
{
    match &target.value {
        None => false,
        Some(_) => !is_column(t, target.name.as_str()),
    }
}

/// How many columns are added.
fn count_add(t: &Table, targets: &[Target]) -> usize
    ensures count { result ≡ length (names_of (filter (adds t.now.names)
        (targets_seen targets.now))) }
    ensures bound { result ≤ length targets.now }
{
    let mut count = 0;
    for target in targets {
        if adds(t, target) {
            count += 1;
        }
    }
    count
}

/// The limit that the columns and cells would pass, if there is one.
pub fn check_limits(t: &Table, targets: &[Target]) -> Result<(), ChangeFail>
    ensures ok { OnOk result (limit_fault t.now.frame.rows t.now.slots
        (length (names_after t.now.names (targets_seen targets.now))) ≡ None) }
    ensures err { IfErr result (λ e. IsFault t.now.slots e
        (limit_fault t.now.frame.rows t.now.slots (length
        (names_after t.now.names (targets_seen targets.now))))) }
{
    let width = count_stay(t.names(), targets) + count_add(t, targets);
    if width > t.slots() {
        return Err(ChangeFail::Slots {
            slots: t.slots() as u64,
        });
    }
    match t.frame().rows().checked_mul(width) {
        Some(cells) => {
            if cells > MAX_CELLS {
                return Err(ChangeFail::TooManyCells);
            }
            Ok(())
        }
        None => Err(ChangeFail::TooManyCells),
    }
}

/// The first fault of targets: of each in order, and then of all together.
pub fn check_all(t: &Table, rows: Option<&[u32]>, targets: &[Target]) -> Result<(), ChangeFail>
    ensures targets { OnOk result (targets_fault t.now.names t.now.frame.rows
        (rows_seen rows.entry) (targets_seen targets.now) 0 (targets_seen targets.now) ≡ None) }
    ensures ok { OnOk result (assign_fault t.now.names t.now.frame.rows t.now.slots
        (rows_seen rows.entry) (targets_seen targets.now) ≡ None) }
    ensures err { IfErr result (λ e. IsFault t.now.slots e
        (assign_fault t.now.names t.now.frame.rows t.now.slots (rows_seen rows.entry)
        (targets_seen targets.now))) }
{
    check_targets(t, rows, targets)?;
    check_limits(t, targets)
}
