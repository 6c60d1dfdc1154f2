ghost use Rattle.std.specs.Prelude.{◌≡◌, ◌==◌, ℕ, ◌+◌, ◌-◌, ◌<◌, ◌≤◌, ◌++◌, ◌∷◌, [], All, Some};
ghost use Rattle.std.specs.Prelude.{length, map, remove, slice_set, vec_len, vec_capacity};
ghost use Rattle.std.specs.List.{IsDistinct};
ghost use Rattle.na_vector.specs.Frame.{IsFrame, rows_with, vectors_of};
ghost use Rattle.dt_table.specs.Change.{added_names, cols_of, kept, part_seen, parts_seen};
ghost use Rattle.dt_table.specs.Change.{is_delete, names_changed, vectors_changed, written_cells};
ghost use Rattle.dt_table.specs.Parts.{FitsNow, IsPut, columns_left, left, part_in, put_all};

use crate::Part;
use crate::apply::{goes, put_cells};
use dt_base::{ColName, Steps};
use na_vector::Frame;
use std::mem::replace;
use std::sync::ledger::Ledger;

/// Makes a part of a change, but for a deletion.
fn put_part<L: Ledger>(
    names: &mut Vec<ColName>,
    frame: &mut Frame,
    part: Part,
    steps: &mut Steps<L>,
)
    requires fits { FitsNow frame.old (part_seen part) }
    requires columns { length (added_names (part_seen part ∷ [])) ≤ frame.old.spare }
    requires names { length (added_names (part_seen part ∷ []))
        ≤ vec_capacity names.old - vec_len names.old }
    ensures put { IsPut (part_seen part) frame.old frame.new }
    ensures names { names.new.items ≡ names.old.items ++ added_names (part_seen part ∷ []) }
    ensures room { vec_capacity names.old - vec_len names.old
        ≤ vec_capacity names.new - vec_len names.new + length (added_names (part_seen part ∷ [])) }
    ensures touches { steps.new ≡ steps.old + written_cells (part_seen part ∷ []) }
{
    match part {
        Part::Replace { col, with } => {
            let _ = frame.replace_col(col, with);
        }
        Part::Write { col, at, cells } => {
            let mut left = cells;
            put_cells(frame, col, &at, &mut left, steps);
        }
        Part::Add { name, with } => {
            match names.push(name) {
                Ok(()) => (),
                Err(_) => unreachable!(),
            }
            frame.add_col(with);
        }
        Part::Delete { .. } => (),
    }
}

fn is_delete(part: &Part) -> bool
    ensures { result ≡ is_delete (Some (part_seen part.now)) }
{
    matches!(part, Part::Delete { .. })
}

/// Makes the part at a place of a change, and leaves a deletion there: the part itself where it is
/// one, and else that of column `none`.
fn put_next<L: Ledger>(
    names: &mut Vec<ColName>,
    frame: &mut Frame,
    parts: &mut Vec<Part>,
    k: usize,
    none: usize,
    steps: &mut Steps<L>,
)
    requires place { k < vec_len parts.old }
    requires fits { FitsNow frame.old (part_in (parts_seen parts.old.items) k) }
    requires columns { length (added_names (part_in (parts_seen parts.old.items) k ∷ []))
        ≤ frame.old.spare }
    requires names { length (added_names (part_in (parts_seen parts.old.items) k ∷ []))
        ≤ vec_capacity names.old - vec_len names.old }
    ensures put { IsPut (part_in (parts_seen parts.old.items) k) frame.old frame.new }
    ensures names { names.new.items ≡ names.old.items ++ added_names
        (part_in (parts_seen parts.old.items) k ∷ []) }
    ensures room { vec_capacity names.old - vec_len names.old
        ≤ vec_capacity names.new - vec_len names.new + length
        (added_names (part_in (parts_seen parts.old.items) k ∷ [])) }
    ensures left { parts_seen parts.new.items ≡ slice_set (parts_seen parts.old.items) k
        (left none (part_in (parts_seen parts.old.items) k)) }
    ensures touches { steps.new ≡ steps.old + written_cells
        (part_in (parts_seen parts.old.items) k ∷ []) }
{
    if !is_delete(&parts[k]) {
        let part = replace(&mut parts[k], Part::Delete { col: none });
        put_part(names, frame, part, steps);
    }
}

/// Makes all parts of a change in order, but for deletions, which it leaves. Column `none` is
/// none of
/// the table's.
pub fn put_parts<L: Ledger>(
    names: &mut Vec<ColName>,
    frame: &mut Frame,
    parts: &mut Vec<Part>,
    none: usize,
    steps: &mut Steps<L>,
)
    requires fits { All (FitsNow frame.old) (parts_seen parts.old.items) }
    requires once { IsDistinct (λ (a b : ℕ). a == b) (cols_of (parts_seen parts.old.items)) }
    requires columns { length (added_names (parts_seen parts.old.items)) ≤ frame.old.spare }
    requires names { length (added_names (parts_seen parts.old.items))
        ≤ vec_capacity names.old - vec_len names.old }
    ensures vectors { vectors_of frame.new.columns
        ≡ put_all (parts_seen parts.old.items) (vectors_of frame.old.columns) }
    ensures rows { frame.new.rows ≡ frame.old.rows }
    ensures names { names.new.items ≡ names.old.items ++ added_names (parts_seen parts.old.items) }
    ensures left { parts_seen parts.new.items ≡ map (left none) (parts_seen parts.old.items) }
    ensures touches { steps.new ≡ steps.old + written_cells (parts_seen parts.old.items) }
{
    for k in 0..parts.len() {
        put_next(names, frame, parts, k, none, steps);
    }
}

/// Takes out a column and its name.
fn drop_column(names: &mut Vec<ColName>, frame: &mut Frame, c: usize)
    requires name { c < length names.old.items }
    requires column { c < length frame.old.columns }
    ensures names { names.new.items ≡ remove names.old.items c }
    ensures columns { frame.new.columns ≡ remove frame.old.columns c }
    ensures rows { frame.new.rows ≡ rows_with (length frame.new.columns) frame.old.rows }
{
    let _ = names.remove(c);
    let _ = frame.remove_col(c);
}

/// Takes out the columns that go, of the first `width`, from the last one on.
pub fn drop_columns(names: &mut Vec<ColName>, frame: &mut Frame, parts: &[Part], width: usize)
    requires width { width ≤ length names.old.items }
    requires each { length names.old.items ≡ length frame.old.columns }
    ensures names { names.new.items ≡ columns_left (parts_seen parts.now) width names.old.items }
    ensures columns { frame.new.columns ≡ columns_left (parts_seen parts.now) width
        frame.old.columns }
    ensures rows { frame.new.rows ≡ rows_with (length frame.new.columns) frame.old.rows }
{
    let _ = frame.width();
    let mut c = width;
    while c > 0 {
        c -= 1;
        if goes(parts, c) {
            drop_column(names, frame, c);
        }
    }
}

/// Makes all parts of a change of the columns.
pub fn change_columns<L: Ledger>(
    names: &mut Vec<ColName>,
    frame: &mut Frame,
    parts: Vec<Part>,
    steps: &mut Steps<L>,
)
    requires each { length names.old.items ≡ length frame.old.columns }
    requires width { All (λ c. c < length names.old.items) (cols_of (parts_seen parts.items)) }
    requires once { IsDistinct (λ (a b : ℕ). a == b) (cols_of (parts_seen parts.items)) }
    requires fits { All (FitsNow frame.old) (parts_seen parts.items) }
    requires columns { length (added_names (parts_seen parts.items)) ≤ frame.old.spare }
    requires names { length (added_names (parts_seen parts.items))
        ≤ vec_capacity names.old - vec_len names.old }
    ensures names { names.new.items ≡ names_changed (parts_seen parts.items) names.old.items }
    ensures vectors { vectors_of frame.new.columns
        ≡ vectors_changed (parts_seen parts.items) (vectors_of frame.old.columns) }
    ensures rows { frame.new.rows ≡ rows_with (length
        (names_changed (parts_seen parts.items) names.old.items)) frame.old.rows }
    ensures touches { steps.new ≡ steps.old + written_cells (parts_seen parts.items) }
{
    let mut parts = parts;
    let width = names.len();
    put_parts(names, frame, &mut parts, width, steps);
    drop_columns(names, frame, &parts, width);
}
