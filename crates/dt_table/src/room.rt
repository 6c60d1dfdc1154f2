ghost use Rattle.std.specs.Prelude.{◌≡◌, ◌<◌, ◌≤◌, All, OnOk, length, vec_capacity};
ghost use Rattle.na_vector.specs.Frame.{column_at, vectors_of};
ghost use Rattle.dt_table.specs.Change.{HasRoom, added_names, part_seen, parts_seen, texts_in};
ghost use Rattle.dt_table.specs.Parts.{IsRoomier, IsColumnOf};
ghost use Rattle.dt_table.specs.Table.{renamed};

use crate::Part;
use dt_base::{Cell, ColName};
use na_vector::Frame;
use std::alloc::AllocError;
use std::mem::swap;

/// How many columns are added.
pub fn count_added(parts: &[Part]) -> usize
    ensures { result ≡ length (added_names (parts_seen parts.now)) }
{
    let mut count = 0;
    for part in parts {
        if matches!(part, Part::Add { .. }) {
            count += 1;
        }
    }
    count
}

/// How many of the cells are texts.
fn count_texts(cells: &[Cell]) -> usize
    ensures { result ≡ texts_in cells.now }
{
    let mut count = 0;
    for cell in cells {
        if matches!(cell, Cell::Text(_)) {
            count += 1;
        }
    }
    count
}

/// Makes the room that a part needs of the column that it names.
fn reserve_part(frame: &mut Frame, part: &Part) -> Result<(), AllocError>
    requires { IsColumnOf (length frame.old.columns) (part_seen part.now) }
    ensures room { OnOk result (HasRoom frame.new.columns (part_seen part.now)) }
    ensures more { IsRoomier frame.old frame.new }
{
    match part {
        Part::Write { col, cells, .. } => frame.reserve_cells(*col, count_texts(cells)),
        Part::Replace { .. } | Part::Add { .. } | Part::Delete { .. } => Ok(()),
    }
}

/// Makes the room that all parts need of their columns, and that for so many new ones.
pub fn reserve_parts(frame: &mut Frame, added: usize, parts: &[Part]) -> Result<(), AllocError>
    requires { All (IsColumnOf (length frame.old.columns)) (parts_seen parts.now) }
    ensures room { OnOk result (All (HasRoom frame.new.columns) (parts_seen parts.now)) }
    ensures columns { OnOk result (added ≤ frame.new.spare) }
    ensures more { IsRoomier frame.old frame.new }
{
    frame.reserve_cols(added)?;
    for part in parts {
        reserve_part(frame, part)?;
    }
    Ok(())
}

/// Puts the names at these places, and leaves those that stood there.
pub fn rename_columns(all: &mut Vec<ColName>, cols: &[usize], names: &mut [ColName])
    requires cols { All (λ c. c < length all.old.items) cols.now }
    requires each { length cols.now ≡ length names.old }
    ensures names { all.new.items ≡ renamed cols.now names.old all.old.items }
    ensures capacity { vec_capacity all.new ≡ vec_capacity all.old }
{
    for k in 0..cols.len() {
        swap(&mut all[cols[k]], &mut names[k]);
    }
}
