ghost use Rattle.std.specs.Prelude.{◌≡◌, ◌≤◌, ◌+◌, ◌++◌, ◌∷◌, [], IfOk, OnOk};
ghost use Rattle.dt_table.specs.Change.{cells_in, part_seen, parts_seen};

use crate::{Index, Part};
use dt_base::{Cell, ColName, Steps};
use std::alloc::{AllocError, Global};
use std::sync::ledger::Ledger;

/// The same names once more.
pub fn copied_names(alloc: Global, names: &[ColName]) -> Result<Vec<ColName>, AllocError>
    ensures { IfOk result (λ v. v.items ≡ names.now) }
{
    let mut out = Vec::with_capacity(alloc, names.len())?;
    for name in names {
        out.push(name.copy()?)?;
    }
    Ok(out)
}

/// The same indices once more.
pub fn copied_indices(alloc: Global, indices: &[Index]) -> Result<Vec<Index>, AllocError>
    ensures { IfOk result (λ v. v.items ≡ indices.now) }
{
    let mut out = Vec::with_capacity(alloc, indices.len())?;
    for index in indices {
        out.push(copied_index(alloc, index)?)?;
    }
    Ok(out)
}

fn copied_index(alloc: Global, index: &Index) -> Result<Index, AllocError>
    ensures { IfOk result (λ x. x ≡ index.now) }
{
    Ok(Index {
        cols: Vec::from_slice(alloc, &index.cols)?,
        order: Vec::from_slice(alloc, &index.order)?,
    })
}

/// The same cells once more.
fn copied_cells(alloc: Global, cells: &[Cell]) -> Result<Vec<Cell>, AllocError>
    ensures { IfOk result (λ v. v.items ≡ cells.now) }
{
    let mut out = Vec::with_capacity(alloc, cells.len())?;
    for cell in cells {
        out.push(cell.as_ref().to_cell(alloc)?)?;
    }
    Ok(out)
}

/// The same part once more.
fn copied_part<L: Ledger>(
    alloc: Global,
    part: &Part,
    steps: &mut Steps<L>,
) -> Result<Part, AllocError>
    ensures part { IfOk result (λ p. part_seen p ≡ part_seen part.now) }
    ensures at_most { steps.new ≤ steps.old + cells_in (part_seen part.now ∷ []) }
{
    Ok(match part {
        Part::Replace { col, with } => Part::Replace {
            col: *col,
            with: with.copy(alloc, steps)?,
        },
        Part::Write { col, at, cells } => Part::Write {
            col: *col,
            at: Vec::from_slice(alloc, at)?,
            cells: copied_cells(alloc, cells)?,
        },
        Part::Add { name, with } => Part::Add {
            name: name.copy()?,
            with: with.copy(alloc, steps)?,
        },
        Part::Delete { col } => Part::Delete { col: *col },
    })
}

fn add(parts: &mut Vec<Part>, part: Part) -> Result<(), AllocError>
    ensures { OnOk result (parts.new.items ≡ parts.old.items ++ part ∷ []) }
{
    Ok(parts.push(part)?)
}

/// The same parts once more.
pub fn copied_parts<L: Ledger>(
    alloc: Global,
    parts: &[Part],
    steps: &mut Steps<L>,
) -> Result<Vec<Part>, AllocError>
    ensures parts { IfOk result (λ v. parts_seen v.items ≡ parts_seen parts.now) }
    ensures at_most { steps.new ≤ steps.old + cells_in (parts_seen parts.now) }
{
    let mut out = Vec::new(alloc);
    for part in parts {
        add(&mut out, copied_part(alloc, part, steps)?)?;
    }
    Ok(out)
}
