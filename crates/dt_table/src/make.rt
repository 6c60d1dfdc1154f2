ghost use Rattle.std.specs.Prelude.{◌≡◌, ◌*◌, ◌≤◌, ◌↔◌, IfOk, IsTrue, length};
ghost use Rattle.dt_model.specs.Table.{first_repeated};

use dt_base::ColName;
use dt_base::limits::MAX_CELLS;
use std::alloc::{AllocError, Global};
use std::collections::HashSet;

/// Why no table is made of some names and a frame, in the order in which it is looked at.
#[derive(Drop)]
pub enum MakeFail {
    /// The name of this column stands before it too. Columns are counted from 0.
    Duplicate { col: usize },
    /// More than 16,777,216 rows.
    TooManyRows,
    /// More than 67,108,864 cells, rows times columns.
    TooManyCells,
    /// More than 4,096 columns.
    TooManyColumns,
    NoMemory(AllocError),
}

impl From<AllocError> for MakeFail {
    ghost use Rattle.std.specs.Prelude.{◌≡◌};
    ghost use Rattle.dt_table.specs.declared.make.MakeFail.TheVariants.{NoMemory};

    ghost from_gives = { λ e f. f ≡ NoMemory e };

    fn from(e: AllocError) -> MakeFail {
        MakeFail::NoMemory(e)
    }
}

/// The least place whose name stands before it too. It takes memory for a set of the names, and
/// its time is linear in them.
pub fn repeated_name(alloc: Global, names: &[ColName]) -> Result<Option<usize>, AllocError>
    ensures { IfOk result (λ place. place ≡ first_repeated names.now) }
{
    let mut seen = HashSet::new(alloc);
    for (place, name) in names.iter().enumerate() {
        if !seen.insert(name.as_str())? {
            return Ok(Some(place));
        }
    }
    Ok(None)
}

/// Whether so many rows of so many cells are within the limit on cells.
pub fn is_within_cells(rows: usize, width: usize) -> bool
    ensures { IsTrue result ↔ (rows * width ≤ MAX_CELLS) }
{
    match rows.checked_mul(width) {
        Some(cells) => cells <= MAX_CELLS,
        None => false,
    }
}
