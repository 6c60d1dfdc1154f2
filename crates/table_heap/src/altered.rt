//! An index and a change that one table gets, each where it is there.
ghost use Rattle.std.specs.Prelude.{◌≡◌, ◌+◌, OnOk};
ghost use Rattle.dt_table.specs.Plain.{plain};
ghost use Rattle.dt_table.specs.Table.{HasSame, IsTable};
ghost use Rattle.table_heap.specs.Altered.{added, cells_altered, table_altered, table_with};
ghost use Rattle.table_heap.specs.Altered.{FitsAltered, FitsIndex, FitsParts};
ghost use Rattle.table_heap.specs.Altered.{HasIndexRoom, HasPartsRoom, RoomForAltered};

use dt_base::Steps;
use dt_table::{Change, Index, Table};
use std::alloc::AllocError;
use std::sync::ledger::Ledger;

/// Makes the room that a change needs, where there is one.
fn reserve_parts(table: &mut Table, parts: &Option<Change>) -> Result<(), AllocError>
    requires { FitsParts table.old parts.now }
    ensures room { OnOk result (HasPartsRoom table.new parts.now) }
    ensures same { HasSame table.old table.new }
{
    match parts {
        Some(change) => table.reserve_change(change),
        None => Ok(()),
    }
}

/// Makes the room that an index needs, where there is one.
fn reserve_index(table: &mut Table, index: &Option<Index>) -> Result<(), AllocError>
    ensures room { OnOk result (HasIndexRoom table.new index.now) }
    ensures same { table.new ≡ record table.old { index_room = table.new.index_room } }
{
    match index {
        Some(_) => table.reserve_index(),
        None => Ok(()),
    }
}

/// Makes the room that `alter` needs. Spare numbers alone may have risen.
pub fn reserve(
    table: &mut Table,
    index: &Option<Index>,
    parts: &Option<Change>,
) -> Result<(), AllocError>
    requires { FitsAltered table.old index.now parts.now }
    ensures room { OnOk result (RoomForAltered table.new index.now parts.now) }
    ensures same { HasSame table.old table.new }
{
    reserve_parts(table, parts)?;
    reserve_index(table, index)
}

/// Adds the index behind the others, where there is one.
fn add(table: &mut Table, index: Option<Index>)
    requires fits { FitsIndex table.old index }
    requires room { HasIndexRoom table.old index }
    ensures { table.new ≡ added table.old index }
{
    if let Some(index) = index {
        table.add_index(index);
    }
}

/// Makes the change, where there is one.
fn change<L: Ledger>(table: &mut Table, parts: Option<Change>, steps: &mut Steps<L>)
    requires fits { FitsParts table.old parts }
    requires room { HasPartsRoom table.old parts }
    ensures plain { plain table.new ≡ table_with table.old parts }
    ensures touches { steps.new ≡ steps.old + cells_altered parts }
{
    if let Some(parts) = parts {
        table.apply(parts, steps);
    }
}

/// Adds the index, where there is one, and then makes the change, where there is one. It takes no
/// memory, and touches each cell that is written.
pub fn alter<L: Ledger>(
    table: &mut Table,
    index: Option<Index>,
    parts: Option<Change>,
    steps: &mut Steps<L>,
)
    requires fits { FitsAltered table.old index parts }
    requires room { RoomForAltered table.old index parts }
    ensures plain { plain table.new ≡ table_altered table.old index parts }
    ensures touches { steps.new ≡ steps.old + cells_altered parts }
{
    add(table, index);
    change(table, parts, steps);
}
