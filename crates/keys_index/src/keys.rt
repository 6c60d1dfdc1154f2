ghost use Rattle.std.specs.Prelude.{◌≡◌, ◌+◌, ◌*◌, ◌≤◌, IfOk, OnOk, OnErr, IsOk, length};
ghost use Rattle.dt_model.specs.Table.{names_at};
ghost use Rattle.dt_table.specs.Plain.{plain};
ghost use Rattle.dt_table.specs.Table.{HasTrueKey, IsColumnList, IsReordered};
ghost use Rattle.na_vector.specs.Frame.{vectors_of};
ghost use Rattle.order_model.specs.Keys.{key_set};
ghost use Rattle.order_model.specs.Order.{rising};
ghost use Rattle.order_model.specs.Places.{ordering};

use crate::orders::rising_order;
use dt_base::Steps;
use dt_table::Table;
use row_order::is_sorted;
use std::alloc::{AllocError, Global};
use std::sync::ledger::Ledger;

/// A new table with the rows in the order of these columns, whose cells rise, NA first; rows that
/// are equal over all of them keep their order. The columns, distinct and in range, are its key,
/// and it has no index; it has the same names and as many slots.
///
/// Want of memory is the one error. It touches each cell of these columns once, and then each cell
/// of the table; its memory is linear in the cells.
pub fn keyed<L: Ledger>(
    alloc: Global,
    t: &Table,
    cols: &[usize],
    steps: &mut Steps<L>,
) -> Result<Table, AllocError>
    requires cols { IsColumnList (length t.now.names) cols.now }
    ensures plain { IfOk result
        (λ u. plain u ≡ key_set (names_at t.now.names cols.now) (plain t.now)) }
    ensures ok { IfOk result (IsReordered t.now
        (ordering (rising (vectors_of t.now.frame.columns) cols.now) t.now.frame.rows) cols.now) }
    ensures touches { OnOk result (steps.new ≡ steps.old + (length cols.now * t.now.frame.rows
        + length t.now.frame.columns * t.now.frame.rows)) }
    ensures at_most { steps.new ≤ steps.old + (length cols.now * t.now.frame.rows
        + length t.now.frame.columns * t.now.frame.rows) }
{
    let key = Vec::from_slice(alloc, cols)?;
    let rows = rising_order(alloc, t.frame(), cols, steps)?;
    Ok(t.reordered(alloc, &rows, key, steps)?)
}

/// Puts the rows of the table in the order of its new key, wherever they stand.
fn sort_rows<L: Ledger>(
    alloc: Global,
    t: &mut Table,
    key: Vec<usize>,
    steps: &mut Steps<L>,
) -> Result<(), AllocError>
    requires key { IsColumnList (length t.old.names) key.items }
    ensures plain { OnOk result
        (plain t.new ≡ key_set (names_at t.old.names key.items) (plain t.old)) }
    ensures ok { OnOk result (IsReordered t.old
        (ordering (rising (vectors_of t.old.frame.columns) key.items) t.old.frame.rows)
        key.items t.new) }
    ensures err { OnErr result (t.new ≡ t.old) }
    ensures at_most { steps.new ≤ steps.old + (length key.items * t.old.frame.rows
        + length t.old.frame.columns * t.old.frame.rows) }
{
    let rows = rising_order(alloc, t.frame(), &key, steps)?;
    Ok(t.reorder(alloc, &rows, key, steps)?)
}

/// Does what `set_key` does, with the key's columns in a list that the table keeps. So where the
/// rows already stand in their order it takes no memory and cannot fail, and leaves the columns as
/// they are.
pub fn set_owned_key<L: Ledger>(
    alloc: Global,
    t: &mut Table,
    key: Vec<usize>,
    steps: &mut Steps<L>,
) -> Result<(), AllocError>
    requires key { IsColumnList (length t.old.names) key.items }
    ensures plain { OnOk result
        (plain t.new ≡ key_set (names_at t.old.names key.items) (plain t.old)) }
    ensures ok { OnOk result (IsReordered t.old
        (ordering (rising (vectors_of t.old.frame.columns) key.items) t.old.frame.rows)
        key.items t.new) }
    ensures err { OnErr result (t.new ≡ t.old) }
    ensures in_place { HasTrueKey t.old.frame.rows (vectors_of t.old.frame.columns) key.items
        → IsOk result × (t.new.frame ≡ t.old.frame) }
    ensures few_touches { HasTrueKey t.old.frame.rows (vectors_of t.old.frame.columns) key.items
        → steps.new ≤ steps.old + t.old.frame.rows * (2 * length key.items) }
    ensures at_most { steps.new ≤ steps.old + (t.old.frame.rows * (2 * length key.items)
        + (length key.items * t.old.frame.rows
        + length t.old.frame.columns * t.old.frame.rows)) }
{
    if is_sorted(t.frame(), &key, steps) {
        t.record_key(key);
        t.drop_indices();
        return Ok(());
    }
    sort_rows(alloc, t, key, steps)
}

/// Puts the rows of the table in the order of these columns, whose cells rise, NA first; rows that
/// are equal over all of them keep their order. The columns, distinct and in range, are its key
/// then, and it has no index.
///
/// It looks first whether the rows already stand so, which touches at most two cells for each row
/// and column of the key: then it sorts nothing, and takes memory for the list of the key's columns
/// alone. Else it touches each cell of these columns and each cell of the table besides, and its
/// memory is linear in the cells. Want of memory is the one error, and leaves the table as it was.
pub fn set_key<L: Ledger>(
    alloc: Global,
    t: &mut Table,
    cols: &[usize],
    steps: &mut Steps<L>,
) -> Result<(), AllocError>
    requires cols { IsColumnList (length t.old.names) cols.now }
    ensures plain { OnOk result
        (plain t.new ≡ key_set (names_at t.old.names cols.now) (plain t.old)) }
    ensures ok { OnOk result (IsReordered t.old
        (ordering (rising (vectors_of t.old.frame.columns) cols.now) t.old.frame.rows)
        cols.now t.new) }
    ensures err { OnErr result (t.new ≡ t.old) }
    ensures in_place { HasTrueKey t.old.frame.rows (vectors_of t.old.frame.columns) cols.now
        → t.new.frame ≡ t.old.frame }
    ensures few_touches { HasTrueKey t.old.frame.rows (vectors_of t.old.frame.columns) cols.now
        → steps.new ≤ steps.old + t.old.frame.rows * (2 * length cols.now) }
    ensures at_most { steps.new ≤ steps.old + (t.old.frame.rows * (2 * length cols.now)
        + (length cols.now * t.old.frame.rows
        + length t.old.frame.columns * t.old.frame.rows)) }
{
    let key = Vec::from_slice(alloc, cols)?;
    Ok(set_owned_key(alloc, t, key, steps)?)
}
