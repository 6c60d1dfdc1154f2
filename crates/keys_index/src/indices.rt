ghost use Rattle.std.specs.Prelude.{◌≡◌, ◌+◌, ◌*◌, ◌<◌, ◌≤◌, IfOk, OnOk, length};
ghost use Rattle.dt_table.specs.Table.{IsColumnList, IsIndex};
ghost use Rattle.na_vector.specs.Frame.{vectors_of};

use crate::orders::rising_order;
use dt_base::Steps;
use dt_table::{Index, Table};
use std::alloc::{AllocError, Global};
use std::sync::ledger::Ledger;

/// The index of a table over these columns, which are one or more, distinct and in range: all row
/// numbers in their order. The table stays as it is, and `Table::add_index` adds the index to it.
///
/// Want of memory is the one error. It touches each cell of these columns; its memory is linear in
/// the rows.
pub fn make_index<L: Ledger>(
    alloc: Global,
    t: &Table,
    cols: &[usize],
    steps: &mut Steps<L>,
) -> Result<Index, AllocError>
    requires cols { IsColumnList (length t.now.names) cols.now }
    requires some { 0 < length cols.now }
    ensures index { IfOk result (IsIndex (length t.now.names) t.now.frame.rows
        (vectors_of t.now.frame.columns)) }
    ensures cols { IfOk result (λ x. x.cols ≡ cols.now) }
    ensures touches { OnOk result (steps.new ≡ steps.old + length cols.now * t.now.frame.rows) }
    ensures at_most { steps.new ≤ steps.old + length cols.now * t.now.frame.rows }
{
    let own_cols = Vec::from_slice(alloc, cols)?;
    let order = rising_order(alloc, t.frame(), cols, steps)?;
    Ok(Index {
        cols: own_cols,
        order,
    })
}
