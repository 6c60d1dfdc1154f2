ghost use Rattle.std.specs.Prelude.{◌≡◌, ◌+◌, ◌-◌, ◌*◌, ◌≤◌, ◌++◌, ◌∷◌, []};
ghost use Rattle.std.specs.Prelude.{IfOk, OnOk, OnErr, Some, length, map};
ghost use Rattle.std.specs.List.{range_with_len};
ghost use Rattle.std.specs.List.Sorted.{IsPermutation};
ghost use Rattle.dt_model.specs.Vector.{gathered};
ghost use Rattle.na_vector.specs.Frame.{vectors_of};
ghost use Rattle.order_model.specs.Keys.{IsInOrder};
ghost use Rattle.order_model.specs.Order.{rising};

use crate::copies::copied_names;
use crate::{Index, Table};
use dt_base::Steps;
use na_vector::Frame;
use std::alloc::{AllocError, Global};
use std::sync::ledger::Ledger;

/// Each of these rows, as a place that is there.
fn row_places(alloc: Global, rows: &[u32]) -> Result<Vec<Option<u32>>, AllocError>
    ensures { IfOk result (λ places. places.items ≡ map Some rows.now) }
{
    let mut places = Vec::with_capacity(alloc, rows.len())?;
    for row in rows {
        places.push(Some(*row))?;
    }
    Ok(places)
}

/// The rows of a frame in this order, which has each of them once.
fn rows_in_order<L: Ledger>(
    alloc: Global,
    frame: &Frame,
    order: &[u32],
    steps: &mut Steps<L>,
) -> Result<Frame, AllocError>
    requires { IsPermutation (range_with_len 0 frame.now.rows) order.now }
    ensures ok { IfOk result (λ f. vectors_of f.columns
        ≡ map (λ v. gathered v (map Some order.now)) (vectors_of frame.now.columns)) }
    ensures rows { IfOk result (λ f. f.rows ≡ frame.now.rows) }
    ensures touches { OnOk result (steps.new
        ≡ steps.old + length frame.now.columns * frame.now.rows) }
    ensures at_most { steps.new ≤ steps.old + length frame.now.columns * frame.now.rows }
{
    let _ = frame.rows();
    let places = row_places(alloc, order)?;
    Ok(frame.gather(alloc, &places, steps)?)
}

impl Table {
    ghost use Rattle.dt_table.specs.Plain.{plain, plain_reordered};
    ghost use Rattle.dt_table.specs.Table.{HasIndex, HasTrueKey, IsColumnList, IsIndex};
    ghost use Rattle.dt_table.specs.Table.{IsReordered};

    /// A new table of the same names and as many slots, with its rows in another order, with this
    /// key and without indices: its row p is the row whose number stands at p of `order`.
    ///
    /// `order` has each row number once. The key's columns are distinct and in range, and of the
    /// rows in this order none stands above the next one over them; the empty key always serves.
    /// Want of memory is the one error. It gathers each column once: so it touches each cell, and
    /// takes memory for the cells, the names and the row numbers.
    pub fn reordered<L: Ledger>(
        &self,
        alloc: Global,
        order: &[u32],
        key: Vec<usize>,
        steps: &mut Steps<L>,
    ) -> Result<Table, AllocError>
        requires rows { IsPermutation (range_with_len 0 self.now.frame.rows) order.now }
        requires key { IsColumnList (length self.now.names) key.items }
        requires order { IsInOrder (rising (vectors_of self.now.frame.columns) key.items)
            order.now }
        ensures ok { IfOk result (IsReordered self.now order.now key.items) }
        ensures plain { IfOk result
            (λ u. plain u ≡ plain_reordered order.now key.items self.now) }
        ensures touches { OnOk result (steps.new ≡ steps.old + length self.now.frame.columns *
            self.now.frame.rows) }
        ensures at_most { steps.new ≤ steps.old + length self.now.frame.columns *
            self.now.frame.rows }
    {
        let names = copied_names(alloc, &self.names)?;
        let frame = rows_in_order(alloc, &self.frame, order, steps)?;
        let _ = frame.width();
        Ok(Table {
            names,
            frame,
            key,
            indices: Vec::new(alloc),
            slots: self.slots,
        })
    }

    /// Puts the rows of the table in another order, gives it this key, and drops its indices, as
    /// `reordered` does for a new table, of which it asks the same. After want of memory, the one
    /// error, the table is as it was. It touches each cell, and takes memory for the cells and the
    /// row numbers.
    pub fn reorder<L: Ledger>(
        &mut self,
        alloc: Global,
        order: &[u32],
        key: Vec<usize>,
        steps: &mut Steps<L>,
    ) -> Result<(), AllocError>
        requires rows { IsPermutation (range_with_len 0 self.old.frame.rows) order.now }
        requires key { IsColumnList (length self.old.names) key.items }
        requires order { IsInOrder (rising (vectors_of self.old.frame.columns) key.items)
            order.now }
        ensures ok { OnOk result (IsReordered self.old order.now key.items self.new) }
        ensures plain { OnOk result
            (plain self.new ≡ plain_reordered order.now key.items self.old) }
        ensures err { OnErr result (self.new ≡ self.old) }
        ensures touches { OnOk result (steps.new ≡ steps.old + length self.old.frame.columns *
            self.old.frame.rows) }
        ensures at_most { steps.new ≤ steps.old + length self.old.frame.columns *
            self.old.frame.rows }
    {
        self.frame.permute(alloc, order, steps)?;
        self.key = key;
        self.indices.clear();
        let _ = self.frame.width();
        Ok(())
    }

    /// The same table with this key, of which it asks what `record_key` does. It takes no memory,
    /// and touches nothing.
    pub fn with_key(self, key: Vec<usize>) -> Table
        requires key { IsColumnList (length self.names) key.items }
        requires true_key { HasTrueKey self.frame.rows (vectors_of self.frame.columns) key.items }
        ensures { result ≡ record self { key = key.items } }
    {
        let mut table = self;
        table.record_key(key);
        table
    }

    /// Gives the table this key, and leaves its rows as they stand. The key's columns are distinct
    /// and in range, and no row stands above the next one over them. It takes no memory, and
    /// touches nothing.
    pub fn record_key(&mut self, key: Vec<usize>)
        requires key { IsColumnList (length self.old.names) key.items }
        requires true_key { HasTrueKey self.old.frame.rows (vectors_of self.old.frame.columns)
            key.items }
        ensures { self.new ≡ record self.old { key = key.items } }
    {
        self.key = key;
    }

    /// Forgets the key, and leaves the rows as they stand, and all else. It takes no memory, and
    /// touches nothing.
    pub fn drop_key(&mut self)
        ensures { self.new ≡ record self.old { key = [] } }
    {
        self.key.clear();
    }

    /// Drops all indices, and leaves all else; the room that they had serves others. It takes no
    /// memory, and touches nothing.
    pub fn drop_indices(&mut self)
        ensures { self.new ≡ record self.old {
          indices = [];
          index_room = self.old.index_room + length self.old.indices;
        } }
    {
        self.indices.clear();
    }

    /// Makes the room that `add_index` needs. Whatever its answer, the room for indices may have
    /// risen, and all else is as it was, the other spare numbers too. It touches nothing.
    pub fn reserve_index(&mut self) -> Result<(), AllocError>
        ensures room { OnOk result (1 ≤ self.new.index_room) }
        ensures more { self.old.index_room ≤ self.new.index_room }
        ensures same { self.new ≡ record self.old { index_room = self.new.index_room } }
    {
        self.indices.reserve(1)
    }

    /// Adds an index behind the others. Its columns are distinct and in range, one or more, and no
    /// other index has just these; its rows are all rows in the order of these columns. There is
    /// room for it: so it takes no memory. It touches nothing.
    pub fn add_index(&mut self, index: Index)
        requires index { IsIndex (length self.old.names) self.old.frame.rows
            (vectors_of self.old.frame.columns) index }
        requires once { HasIndex index.cols self.old.indices → ⊥ }
        requires room { 1 ≤ self.old.index_room }
        ensures { self.new ≡ record self.old {
          indices = self.old.indices ++ index ∷ [];
          index_room = self.old.index_room - 1;
        } }
    {
        self.indices.push_reserved(index);
    }
}
