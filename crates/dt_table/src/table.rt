ghost use Rattle.std.specs.Prelude.{◌≡◌, ◌+◌, ◌*◌, ◌<◌, ◌≤◌, IfOk, OnOk, IfErr, All, length};
ghost use Rattle.std.specs.Prelude.{slice_get, Some};
ghost use Rattle.dt_model.specs.Table.{place_of};
ghost use Rattle.dt_table.specs.Make.{refusal, IsCause};

use crate::copies::{copied_indices, copied_names, copied_parts};
use crate::make::{is_within_cells, repeated_name};
use crate::orders::{cut_indices, cut_key};
use crate::parts::change_columns;
use crate::room::{count_added, rename_columns, reserve_parts};
use crate::{Change, Index, MakeFail};
use dt_base::limits::{MAX_COLUMNS, MAX_ROWS, SPARE_COLUMNS};
use dt_base::{ColName, Steps};
use na_vector::Frame;
use std::alloc::{AllocError, Global};
use std::marker::Model;
use std::sync::ledger::Ledger;

/// A table: named columns of one length, a key, indices, and a number of column slots.
///
/// Its names are distinct and none is empty; it has at most 16,777,216 rows and 67,108,864 cells,
/// and no more columns than slots. Over the columns of its key no row stands above the next one,
/// and each index has the rows in the order of its columns. Contracts see all its parts, and for
/// how many more names and indices there is room; `plain` reads the parts row by row.
#[derive(Drop)]
pub struct Table {
    pub(crate) names: Vec<ColName>,
    pub(crate) frame: Frame,
    pub(crate) key: Vec<usize>,
    pub(crate) indices: Vec<Index>,
    pub(crate) slots: usize,
}

impl Model for Table {
    ghost use Rattle.dt_table.specs.Table.{TableSeen, IsTable};

    ghost Value = { TableSeen };

    ghost use Rattle.std.specs.Prelude.{◌-◌, vec_len, vec_capacity};

    ghost view = { λ t. record {
      names = t.names.items;
      frame = t.frame;
      key = t.key.items;
      indices = t.indices.items;
      slots = t.slots;
      spare = vec_capacity t.names - vec_len t.names;
      index_room = vec_capacity t.indices - vec_len t.indices;
    } };

    ghost invariant = { λ t. IsTable (record {
      names = t.names.items;
      frame = t.frame;
      key = t.key.items;
      indices = t.indices.items;
      slots = t.slots;
      spare = vec_capacity t.names - vec_len t.names;
      index_room = vec_capacity t.indices - vec_len t.indices;
    }) };
}

impl Table {
    ghost use Rattle.dt_table.specs.Table.{HasSame, IsColumnList, IsCopy, IsFilled, IsNames};
    ghost use Rattle.dt_table.specs.Table.{IsTable, made, renamed};
    ghost use Rattle.dt_table.specs.Change.{FitsTable, IsApplied, RoomFor, cells_in, written_cells};
    ghost use Rattle.dt_table.specs.Plain.{plain, plain_changed};

    /// The table of these names and this frame, without key and indices, with 1,024 slots more than
    /// columns. There are as many names as columns, and no name is empty.
    ///
    /// It is refused, first of these, where a name stands before it too (with the least such
    /// place), where there are too many rows, too many cells, or more than 4,096 columns. Its time
    /// and its memory are linear in the names.
    pub fn make(alloc: Global, names: Vec<ColName>, frame: Frame) -> Result<Table, MakeFail>
        requires count { length names.items ≡ length frame.columns }
        requires filled { All IsFilled names.items }
        ensures table { IfOk result (λ t. t ≡ made names.items frame t.spare) }
        ensures passed { IfOk result (λ t. refusal names.items frame ≡ None) }
        ensures refused { IfErr result (λ e. IsCause e (refusal names.items frame)) }
    {
        if let Some(col) = repeated_name(alloc, &names)? {
            return Err(MakeFail::Duplicate { col });
        }
        if frame.rows() > MAX_ROWS {
            return Err(MakeFail::TooManyRows);
        }
        if !is_within_cells(frame.rows(), frame.width()) {
            return Err(MakeFail::TooManyCells);
        }
        if frame.width() > MAX_COLUMNS {
            return Err(MakeFail::TooManyColumns);
        }
        let slots = frame.width() + SPARE_COLUMNS;
        Ok(Table {
            names,
            frame,
            key: Vec::new(alloc),
            indices: Vec::new(alloc),
            slots,
        })
    }

    /// The columns. It also says what is so of every table.
    pub fn frame(&self) -> &Frame
        ensures frame { result.now ≡ self.now.frame }
        ensures table { IsTable self.now }
    {
        &self.frame
    }

    /// How many columns the table may have. It also says what is so of every table.
    pub fn slots(&self) -> usize
        ensures slots { result ≡ self.now.slots }
        ensures table { IsTable self.now }
    {
        self.slots
    }

    /// All names, in the order of the columns. It also says what is so of every table.
    pub fn names(&self) -> &[ColName]
        ensures names { result.now ≡ self.now.names }
        ensures table { IsTable self.now }
    {
        &self.names
    }

    /// The name of a column, counted from 0.
    pub fn name(&self, c: usize) -> &ColName
        requires { c < length self.now.names }
        ensures { slice_get self.now.names c ≡ Some result.now }
    {
        &self.names[c]
    }

    /// The place of the column with this name, counted from 0, or none where no column has it. It
    /// looks at the names in order.
    pub fn place(&self, name: &str) -> Option<usize>
        ensures { result ≡ place_of name.now self.now.names }
    {
        self.names.iter().position(|n| n.as_str() == name)
    }

    /// The columns of the key, counted from 0, the first one first. It also says what is so of
    /// every table.
    pub fn key(&self) -> &[usize]
        ensures key { result.now ≡ self.now.key }
        ensures table { IsTable self.now }
    {
        &self.key
    }

    /// The number of indices. It also says what is so of every table.
    pub fn index_count(&self) -> usize
        ensures count { result ≡ length self.now.indices }
        ensures table { IsTable self.now }
    {
        self.indices.len()
    }

    /// An index, counted from 0 in the order in which they were added.
    pub fn index(&self, k: usize) -> &Index
        requires { k < length self.now.indices }
        ensures { slice_get self.now.indices k ≡ Some result.now }
    {
        &self.indices[k]
    }

    /// The same names, rows, key and indices once more, in memory of their own, with 1,024 slots
    /// more than columns. It touches each cell.
    pub fn copy<L: Ledger>(&self, alloc: Global, steps: &mut Steps<L>) -> Result<Table, AllocError>
        ensures ok { IfOk result (IsCopy self.now) }
        ensures touches { OnOk result (steps.new ≡ steps.old + length self.now.frame.columns *
            self.now.frame.rows) }
        ensures at_most { steps.new ≤ steps.old + length self.now.frame.columns *
            self.now.frame.rows }
    {
        let names = copied_names(alloc, &self.names)?;
        let key = Vec::from_slice(alloc, &self.key)?;
        let indices = copied_indices(alloc, &self.indices)?;
        let frame = self.frame.copy(alloc, steps)?;
        let own_slots = frame.width() + SPARE_COLUMNS;
        Ok(Table {
            names,
            frame,
            key,
            indices,
            slots: own_slots,
        })
    }

    /// Makes a change, which fits the table and for which there is room. It cuts the key before the
    /// first column that is changed or goes, and drops each index that has such a column. It takes
    /// no memory, and touches each cell that is written.
    pub fn apply<L: Ledger>(&mut self, ch: Change, steps: &mut Steps<L>)
        requires fits { FitsTable self.old ch }
        requires room { RoomFor self.old ch }
        ensures applied { IsApplied self.old ch self.new }
        ensures plain { plain self.new ≡ plain_changed self.old ch }
        ensures touches { steps.new ≡ steps.old + written_cells ch.parts }
    {
        let Change { parts } = ch;
        cut_key(&mut self.key, &parts);
        cut_indices(&mut self.indices, &parts);
        change_columns(&mut self.names, &mut self.frame, parts, steps);
        let _ = self.frame.width();
    }

    /// Makes the room that `apply` of this change needs. Whatever its answer, spare numbers may
    /// have risen, and all else is as it was.
    pub fn reserve_change(&mut self, ch: &Change) -> Result<(), AllocError>
        requires fits { FitsTable self.old ch.now }
        ensures room { OnOk result (RoomFor self.new ch.now) }
        ensures same { HasSame self.old self.new }
    {
        let added = count_added(&ch.parts);
        self.names.reserve(added)?;
        reserve_parts(&mut self.frame, added, &ch.parts)
    }

    /// Gives columns other names, in the order of both lists. The columns are distinct and in
    /// range, there are as many names, and all names are distinct then and none is empty. It takes
    /// no memory.
    pub fn rename(&mut self, cols: &[usize], names: Vec<ColName>)
        requires cols { IsColumnList (length self.old.names) cols.now }
        requires each { length cols.now ≡ length names.items }
        requires names { IsNames (renamed cols.now names.items self.old.names) }
        ensures { self.new ≡ record self.old {
          names = renamed cols.now names.items
              self.old.names;
        } }
    {
        let mut names = names;
        rename_columns(&mut self.names, cols, &mut names);
    }

    /// The same table once more, its slots included, in memory of its own.
    fn same<L: Ledger>(&self, alloc: Global, steps: &mut Steps<L>) -> Result<Table, AllocError>
        ensures same { IfOk result (HasSame self.now) }
        ensures at_most { steps.new ≤ steps.old + length self.now.frame.columns *
            self.now.frame.rows }
    {
        let names = copied_names(alloc, &self.names)?;
        let own_key = Vec::from_slice(alloc, &self.key)?;
        let indices = copied_indices(alloc, &self.indices)?;
        let frame = self.frame.copy(alloc, steps)?;
        let _ = frame.width();
        Ok(Table {
            names,
            frame,
            key: own_key,
            indices,
            slots: self.slots,
        })
    }

    /// The new table that `apply` of this change, which fits, would leave, its slots included. This
    /// table stays as it is. It touches each cell of the table and of the change's columns, and
    /// each cell that is written.
    pub fn preview<L: Ledger>(
        &self,
        alloc: Global,
        ch: &Change,
        steps: &mut Steps<L>,
    ) -> Result<Table, AllocError>
        requires fits { FitsTable self.now ch.now }
        ensures applied { IfOk result (IsApplied self.now ch.now) }
        ensures plain { IfOk result (λ u. plain u ≡ plain_changed self.now ch.now) }
        ensures at_most { steps.new ≤ steps.old + (length self.now.frame.columns *
            self.now.frame.rows + (cells_in ch.now.parts + written_cells ch.now.parts)) }
    {
        let _ = self.names();
        let mut table = self.same(alloc, steps)?;
        let parts = copied_parts(alloc, &ch.parts, steps)?;
        let change = Change { parts };
        table.reserve_change(&change)?;
        table.apply(change, steps);
        Ok(table)
    }
}
