//! Changes of a table, which all its names see. Each is one call behind `Heap::table_mut`.
ghost use Rattle.std.specs.Prelude.{◌≡◌, ◌+◌, [], OnOk};
ghost use Rattle.dt_model.specs.State as model;
ghost use Rattle.dt_table.specs.Plain.{plain, plain_keyed, plain_unindexed};
ghost use Rattle.table_heap.specs.Altered.{cells_altered, table_altered, FitsAt, RoomAt};
ghost use Rattle.table_heap.specs.Changes.{ChangesAt, HoldsSame, KeyedAt, plain_rekeyed};
ghost use Rattle.table_heap.specs.Changes.{plain_renamed, RenamesAt, StaysLive};
ghost use Rattle.table_heap.specs.Seen.{IsAt, IsTableAt};
ghost use Rattle.table_heap.specs.State.{state_of};

use crate::altered::{alter, reserve};
use crate::{Heap, Id};
use dt_base::{ColName, Steps};
use dt_table::{Change, Index, Table};
use std::alloc::AllocError;
use std::sync::ledger::Ledger;

impl Heap {
    /// Makes the room that `apply_change` of these needs. The index and the change fit the table of
    /// the Id, which is live. Whatever its answer, spare numbers of that table may have risen, and
    /// all else is as it was: so is the state, and each live Id.
    pub fn reserve_change(
        &mut self,
        id: Id,
        index: &Option<Index>,
        parts: &Option<Change>,
    ) -> Result<(), AllocError>
        requires at { IsAt self.old id }
        requires fits { FitsAt self.old id index.now parts.now }
        ensures ready { OnOk result (RoomAt self.new id index.now parts.now) }
        ensures same { HoldsSame self.old self.new }
        ensures live { StaysLive self.old self.new }
        ensures room { self.new.room ≡ self.old.room }
    {
        let table = self.table_mut(id);
        reserve(table, index, parts)
    }

    /// Adds an index to the table of a live Id, where there is one, and then makes a change of it,
    /// where there is one. Both fit that table, and there is room for them. It takes no memory, and
    /// touches each cell that is written.
    pub fn apply_change<L: Ledger>(
        &mut self,
        id: Id,
        index: Option<Index>,
        parts: Option<Change>,
        steps: &mut Steps<L>,
    )
        requires at { IsAt self.old id }
        requires fits { FitsAt self.old id index parts }
        requires ready { RoomAt self.old id index parts }
        ensures state { ChangesAt self.old id (λ t. table_altered t index parts)
            (state_of self.new) }
        ensures live { StaysLive self.old self.new }
        ensures room { self.new.room ≡ self.old.room }
        ensures touches { steps.new ≡ steps.old + cells_altered parts }
    {
        alter(self.table_mut(id), index, parts, steps);
    }

    /// Gives columns of the table of a live Id other names, in the order of both lists. The columns
    /// are distinct and in range, there are as many names, and all names are distinct then and none
    /// is empty. It takes no memory, and touches nothing.
    pub fn rename(&mut self, id: Id, cols: &[usize], names: Vec<ColName>)
        requires at { IsAt self.old id }
        requires fits { RenamesAt self.old id cols.now names.items }
        ensures state { ChangesAt self.old id (plain_renamed cols.now names.items)
            (state_of self.new) }
        ensures live { StaysLive self.old self.new }
        ensures room { self.new.room ≡ self.old.room }
    {
        self.table_mut(id).rename(cols, names);
    }

    /// Puts a table in the place of the one that a live Id has, under all its names.
    pub fn put_table(&mut self, id: Id, table: Table)
        requires { IsAt self.old id }
        ensures state { state_of self.new
            ≡ model.with_table (state_of self.old) id.number (plain table) }
        ensures place { IsTableAt self.new id table }
        ensures live { StaysLive self.old self.new }
        ensures room { self.new.room ≡ self.old.room }
    {
        *self.table_mut(id) = table;
    }

    /// Gives the table of a live Id this key, leaves its rows as they stand, and drops its indices.
    /// The key's columns are distinct and in range, and no row stands above the next one over them.
    /// It takes no memory, and touches nothing.
    pub fn set_key(&mut self, id: Id, key: Vec<usize>)
        requires at { IsAt self.old id }
        requires fits { KeyedAt self.old id key.items }
        ensures state { ChangesAt self.old id (plain_rekeyed key.items) (state_of self.new) }
        ensures live { StaysLive self.old self.new }
        ensures room { self.new.room ≡ self.old.room }
    {
        let table = self.table_mut(id);
        table.record_key(key);
        table.drop_indices();
    }

    /// Forgets the key of the table of a live Id, and leaves its rows as they stand. It takes no
    /// memory, and touches nothing.
    pub fn drop_key(&mut self, id: Id)
        requires at { IsAt self.old id }
        ensures state { ChangesAt self.old id (plain_keyed []) (state_of self.new) }
        ensures live { StaysLive self.old self.new }
        ensures room { self.new.room ≡ self.old.room }
    {
        self.table_mut(id).drop_key();
    }

    /// Drops all indices of the table of a live Id. It takes no memory, and touches nothing.
    pub fn drop_indices(&mut self, id: Id)
        requires at { IsAt self.old id }
        ensures state { ChangesAt self.old id plain_unindexed (state_of self.new) }
        ensures live { StaysLive self.old self.new }
        ensures room { self.new.room ≡ self.old.room }
    {
        self.table_mut(id).drop_indices();
    }
}
