ghost use Rattle.std.specs.Prelude.{◌≡◌, ◌≤◌, ◌+◌, ◌<◌, OnOk, OnErr, Some, None};
ghost use Rattle.std.specs.Borrow.{sem};
ghost use Rattle.std.specs.FinMap as finite;
ghost use Rattle.indexmap.specs.IndexMap.{spare};
ghost use Rattle.slab.specs.Slab.{slab_len};
ghost use Rattle.dt_model.specs.State as model;
ghost use Rattle.dt_table.specs.Plain.{plain};
ghost use Rattle.dt_table.specs.Table.{TableSeen};
ghost use Rattle.table_heap.specs.Alias.{looked, IsLookAt, aliased, alias_answer, remove_answer};
ghost use Rattle.table_heap.specs.Heap.{IsHeap};
ghost use Rattle.table_heap.specs.Lending.{with_table_at, LendsTable};
ghost use Rattle.table_heap.specs.Names.{bounds_of};
ghost use Rattle.table_heap.specs.Seen.{IsAt, IsTableAt};
ghost use Rattle.table_heap.specs.State.{state_of};
ghost use Rattle.table_heap.specs.Sweep.{swept_slots};
ghost use Rattle.table_heap.specs.Tables.{HoldTables};

use crate::bound::{Bound, Id, Look, Numbered};
use crate::fails::{AliasFail, NotThere};
use crate::names::{Names, look_up, put_name, take_name};
use crate::tables::{Tables, hold_tables, put_table, sweep};
use dt_base::Text;
use dt_table::Table;
use indexmap::IndexMap;
use na_vector::Column;
use slab::Slab;
use std::alloc::{AllocError, Global};
use std::marker::Model;

/// Names, and the tables and vectors that they are bound to. A table may have many names.
///
/// Contracts see the names, the places of the tables, the next number and the room; `state_of`
/// reads them as a state, with each table under its number.
#[derive(Drop)]
pub struct Heap {
    names: Names,
    tables: Tables,
    next: u64,
}

impl Model for Heap {
    ghost use Rattle.std.specs.Prelude.{◌-◌};
    ghost use Rattle.indexmap.specs.IndexMap.{spare};
    ghost use Rattle.slab.specs.Slab.{slab_len};
    ghost use Rattle.table_heap.specs.Seen.{HeapSeen, heap_code, room_of};

    ghost Value = { HeapSeen };

    ghost coded = { heap_code };

    ghost use Rattle.table_heap.specs.Names.{bounds_of};
    ghost use Rattle.table_heap.specs.Heap.{IsHeap};

    ghost view = { λ h. record {
      held = record { bounds = bounds_of h.names.entries; slots = h.tables.slots; next = h.next };
      room = room_of (spare h.names) (h.tables.capacity - slab_len h.tables) h.next;
    } };

    ghost invariant = { λ h. IsHeap (record {
      bounds = bounds_of h.names.entries;
      slots = h.tables.slots;
      next = h.next;
    }) };
}

impl Heap {
    /// A heap without names.
    pub fn new(alloc: Global) -> Heap
        ensures { state_of result ≡ model.empty_state }
    {
        Heap {
            names: IndexMap::new(alloc),
            tables: Slab::new(alloc),
            next: 0,
        }
    }

    /// The number of tables. It also says what is so of every heap.
    #[tactic(auto, using(crate::proofs::Slots::count_tables, crate::proofs::Heaps::sound_state))]
    pub fn live(&self) -> usize
        ensures count { result ≡ finite.len (state_of self.now).tables }
        ensures heap { IsHeap self.now.held }
        ensures state { model.IsState (state_of self.now) }
    {
        self.tables.len()
    }

    /// Each table is sound, as each table is. It looks at every place.
    pub(crate) fn hold_tables(&self)
        ensures { HoldTables self.now.held.slots }
    {
        hold_tables(&self.tables);
    }

    /// What the name is bound to.
    pub fn look(&self, name: &str) -> Look<'_>
        ensures found { looked result ≡ finite.get (state_of self.now).names name.now }
        ensures live { IsLookAt self.now result }
    {
        match look_up(&self.names, name) {
            None => Look::Absent,
            Some(Bound::Table(id)) => Look::Table(*id),
            Some(Bound::Vector(column)) => Look::Vector(column),
        }
    }

    /// The table of a live Id.
    pub fn table(&self, id: Id) -> &Table
        requires { IsAt self.now id }
        ensures plain { finite.get (state_of self.now).tables id.number ≡ Some (plain result.now) }
        ensures place { IsTableAt self.now id result.now }
    {
        match self.tables.get(id.slot) {
            Some(place) => &place.table,
            None => unreachable!(),
        }
    }

    /// The table of a live Id, to be changed under all its names.
    pub fn table_mut(&mut self, id: Id) -> &mut Table
        requires { IsAt self.old id }
        ensures* writes_back { sem 𝓛 (LendsTable self.entry id result) }
        ensures place { IsTableAt self.old id result.now }
        ensures plain { (t : TableSeen) → state_of (with_table_at self.old id t)
            ≡ model.with_table (state_of self.old) id.number (plain t) }
    {
        match self.tables.get_mut(id.slot) {
            Some(place) => &mut place.table,
            None => unreachable!(),
        }
    }

    /// Makes room for one more name and one more table, so that the next binding takes no memory.
    /// Where no number is left, which is after 2^64 - 1 tables, it answers want of memory.
    pub fn reserve(&mut self) -> Result<(), AllocError>
        ensures room { OnOk result (1 ≤ self.new.room) }
        ensures same { self.new.held ≡ self.old.held }
        ensures kept { self.old.room ≤ self.new.room }
    {
        if self.next == u64::MAX {
            return Err(AllocError);
        }
        self.names.reserve(1)?;
        self.tables.reserve(1)
    }

    /// Binds the name to a new table, and gives its Id.
    pub fn bind_new(&mut self, name: Text, table: Table) -> Id
        requires { 1 ≤ self.old.room }
        ensures state { state_of self.new ≡ model.bound_new (state_of self.old) name (plain table) }
        ensures number { result.number ≡ self.old.held.next }
        ensures place { IsTableAt self.new result table }
        ensures room { self.old.room ≤ self.new.room + 1 }
    {
        let id = put_table(&mut self.tables, self.next, table);
        self.next += 1;
        let new = Bound::Table(id);
        rebind(&mut self.names, &mut self.tables, name, new);
        id
    }

    /// Binds the name to a vector.
    pub fn bind_vector(&mut self, name: Text, column: Column)
        requires { 1 ≤ self.old.room }
        ensures state { state_of self.new
            ≡ model.bound_to (state_of self.old) name (model.Vector column.vector) }
        ensures room { self.old.room ≤ self.new.room + 1 }
    {
        let vector = Bound::Vector(column);
        rebind(&mut self.names, &mut self.tables, name, vector);
    }

    /// Binds the name to a table that is live.
    pub fn bind_table(&mut self, name: Text, id: Id)
        requires room { 1 ≤ self.old.room }
        requires live { IsAt self.old id }
        ensures state { state_of self.new
            ≡ model.bound_to (state_of self.old) name (model.Table id.number) }
        ensures live { IsAt self.new id }
        ensures room { self.old.room ≤ self.new.room + 1 }
    {
        let shared = Bound::Table(id);
        rebind(&mut self.names, &mut self.tables, name, shared);
    }

    /// Gives the table of the name `from` the name `to` as well.
    pub fn alias(&mut self, to: Text, from: &str) -> Result<(), AliasFail>
        requires { 1 ≤ self.old.room }
        ensures state { state_of self.new
            ≡ aliased (state_of self.old) to (finite.get (state_of self.old).names from.now) }
        ensures answer { result ≡ alias_answer (finite.get (state_of self.old).names from.now) }
        ensures room { self.old.room ≤ self.new.room + 1 }
    {
        match self.look(from) {
            Look::Absent => Err(AliasFail::NotThere),
            Look::Vector(_) => Err(AliasFail::NotTable),
            Look::Table(id) => {
                self.bind_table(to, id);
                Ok(())
            }
        }
    }

    /// Removes the name. A name that is not bound is refused, and changes nothing.
    pub fn remove(&mut self, name: &str) -> Result<(), NotThere>
        ensures state { state_of self.new ≡ model.removed (state_of self.old) name.now }
        ensures answer { result ≡ remove_answer (finite.get (state_of self.old).names name.now) }
        ensures refused { OnErr result (state_of self.new ≡ state_of self.old) }
        ensures room { self.old.room ≤ self.new.room }
    {
        match take_name(&mut self.names, name) {
            None => Err(NotThere),
            Some(old) => {
                sweep(&self.names, &mut self.tables, Some(old));
                Ok(())
            }
        }
    }
}

/// Binds the name, and drops the table that loses its last name by that.
fn rebind(names: &mut Names, tables: &mut Tables, name: Text, to: Bound)
    requires { 0 < spare names.old }
    ensures names { bounds_of names.new.entries
        ≡ finite.insert (bounds_of names.old.entries) name to }
    ensures slots { tables.new.slots ≡ swept_slots (bounds_of names.new.entries)
        tables.old.slots (finite.get (bounds_of names.old.entries) name) }
    ensures spare { spare names.old ≤ spare names.new + 1 }
    ensures len { slab_len tables.new ≤ slab_len tables.old }
    ensures capacity { tables.new.capacity ≡ tables.old.capacity }
{
    let old = put_name(names, name, to);
    sweep(names, tables, old);
}
