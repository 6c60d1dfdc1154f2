//! The places for tables. Nothing here takes memory.
ghost use Rattle.std.specs.Prelude.{◌≡◌, ◌≤◌, ◌+◌, ◌-◌, ◌<◌, Some, None, slice_set};
ghost use Rattle.std.specs.FinMap as finite;
ghost use Rattle.slab.specs.Slab.{HasRoomFor, slab_len};
ghost use Rattle.table_heap.specs.Names.{bounds_of};
ghost use Rattle.table_heap.specs.Seen.{slot_at};
ghost use Rattle.dt_table.specs.Table.{IsTable};
ghost use Rattle.table_heap.specs.Sweep.{SetsSlot, swept_slots};
ghost use Rattle.table_heap.specs.Tables.{HoldTables};

use crate::bound::{Bound, Id, Numbered};
use crate::names::{Names, has_name};
use dt_table::Table;
use slab::Slab;

pub(crate) type Tables = Slab<Numbered>;

/// Puts a table with its number at an empty place.
pub(crate) fn put_table(tables: &mut Tables, number: u64, table: Table) -> Id
    requires { HasRoomFor tables.old 1 }
    ensures number { result.number ≡ number }
    ensures empty { slot_at tables.old.slots result.slot ≡ None }
    ensures slots { SetsSlot tables.old.slots tables.new.slots result.slot
        (Some (record { number = number; table = table })) }
    ensures len { slab_len tables.new ≡ slab_len tables.old + 1 }
    ensures capacity { tables.new.capacity ≡ tables.old.capacity }
{
    let slot = tables.insert_reserved(Numbered { number, table });
    Id { slot, number }
}

/// Drops the table at a place, if there is one.
pub(crate) fn take_table(tables: &mut Tables, slot: usize)
    ensures slots { tables.new.slots ≡ slice_set tables.old.slots slot None }
    ensures len { slab_len tables.new ≤ slab_len tables.old }
    ensures capacity { tables.new.capacity ≡ tables.old.capacity }
{
    let _gone = tables.try_remove(slot);
}

/// Drops the table that a name was bound to, where that was its last name.
pub(crate) fn sweep(names: &Names, tables: &mut Tables, old: Option<Bound>)
    ensures slots { tables.new.slots
        ≡ swept_slots (bounds_of names.now.entries) tables.old.slots old }
    ensures len { slab_len tables.new ≤ slab_len tables.old }
    ensures capacity { tables.new.capacity ≡ tables.old.capacity }
{
    match old {
        Some(Bound::Table(id)) => {
            if !has_name(names, id.number) {
                take_table(tables, id.slot);
            }
        }
        Some(Bound::Vector(_)) | None => (),
    }
}

/// Each table at a place is sound, as each table is. It looks at every place.
pub(crate) fn hold_tables(tables: &Tables)
    ensures { HoldTables tables.now.slots }
{
    for slot in 0..tables.capacity() {
        look_at(tables, slot);
    }
}

/// The table at a place is sound, if there is one.
fn look_at(tables: &Tables, slot: usize)
    ensures { (x : Numbered) → slot_at tables.now.slots slot ≡ Some x → IsTable x.table }
{
    if let Some(place) = tables.get(slot) {
        let _slots = place.table.slots();
    }
}
