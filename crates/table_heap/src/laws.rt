//! What follows of every heap, as functions that do nothing.
ghost use Rattle.table_heap.specs.Alike.{Alike};
ghost use Rattle.table_heap.specs.Changes.{SameHeaps};
ghost use Rattle.table_heap.specs.State.{state_of};
ghost use Rattle.table_heap.specs.Tables.{HasPlainTables, HoldTables};

use crate::Heap;

/// A heap and its state are alike: the same names, with equal vectors and with tables that read
/// the same; one Id exactly where the state has one number; and as many tables.
pub fn alike(heap: &Heap)
    ensures { Alike heap.now (state_of heap.now) }
{
    let _count = heap.live();
}

/// Each table of a heap's state is a plain table: a cell of its column's type, or NA, for each
/// column in each row; distinct names; all within the limits; and a true key.
pub fn plain_tables(heap: &Heap)
    ensures { HasPlainTables (state_of heap.now) }
{
    heap.hold_tables();
}

/// Each table of a heap is one: its key is true, and each of its indices has all rows in the order
/// of its columns.
pub fn true_tables(heap: &Heap)
    ensures { HoldTables heap.now.held.slots }
{
    heap.hold_tables();
}

/// Heaps that are the same but for spare numbers stand for one state, and one Id is live in both.
pub fn same_heaps()
    ensures { SameHeaps }
{}
