ghost use Rattle.std.specs.Prelude.{◌≡◌, ◌≤◌, length};
ghost use Rattle.dt_base.specs.declared.limits.TheConstants.{MAX_ROWS};
ghost use Rattle.dt_model.specs.State.{with_table};
ghost use Rattle.dt_table.specs.Plain.{plain};
ghost use Rattle.table_heap.specs.Seen.{IsAt};
ghost use Rattle.table_heap.specs.State.{state_of};

use dt_base::Text;
use dt_table::Table;
use na_vector::{Column, Frame};
use std::alloc::{AllocError, Global};
use std::process::Abort;
use std::test::Fail;
use table_heap::{Heap, Id, Look};

/// The table of one column with these integers.
fn table_of(alloc: Global, words: &[i64]) -> Result<Table, Fail>
    requires { length words.now ≤ MAX_ROWS }
{
    let mut frame = Frame::new(alloc);
    frame.push_col(Column::from_ints(Vec::from_slice(alloc, words)?))?;
    let names = vec![in alloc; Text::make(alloc, "v")?].map_err(AllocError::from)?;
    match Table::make(alloc, names, frame) {
        Ok(table) => Ok(table),
        Err(_) => Err(Fail::from("a table was refused")),
    }
}

/// Binds the name to a new table with these integers.
fn bind(heap: &mut Heap, alloc: Global, name: &str, words: &[i64]) -> Result<Id, Fail>
    requires { length words.now ≤ MAX_ROWS }
{
    let name = Text::make(alloc, name)?;
    let table = table_of(alloc, words)?;
    heap.reserve()?;
    Ok(heap.bind_new(name, table))
}

/// Gives the table of `from` the name `to`.
fn alias(heap: &mut Heap, alloc: Global, to: &str, from: &str) -> Result<bool, AllocError> {
    let to = Text::make(alloc, to)?;
    heap.reserve()?;
    Ok(heap.alias(to, from).is_ok())
}

/// Binds the name to a vector of no cells.
fn bind_empty(heap: &mut Heap, alloc: Global, name: &str) -> Result<(), AllocError> {
    let name = Text::make(alloc, name)?;
    heap.reserve()?;
    heap.bind_vector(name, Column::from_ints(Vec::new(alloc)));
    Ok(())
}

/// The Id at a name.
fn id_at(heap: &Heap, name: &str) -> Option<Id> {
    match heap.look(name) {
        Look::Table(id) => Some(id),
        Look::Absent | Look::Vector(_) => None,
    }
}

/// The number of rows of the table at a name.
fn rows_at(heap: &Heap, name: &str) -> Option<usize> {
    match heap.look(name) {
        Look::Table(id) => Some(heap.table(id).frame().rows()),
        Look::Absent | Look::Vector(_) => None,
    }
}

/// Writes another table in the place of one.
fn put(heap: &mut Heap, id: Id, table: Table)
    requires { IsAt heap.old id }
    ensures { state_of heap.new ≡ with_table (state_of heap.old) id.number (plain table) }
{
    *heap.table_mut(id) = table;
}

/// Writes another table in the place of the one at a name.
fn put_at(heap: &mut Heap, name: &str, table: Table) {
    if let Look::Table(id) = heap.look(name) {
        put(heap, id, table);
    }
}

fn sharing<R: Abort>(rt: &R, alloc: Global) -> Result<(), Fail> {
    let mut heap = Heap::new(alloc);
    bind(&mut heap, alloc, "a", &[1])?;
    assert!(rt; alias(&mut heap, alloc, "b", "a")?);
    bind(&mut heap, alloc, "c", &[1])?;
    assert!(rt; id_at(&heap, "a") == id_at(&heap, "b"));
    assert!(rt; id_at(&heap, "a") != id_at(&heap, "c"));
    assert_eq!(rt; heap.live(), 2);
    put_at(&mut heap, "b", table_of(alloc, &[1, 2, 3])?);
    assert_eq!(rt; rows_at(&heap, "a"), Some(3));
    assert_eq!(rt; rows_at(&heap, "c"), Some(1));
    Ok(())
}

fn removing<R: Abort>(rt: &R, alloc: Global) -> Result<(), Fail> {
    let mut heap = Heap::new(alloc);
    bind(&mut heap, alloc, "a", &[1])?;
    assert!(rt; alias(&mut heap, alloc, "b", "a")?);
    assert!(rt; heap.remove("a").is_ok());
    assert_eq!(rt; heap.live(), 1);
    assert_eq!(rt; rows_at(&heap, "b"), Some(1));
    assert!(rt; heap.remove("b").is_ok());
    assert_eq!(rt; heap.live(), 0);
    assert!(rt; heap.remove("b").is_err());
    Ok(())
}

fn rebinding<R: Abort>(rt: &R, alloc: Global) -> Result<(), Fail> {
    let mut heap = Heap::new(alloc);
    let first = bind(&mut heap, alloc, "a", &[1])?;
    let second = bind(&mut heap, alloc, "a", &[1, 2])?;
    assert!(rt; first != second);
    assert_eq!(rt; heap.live(), 1);
    assert_eq!(rt; rows_at(&heap, "a"), Some(2));
    bind_empty(&mut heap, alloc, "a")?;
    assert_eq!(rt; heap.live(), 0);
    let third = bind(&mut heap, alloc, "a", &[])?;
    assert!(rt; third != first && third != second);
    Ok(())
}

fn refusing<R: Abort>(rt: &R, alloc: Global) -> Result<(), Fail> {
    let mut heap = Heap::new(alloc);
    assert!(rt; !alias(&mut heap, alloc, "b", "a")?);
    bind_empty(&mut heap, alloc, "a")?;
    assert!(rt; !alias(&mut heap, alloc, "b", "a")?);
    assert!(rt; matches!(heap.look("a"), Look::Vector(_)));
    assert!(rt; matches!(heap.look("b"), Look::Absent));
    Ok(())
}

#[test]
fn names_of_one_table(rt: HostRuntime) -> Result<(), Fail> {
    sharing(&rt, rt.alloc())
}

#[test]
fn last_names(rt: HostRuntime) -> Result<(), Fail> {
    removing(&rt, rt.alloc())
}

#[test]
fn places_used_again(rt: HostRuntime) -> Result<(), Fail> {
    rebinding(&rt, rt.alloc())
}

#[test]
fn no_table_to_share(rt: HostRuntime) -> Result<(), Fail> {
    refusing(&rt, rt.alloc())
}
