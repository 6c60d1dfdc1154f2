ghost use Rattle.std.specs.Prelude.{◌≡◌, ◌<◌, IfOk, length};

use dt_base::{CellRef, Steps, Text};
use dt_table::{MakeFail, Table};
use na_vector::{Column, Frame};
use std::alloc::{AllocError, Global};
use std::marker::Brand;
use std::process::Abort;
use std::sync::ledger::{Blank, Ledger};
use std::test::Fail;

/// The columns 1, 2 and 3, NA.
fn two_columns(alloc: Global) -> Result<Frame, AllocError>
    ensures columns { IfOk result (λ f. length f.columns ≡ 2) }
    ensures rows { IfOk result (λ f. f.rows ≡ 2) }
{
    let mut frame = Frame::new(alloc);
    frame.push_col(Column::from_ints(vec![in alloc; 1i64, 2]?))?;
    frame.push_col(Column::from_ints(vec![in alloc; 3i64, i64::MIN]?))?;
    Ok(frame)
}

/// The table of these columns and two names.
fn named(alloc: Global, first: &str, second: &str) -> Result<Table, MakeFail>
    requires first { 0 < length first.now }
    requires second { 0 < length second.now }
    ensures columns { IfOk result (λ t. length t.frame.columns ≡ 2) }
    ensures names { IfOk result (λ t. length t.names ≡ 2) }
    ensures rows { IfOk result (λ t. t.frame.rows ≡ 2) }
{
    let frame = two_columns(alloc)?;
    let first = Text::make(alloc, first)?;
    let second = Text::make(alloc, second)?;
    let names = vec![in alloc; first, second].map_err(AllocError::from)?;
    Table::make(alloc, names, frame)
}

fn making<L: Ledger, R: Abort>(rt: &R, alloc: Global, blank: Blank) -> Result<(), Fail>
    requires name { blank.name ≡ L.name }
    requires parts { blank.parts ≡ L.parts }
    requires some { 0 < blank.parts }
{
    let mut steps = Steps::<L>::new(blank);
    assert!(rt; matches!(named(alloc, "a", "a"), Err(MakeFail::Duplicate { col: 1 })));
    let Ok(first) = named(alloc, "a", "b") else {
        return Err(Fail::from("a table was refused"));
    };
    let table = first.copy(alloc, &mut steps)?;
    assert_eq!(rt; table.slots(), 1026);
    assert_eq!(rt; table.place("b"), Some(1));
    assert_eq!(rt; table.place("ab"), None);
    assert_eq!(rt; table.key().len() + table.index_count(), 0);
    assert!(rt; matches!(table.frame().col(1).cell(0, &mut steps), CellRef::Int(3)));
    assert!(rt; matches!(table.frame().col(1).cell(1, &mut steps), CellRef::Na));
    Ok(())
}

#[test]
fn tables(rt: HostRuntime) -> Result<(), Fail> {
    making::<Brand, HostRuntime>(&rt, rt.alloc(), Blank::new(1))
}
