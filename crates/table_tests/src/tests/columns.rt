ghost use Rattle.std.specs.Prelude.{◌≡◌, ◌<◌, All, IfOk, IsTrue, length};
ghost use Rattle.dt_model.specs.Vector.{IsWithin};

use dt_base::{Cell, CellRef, ColType, Steps, Text};
use na_vector::{Column, Frame};
use std::alloc::{AllocError, Global};
use std::marker::Brand;
use std::process::Abort;
use std::sync::ledger::{Blank, Ledger};
use std::test::Fail;

fn are_within(rows: &[Option<u32>], n: usize) -> bool
    ensures { IsTrue result → All (IsWithin n) rows.now }
{
    rows.iter().all(|row| match row {
        Some(p) => (*p as usize) < n,
        None => true,
    })
}

/// The integers `1`, NA and `-5`, cell by cell.
fn ints<L: Ledger, R: Abort>(rt: &R, alloc: Global, steps: &mut Steps<L>) -> Result<(), Fail> {
    let mut col = Column::new(alloc, ColType::Int);
    col.reserve(3)?;
    col.push(Cell::Int(1))?;
    col.push(Cell::Na)?;
    col.push(Cell::Int(-5))?;
    assert_eq!(rt; col.ints(steps), [1, i64::MIN, -5].as_slice());
    Ok(())
}

/// The logicals TRUE, NA and FALSE, by their words.
fn lgls<L: Ledger, R: Abort>(rt: &R, alloc: Global, steps: &mut Steps<L>) -> Result<(), Fail> {
    let col = Column::from_lgls(vec![in alloc; 1u8, 2, 0]?);
    assert!(rt; matches!(col.cell(0, steps), CellRef::Lgl(true)));
    assert!(rt; matches!(col.cell(1, steps), CellRef::Na));
    assert!(rt; matches!(col.cell(2, steps), CellRef::Lgl(false)));
    Ok(())
}

/// A text that is put over NA.
fn texts<L: Ledger, R: Abort>(rt: &R, alloc: Global, steps: &mut Steps<L>) -> Result<(), Fail> {
    let y = Text::make(alloc, "y")?;
    let mut col = Column::from_texts(vec![in alloc; None, None]?)?;
    col.reserve(1)?;
    col.put(1, Cell::Text(y), steps);
    assert!(rt; matches!(col.cell(0, steps), CellRef::Na));
    assert!(rt; matches!(col.cell(1, steps), CellRef::Text("y")));
    Ok(())
}

/// The columns `x`, NA and 1, NA.
fn two_columns(alloc: Global) -> Result<Frame, AllocError>
    ensures columns { IfOk result (λ f. length f.columns ≡ 2) }
    ensures rows { IfOk result (λ f. f.rows ≡ 2) }
{
    let x = Text::make(alloc, "x")?;
    let texts = Column::from_texts(vec![in alloc; Some(x), None]?)?;
    let mut frame = Frame::new(alloc);
    frame.push_col(texts)?;
    frame.push_col(Column::from_ints(vec![in alloc; 1i64, i64::MIN]?))?;
    Ok(frame)
}

/// The rows 2, none and 1 of them.
fn rows<L: Ledger, R: Abort>(rt: &R, alloc: Global, steps: &mut Steps<L>) -> Result<(), Fail> {
    let frame = two_columns(alloc)?;
    let rows = [Some(1), None, Some(0)];
    assert!(rt; are_within(&rows, frame.rows()));
    let picked = frame.copy(alloc, steps)?.gather(alloc, &rows, steps)?;
    assert!(rt; matches!(picked.col(0).cell(2, steps), CellRef::Text("x")));
    assert!(rt; matches!(picked.col(1).cell(1, steps), CellRef::Na));
    assert!(rt; matches!(picked.col(1).cell(2, steps), CellRef::Int(1)));
    Ok(())
}

fn all<L: Ledger, R: Abort>(rt: &R, alloc: Global, blank: Blank) -> Result<(), Fail>
    requires name { blank.name ≡ L.name }
    requires parts { blank.parts ≡ L.parts }
    requires some { 0 < blank.parts }
{
    let mut steps = Steps::<L>::new(blank);
    ints(rt, alloc, &mut steps)?;
    lgls(rt, alloc, &mut steps)?;
    texts(rt, alloc, &mut steps)?;
    rows(rt, alloc, &mut steps)
}

#[test]
fn columns_and_frames(rt: HostRuntime) -> Result<(), Fail> {
    all::<Brand, HostRuntime>(&rt, rt.alloc(), Blank::new(1))
}
