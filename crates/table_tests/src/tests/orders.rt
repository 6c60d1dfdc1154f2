ghost use Rattle.std.specs.Prelude.{◌≡◌, ◌<◌, All, IsTrue, length};

use dt_base::{Steps, Text};
use na_vector::{Column, Frame};
use row_order::{SortCol, order};
use std::alloc::{AllocError, Global};
use std::marker::Brand;
use std::process::Abort;
use std::sync::ledger::{Blank, Ledger};
use std::test::Fail;

fn are_sorted_by(by: &[SortCol], width: usize) -> bool
    ensures { IsTrue result → All (λ s. s.col < width) by.now }
{
    by.iter().all(|s| s.col < width)
}

/// The integers 5 NA -2 NA 5, and the texts b a NA a B.
fn five<R: Abort>(rt: &R, alloc: Global) -> Result<Frame, Fail> {
    let mut texts = Vec::new(alloc);
    for word in "b a NA a B".split_whitespace() {
        texts.push(if word == "NA" {
            None
        } else {
            Some(Text::make(alloc, word)?)
        })?;
    }
    assert!(rt; texts.len() == 5);
    let mut frame = Frame::new(alloc);
    let words = vec![in alloc; 5i64, i64::MIN, -2, i64::MIN, 5]?;
    frame.push_col(Column::from_ints(words))?;
    frame.push_col(Column::from_texts(texts)?)?;
    Ok(frame)
}

/// The rows by the first column, falling with NA last, and then by the second, rising.
fn all<L: Ledger, R: Abort>(rt: &R, alloc: Global, blank: Blank) -> Result<(), Fail>
    requires name { blank.name ≡ L.name }
    requires parts { blank.parts ≡ L.parts }
    requires some { 0 < blank.parts }
{
    let mut steps = Steps::<L>::new(blank);
    let frame = five(rt, alloc)?;
    let falling = SortCol {
        col: 0,
        down: true,
        na_last: true,
    };
    let rising = SortCol {
        col: 1,
        down: false,
        na_last: false,
    };
    let by = vec![in alloc; falling, rising]?;
    assert!(rt; are_sorted_by(&by, frame.width()));
    let rows = order(alloc, &frame, &by, &mut steps)?;
    assert_eq!(rt; rows.as_slice(), [4, 0, 2, 1, 3].as_slice());
    Ok(())
}

#[test]
fn rows_in_order(rt: HostRuntime) -> Result<(), Fail> {
    all::<Brand, HostRuntime>(&rt, rt.alloc(), Blank::new(1))
}
