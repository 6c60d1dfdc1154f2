//! How wide the labels and the columns of a table are, over the rows that are shown.
ghost use Rattle.std.specs.Prelude.{◌≡◌, ◌+◌, ◌-◌, ◌*◌, ◌<◌, ◌≤◌, ◌^◌, OnOk, IfOk, map, length};
ghost use Rattle.std.specs.List.{range_with_len};
ghost use Rattle.run_model.specs.Printed as printed;
ghost use Rattle.run_model.specs.Printed.{greatest};
ghost use Rattle.dt_print.specs.Framed.{frame_heads, frame_rows};
ghost use Rattle.dt_print.specs.Lines.{first_count, last_start, shown_count, label_width_at};
ghost use Rattle.dt_print.specs.Lines.{cell_width_at, width_in};

use crate::page::Page;
use dt_base::{Steps, Text};
use na_vector::{Column, Frame};
use std::alloc::{AllocError, Global};
use std::sync::ledger::Ledger;

/// Up to so many rows are all shown.
const ALL_SHOWN: usize = 100;

/// Of more rows, so many first ones and as many last ones.
const SOME_SHOWN: usize = 5;

/// How many rows stand before the dashes.
pub fn first_shown(rows: usize) -> usize
    ensures count { result ≡ first_count rows }
    ensures within { result ≤ rows }
{
    if rows <= ALL_SHOWN { rows } else { SOME_SHOWN }
}

/// The place of the first row behind the dashes.
pub fn last_shown(rows: usize) -> usize
    ensures place { result ≡ last_start rows }
    ensures within { result ≤ rows }
{
    if rows <= ALL_SHOWN {
        rows
    } else {
        rows - SOME_SHOWN
    }
}

fn labels_width(page: &mut Page, from: usize, to: usize) -> Result<usize, AllocError>
    requires { from ≤ to }
    ensures width { IfOk result
        (λ w. w ≡ greatest (map label_width_at (range_with_len from (to - from)))) }
    ensures same { page.new.text.items ≡ page.old.text.items }
{
    let mut widest = 0usize;
    for place in from..to {
        widest = widest.max(page.label_width(place)?);
    }
    Ok(widest)
}

/// How wide the labels of so many rows are. The printed text stays.
pub fn label_width(page: &mut Page, rows: usize) -> Result<usize, AllocError>
    ensures width { IfOk result (λ w. w ≡ printed.label_width rows) }
    ensures same { page.new.text.items ≡ page.old.text.items }
{
    let first = labels_width(page, 0, first_shown(rows))?;
    let last = labels_width(page, last_shown(rows), rows)?;
    Ok(first.max(last))
}

fn cells_width<L: Ledger>(
    page: &mut Page,
    column: &Column,
    from: usize,
    to: usize,
    steps: &mut Steps<L>,
) -> Result<usize, AllocError>
    requires order { from ≤ to }
    requires within { to ≤ length column.now.vector.cells }
    ensures width { IfOk result
        (λ w. w ≡ greatest (map (cell_width_at column.now.vector)
        (range_with_len from (to - from)))) }
    ensures same { page.new.text.items ≡ page.old.text.items }
    ensures touches { OnOk result (steps.new ≡ steps.old + (to - from)) }
{
    let mut widest = 0usize;
    for place in from..to {
        let cell = column.cell(place, steps);
        widest = widest.max(page.cell_width(column.kind(), cell)?);
    }
    Ok(widest)
}

fn column_width<L: Ledger>(
    page: &mut Page,
    name: &Text,
    column: &Column,
    steps: &mut Steps<L>,
) -> Result<usize, AllocError>
    ensures width { IfOk result (λ w. w ≡ width_in name.now column.now.vector) }
    ensures same { page.new.text.items ≡ page.old.text.items }
    ensures touches { OnOk result
        (steps.new ≡ steps.old + shown_count (length column.now.vector.cells)) }
{
    let rows = column.len();
    let of_name = page.name_width(name.as_str())?;
    let first = cells_width(page, column, 0, first_shown(rows), steps)?;
    let last = cells_width(page, column, last_shown(rows), rows, steps)?;
    Ok(of_name.max(first.max(last)))
}

/// How wide each column is. The printed text stays.
pub fn column_widths<L: Ledger>(
    alloc: Global,
    page: &mut Page,
    names: &[Text],
    frame: &Frame,
    steps: &mut Steps<L>,
) -> Result<Vec<usize>, AllocError>
    requires { length names.now ≡ length frame.now.columns }
    ensures widths { IfOk result
        (λ v. v.items ≡ map (printed.column_width (frame_heads names.now frame.now.columns)
        (frame_rows frame.now)) (range_with_len 0 (length frame.now.columns))) }
    ensures same { page.new.text.items ≡ page.old.text.items }
    ensures touches { OnOk result
        (steps.new ≡ steps.old + length frame.now.columns * shown_count frame.now.rows) }
{
    let mut widths = Vec::new(alloc);
    for c in 0..frame.width() {
        widths.push(column_width(page, &names[c], frame.col(c), steps)?)?;
    }
    Ok(widths)
}
