//! The lines of a table.
ghost use Rattle.std.specs.Prelude.{◌≡◌, ◌+◌, ◌-◌, ◌*◌, ◌<◌, ◌≤◌, ◌^◌, ◌++◌, OnOk, length};
ghost use Rattle.std.specs.Prelude.{replicate, codes};
ghost use Rattle.std.specs.List.{flat_map, range_with_len};
ghost use Rattle.dt_print.specs.Lines.{names_part, cells_part, frame_line, dashes, first_count};

use crate::page::{Page, push_blanks};
use crate::widths::first_shown;
use dt_base::{Steps, Text};
use na_vector::Frame;
use std::alloc::AllocError;
use std::sync::ledger::Ledger;

/// How wide the labels and each column are.
#[derive(Drop)]
pub struct Layout {
    pub label: usize,
    pub columns: Vec<usize>,
}

fn push_names(page: &mut Page, names: &[Text], widths: &[usize]) -> Result<(), AllocError>
    requires { length widths.now ≡ length names.now }
    ensures { OnOk result (page.new.text.items ≡ page.old.text.items
        ++ names_part widths.now names.now (length names.now)) }
{
    for (c, name) in names.iter().enumerate() {
        page.push_name(name.as_str(), widths[c])?;
    }
    Ok(())
}

/// Adds the header.
pub fn push_header(page: &mut Page, names: &[Text], layout: &Layout) -> Result<(), AllocError>
    requires { length layout.now.columns.items ≡ length names.now }
    ensures { OnOk result (page.new.text.items ≡ page.old.text.items
        ++ (replicate layout.now.label 32
        ++ names_part layout.now.columns.items names.now (length names.now) ++ codes "\n")) }
{
    push_blanks(&mut page.text, layout.label)?;
    push_names(page, names, &layout.columns)?;
    page.text.push(b'\n')?;
    Ok(())
}

fn push_cells<L: Ledger>(
    page: &mut Page,
    frame: &Frame,
    widths: &[usize],
    place: usize,
    steps: &mut Steps<L>,
) -> Result<(), AllocError>
    requires widths { length widths.now ≡ length frame.now.columns }
    requires place { place < frame.now.rows }
    ensures text { OnOk result
        (page.new.text.items ≡ page.old.text.items
        ++ cells_part widths.now frame.now.columns place (length frame.now.columns)) }
    ensures touches { OnOk result (steps.new ≡ steps.old + length frame.now.columns) }
{
    for (c, width) in widths.iter().enumerate() {
        let column = frame.col(c);
        let cell = column.cell(place, steps);
        page.push_cell(column.kind(), cell, *width)?;
    }
    Ok(())
}

fn push_row<L: Ledger>(
    page: &mut Page,
    frame: &Frame,
    layout: &Layout,
    place: usize,
    steps: &mut Steps<L>,
) -> Result<(), AllocError>
    requires widths { length layout.now.columns.items ≡ length frame.now.columns }
    requires place { place < frame.now.rows }
    requires number { place + 1 < 2 ^ 64 }
    ensures text { OnOk result
        (page.new.text.items ≡ page.old.text.items
        ++ frame_line layout.now.label layout.now.columns.items frame.now.columns place) }
    ensures touches { OnOk result (steps.new ≡ steps.old + length frame.now.columns) }
{
    page.push_label(place, layout.label)?;
    push_cells(page, frame, &layout.columns, place, steps)?;
    page.text.push(b'\n')?;
    Ok(())
}

/// Adds the lines of the rows from one place up to another.
pub fn push_rows<L: Ledger>(
    page: &mut Page,
    frame: &Frame,
    layout: &Layout,
    from: usize,
    to: usize,
    steps: &mut Steps<L>,
) -> Result<(), AllocError>
    requires widths { length layout.now.columns.items ≡ length frame.now.columns }
    requires order { from ≤ to }
    requires within { to ≤ frame.now.rows }
    ensures text { OnOk result
        (page.new.text.items ≡ page.old.text.items
        ++ flat_map (frame_line layout.now.label layout.now.columns.items frame.now.columns)
        (range_with_len from (to - from))) }
    ensures touches { OnOk result (steps.new ≡ steps.old + (to - from) * length frame.now.columns) }
{
    for place in from..to {
        push_row(page, frame, layout, place, steps)?;
    }
    Ok(())
}

/// Adds the line of dashes, where not all of so many rows are shown.
pub fn push_dashes(page: &mut Page, rows: usize) -> Result<(), AllocError>
    ensures { OnOk result (page.new.text.items ≡ page.old.text.items ++ dashes rows) }
{
    if first_shown(rows) < rows {
        page.text.extend_from_slice(b"---\n")?;
    }
    Ok(())
}
