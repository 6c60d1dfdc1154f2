//! Tables.
ghost use Rattle.std.specs.Prelude.{◌≡◌, ◌+◌, ◌*◌, ◌<◌, ◌++◌, ◌∷◌, OnOk, IfOk, length, map, codes};
ghost use Rattle.std.specs.Prelude.{decimal};
ghost use Rattle.std.specs.List.{flat_map, join_with_byte};
ghost use Rattle.run_model.specs.Printed.{name_text, null_table_text, filled_table_text};
ghost use Rattle.run_model.specs.Printed.{printed_table};
ghost use Rattle.dt_table.specs.Plain.{plain};
ghost use Rattle.dt_print.specs.Framed.{frame_heads, frame_rows};
ghost use Rattle.dt_print.specs.Lines.{shown_count, empty_text};

use crate::cells::push_name;
use crate::lines::{Layout, push_dashes, push_header, push_rows};
use crate::page::Page;
use crate::widths::{column_widths, first_shown, label_width, last_shown};
use dt_base::{Steps, Text};
use dt_table::Table;
use message_lines::push_number;
use na_vector::Frame;
use std::alloc::{AllocError, Global};
use std::sync::ledger::Ledger;

/// A table without columns.
fn null_table(alloc: Global) -> Result<Vec<u8>, AllocError>
    ensures { IfOk result (λ v. v.items ≡ null_table_text) }
{
    Vec::from_slice(alloc, b"Null data.table (0 rows and 0 cols)\n")
}

/// Adds names, each after a comma.
fn push_others(out: &mut Vec<u8>, names: &[Text]) -> Result<(), AllocError>
    ensures { OnOk result (out.new.items ≡ out.old.items
        ++ flat_map (λ n. 44 ∷ name_text n) names.now) }
{
    for name in names {
        out.push(b',')?;
        push_name(out, name.as_str())?;
    }
    Ok(())
}

/// Adds names with commas between them.
fn push_joined(out: &mut Vec<u8>, names: &[Text]) -> Result<(), AllocError>
    ensures { OnOk result (out.new.items ≡ out.old.items
        ++ join_with_byte 44 (map name_text names.now)) }
{
    let Some((first, others)) = names.split_first() else {
        return Ok(());
    };
    push_name(out, first.as_str())?;
    push_others(out, others)?;
    Ok(())
}

/// A table with columns and no rows.
fn empty_table(alloc: Global, names: &[Text]) -> Result<Vec<u8>, AllocError>
    ensures { IfOk result (λ v. v.items ≡ empty_text names.now) }
{
    let mut out = Vec::from_slice(alloc, b"Empty data.table (0 rows and ")?;
    push_number(&mut out, names.len() as u64)?;
    out.extend_from_slice(b" cols): ")?;
    push_joined(&mut out, names)?;
    out.push(b'\n')?;
    Ok(out)
}

/// A table with columns and rows.
fn filled_table<L: Ledger>(
    alloc: Global,
    names: &[Text],
    frame: &Frame,
    steps: &mut Steps<L>,
) -> Result<Vec<u8>, AllocError>
    requires { length names.now ≡ length frame.now.columns }
    ensures text { IfOk result
        (λ v. v.items ≡ filled_table_text (frame_heads names.now frame.now.columns)
        (frame_rows frame.now)) }
    ensures touches { OnOk result
        (steps.new ≡ steps.old + 2 * (length frame.now.columns * shown_count frame.now.rows)) }
{
    let rows = frame.rows();
    let mut page = Page::new(alloc);
    let layout = Layout {
        label: label_width(&mut page, rows)?,
        columns: column_widths(alloc, &mut page, names, frame, steps)?,
    };
    push_header(&mut page, names, &layout)?;
    push_rows(&mut page, frame, &layout, 0, first_shown(rows), steps)?;
    push_dashes(&mut page, rows)?;
    push_rows(&mut page, frame, &layout, last_shown(rows), rows, steps)?;
    Ok(page.into_text())
}

/// Columns with their names, printed as a table: a header, and a line for each row with its number.
///
/// Of more than a hundred rows, the first five and the last five are shown, with a line of dashes
/// between them. There are as many names as columns. Two touches for each shown cell: the time does
/// not grow with the rows that are not shown.
///
/// From data.table's way to print; the rules on what is shown are dtq's own, docs/LANGUAGE.md,
/// section Printing.
pub fn frame_text<L: Ledger>(
    alloc: Global,
    names: &[Text],
    frame: &Frame,
    steps: &mut Steps<L>,
) -> Result<Vec<u8>, AllocError>
    requires { length names.now ≡ length frame.now.columns }
    ensures text { IfOk result
        (λ v. v.items ≡ printed_table (frame_heads names.now frame.now.columns)
        (frame_rows frame.now)) }
    ensures touches { OnOk result
        (steps.new ≡ steps.old + 2 * (length frame.now.columns * shown_count frame.now.rows)) }
{
    if frame.width() == 0 {
        null_table(alloc)
    } else if frame.rows() == 0 {
        empty_table(alloc, names)
    } else {
        filled_table(alloc, names, frame, steps)
    }
}

/// A table, printed as `frame_text` prints its columns with their names. Its key and its indices
/// do not show.
pub fn table_text<L: Ledger>(
    alloc: Global,
    t: &Table,
    steps: &mut Steps<L>,
) -> Result<Vec<u8>, AllocError>
    ensures text { IfOk result
        (λ v. v.items ≡ printed_table (plain t.now).columns (plain t.now).rows) }
    ensures touches { OnOk result
        (steps.new ≡ steps.old + 2 * (length t.now.frame.columns * shown_count t.now.frame.rows)) }
{
    frame_text(alloc, t.names(), t.frame(), steps)
}
