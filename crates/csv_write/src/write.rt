ghost use Rattle.std.specs.Prelude.{◌≡◌, ◌+◌, ◌*◌, ◌<◌, ◌++◌, ◌∷◌, [], IfOk, OnOk, OnErr, length};
ghost use Rattle.std.specs.Prelude.{map};
ghost use Rattle.std.specs.List.{concat, range_with_len};
ghost use Rattle.csv.specs.Records.{fields_of, partial_of};
ghost use Rattle.csv.specs.Writing.{default_writer, row_text};
ghost use Rattle.csv_write.specs.Written.{written, IsIdle};
ghost use Rattle.dt_base.specs.Cell.{seen};
ghost use Rattle.dt_model.specs.Table.{row_at, rows_of};
ghost use Rattle.dt_table.specs.Plain.{plain};
ghost use Rattle.na_vector.specs.Frame.{vectors_of};
ghost use Rattle.run_model.specs.Csv.{written_csv};
ghost use Rattle.run_model.specs.CsvCells as file;

use crate::writer::{into_text, new_writer, write_record};
use cell_text::truth_text;
use csv::{ByteRecord, Writer};
use dt_base::{CellRef, ColName, Steps};
use dt_table::Table;
use itoa::Buffer;
use na_vector::Frame;
use std::alloc::{AllocError, Global};
use std::sync::ledger::Ledger;

/// Writes the bytes of a table after what stands in `out`: a record of the names and one for each
/// row, as csv's default writer does. NA is an empty field, a truth value TRUE or FALSE, an integer
/// its decimal, and a text stands as it is, in quotes where it needs them. A table without columns
/// has no bytes.
///
/// Where memory lacks, `out` stays as it was. It touches each cell once.
///
/// dtq's own rule, docs/LANGUAGE.md, section "CSV files".
pub fn write_table<L: Ledger>(
    alloc: Global,
    t: &Table,
    out: &mut Vec<u8>,
    steps: &mut Steps<L>,
) -> Result<(), AllocError>
    ensures text { OnOk result (out.new.items ≡ out.old.items ++ written_csv (plain t.now)) }
    ensures kept { OnErr result (out.new.items ≡ out.old.items) }
    ensures touches { OnOk result
        (steps.new ≡ steps.old + t.now.frame.rows * length t.now.frame.columns) }
{
    if t.names().is_empty() {
        return Ok(());
    }
    let mut writer = new_writer(alloc);
    write_names(alloc, &mut writer, t.names())?;
    write_rows(alloc, &mut writer, t.frame(), steps)?;
    let text = into_text(writer)?;
    out.extend_from_slice(&text)
}

/// Writes the record of the names.
fn write_names(
    alloc: Global,
    writer: &mut Writer<Vec<u8>>,
    names: &[ColName],
) -> Result<(), AllocError>
    requires { IsIdle writer.old }
    ensures idle { OnOk result (IsIdle writer.new) }
    ensures text { OnOk result
        (written writer.new ≡ written writer.old ++ row_text default_writer names.now) }
{
    let mut row = ByteRecord::new(alloc);
    for name in names {
        row.push_field(name.as_str().as_bytes())?;
    }
    write_record(writer, &row)
}

/// Writes a record for each row. It touches each cell once.
fn write_rows<L: Ledger>(
    alloc: Global,
    writer: &mut Writer<Vec<u8>>,
    frame: &Frame,
    steps: &mut Steps<L>,
) -> Result<(), AllocError>
    requires { IsIdle writer.old }
    ensures idle { OnOk result (IsIdle writer.new) }
    ensures text { OnOk result
        (written writer.new ≡ written writer.old
        ++ concat (map (row_text default_writer)
        (map (map file.cell_text) (rows_of frame.now.rows (vectors_of frame.now.columns))))) }
    ensures touches { OnOk result
        (steps.new ≡ steps.old + frame.now.rows * length frame.now.columns) }
{
    let mut row = ByteRecord::new(alloc);
    for r in 0..frame.rows() {
        take_row(frame, r, &mut row, steps)?;
        write_record(writer, &row)?;
    }
    Ok(())
}

/// Makes `row` the texts of one row, counted from 0. It touches each cell of the row once.
fn take_row<L: Ledger>(
    frame: &Frame,
    r: usize,
    row: &mut ByteRecord,
    steps: &mut Steps<L>,
) -> Result<(), AllocError>
    requires { r < frame.now.rows }
    ensures cells { OnOk result
        (fields_of row.new ≡ map file.cell_text (row_at (vectors_of frame.now.columns) r)) }
    ensures touches { OnOk result (steps.new ≡ steps.old + length frame.now.columns) }
{
    row.clear();
    for c in 0..frame.width() {
        push_cell(row, frame.col(c).cell(r, steps))?;
    }
    Ok(())
}

/// Adds the text of a cell as a field.
fn push_cell(row: &mut ByteRecord, cell: CellRef<'_>) -> Result<(), AllocError>
    requires { partial_of row.old ≡ [] }
    ensures fields { OnOk result
        (fields_of row.new ≡ fields_of row.old ++ file.cell_text (seen cell.entry) ∷ []) }
    ensures partial { OnOk result (partial_of row.new ≡ []) }
{
    match cell {
        CellRef::Na => row.push_field(b""),
        CellRef::Lgl(b) => row.push_field(truth_text(b).as_bytes()),
        CellRef::Int(n) => row.push_field(Buffer::new().format(n).as_bytes()),
        CellRef::Text(t) => row.push_field(t.as_bytes()),
    }
}
