ghost use Rattle.std.specs.Prelude.{◌≡◌, ◌<◌, ◌∷◌, ℕ, [], List, None, false, true, IfOk, OnOk};
ghost use Rattle.std.specs.Prelude.{IfErr, length, vec_len, slice_index_or};
ghost use Rattle.std.specs.List.{list_all};
ghost use Rattle.std.specs.Str.{is_utf8};
ghost use Rattle.csv.specs.Records.{fields_of};
ghost use Rattle.csv_edge.specs.Columns.{AllGain, Gathered, below};
ghost use Rattle.csv_edge.specs.Faults.{Tells};
ghost use Rattle.csv_edge.specs.Filling.{Gains};
ghost use Rattle.csv_edge.specs.Left.{left, IsOpen};
ghost use Rattle.csv_edge.specs.declared.filling.Filling.{Filling as Gathering};
ghost use Rattle.csv_edge.specs.declared.filling.Filling.TheVariants.{Missing};
ghost use Rattle.run_model.specs.Csv.{row_fault, rows_fault};

use crate::CsvFail;
use crate::filling::{Filling, is_late, take};
use crate::records::{next_record, open};
use csv::{ByteRecord, Reader};
use dt_base::limits::MAX_ROWS;
use std::alloc::{AllocError, Global};

/// The columns of all records that are left, so many as the header has fields, or the first fault
/// of these records, in their order. These are the records below the header of the bytes; where a
/// column turns out to be of texts behind its first field, they are read twice.
pub(crate) fn gather_columns(
    alloc: Global,
    bytes: &[u8],
    reader: &mut Reader<&[u8]>,
    width: usize,
) -> Result<Vec<Filling>, CsvFail>
    requires open { IsOpen reader.old }
    requires below { left reader.old ≡ below bytes.now }
    ensures right { OnOk result (rows_fault width 0 (below bytes.now) ≡ None) }
    ensures count { IfOk result (λ columns. length columns.items ≡ width) }
    ensures fields { IfOk result (λ columns. Gathered columns.items (below bytes.now)) }
    ensures refused { IfErr result (λ e. Tells e (rows_fault width 0 (below bytes.now))) }
{
    let mut columns = empty_columns(alloc, width)?;
    read_rows(alloc, reader, &mut columns, false)?;
    read_late(alloc, bytes, &mut columns)?;
    Ok(columns)
}

/// So many columns without fields.
fn empty_columns(alloc: Global, width: usize) -> Result<Vec<Filling>, AllocError>
    ensures count { IfOk result (λ columns. vec_len columns ≡ width) }
    ensures empty { IfOk result
        (λ columns. (c : ℕ) (d : Gathering) → c < width
        → slice_index_or columns.items c d ≡ Missing 0) }
{
    let mut columns = Vec::with_capacity(alloc, width)?;
    for _ in 0..width {
        columns.push(Filling::Missing(0))?;
    }
    Ok(columns)
}

/// Gives the fields of a record to the columns, one to each, and tells whether all of them are
/// UTF-8. Where one is not, the columns hold those before it.
fn push_row(
    alloc: Global,
    columns: &mut [Filling],
    row: &ByteRecord,
    again: bool,
) -> Result<bool, AllocError>
    requires { length (fields_of row.now) ≡ length columns.old }
    ensures text { IfOk result (λ all. all ≡ list_all is_utf8 (fields_of row.now)) }
    ensures fields { IfOk result
        (λ all. all ≡ true → AllGain again columns.old columns.new (fields_of row.now ∷ [])) }
{
    let mut c: usize = 0;
    while let Some(field) = row.get(c) {
        if !take(alloc, &mut columns[c], field, again)? {
            return Ok(false);
        }
        c += 1;
    }
    Ok(true)
}

/// Gives the fields of a record below the header to the columns, or tells its fault: one row too
/// many, then another number of fields than the header's, then bytes that are not UTF-8. So many
/// records below the header stand before it.
fn take_record(
    alloc: Global,
    columns: &mut [Filling],
    row: &ByteRecord,
    before: usize,
    again: bool,
) -> Result<(), CsvFail>
    ensures right { OnOk result (row_fault (length columns.old) before (fields_of row.now) ≡ None) }
    ensures room { OnOk result (before < MAX_ROWS) }
    ensures fields { OnOk result (AllGain again columns.old columns.new (fields_of row.now ∷ [])) }
    ensures refused { IfErr result
        (λ e. Tells e (row_fault (length columns.old) before (fields_of row.now))) }
{
    if before >= MAX_ROWS {
        return Err(CsvFail::TooManyRows);
    }
    let at = before as u64 + 2;
    if row.len() != columns.len() {
        return Err(CsvFail::Ragged { at });
    }
    if push_row(alloc, columns, row, again)? {
        Ok(())
    } else {
        Err(CsvFail::NotUtf8 { at })
    }
}

/// Gives the fields of all records that are left to the columns, or tells the first fault of these
/// records, in their order. After a refusal the columns hold some of the fields.
fn read_rows(
    alloc: Global,
    reader: &mut Reader<&[u8]>,
    columns: &mut [Filling],
    again: bool,
) -> Result<(), CsvFail>
    requires { IsOpen reader.old }
    ensures right { OnOk result (rows_fault (length columns.old) 0 (left reader.old) ≡ None) }
    ensures fields { OnOk result (AllGain again columns.old columns.new (left reader.old)) }
    ensures refused { IfErr result
        (λ e. Tells e (rows_fault (length columns.old) 0 (left reader.old))) }
{
    let mut row = ByteRecord::new(alloc);
    let mut before: usize = 0;
    while next_record(reader, &mut row)? {
        take_record(alloc, columns, &row, before, again)?;
        before += 1;
    }
    Ok(())
}

/// Reads the records below the header once more, if a column was told late.
fn read_late(alloc: Global, bytes: &[u8], columns: &mut [Filling]) -> Result<(), CsvFail>
    ensures fields { OnOk result (AllGain true columns.old columns.new (below bytes.now)) }
    ensures refused { IfErr result
        (λ e. Tells e (rows_fault (length columns.old) 0 (below bytes.now))) }
{
    if !has_late(columns) {
        return Ok(());
    }
    let mut reader = open(alloc, bytes);
    let mut header = ByteRecord::new(alloc);
    if next_record(&mut reader, &mut header)? {
        read_rows(alloc, &mut reader, columns, true)?;
    }
    Ok(())
}

/// Whether a column was told late. Where none was, the fields of a second reading change nothing.
fn has_late(columns: &[Filling]) -> bool
    ensures { result ≡ false → (c : ℕ) (d : Gathering) (fields : List (List ℕ))
        → c < length columns.now → Gains true (slice_index_or columns.now c d)
        (slice_index_or columns.now c d) fields }
{
    for c in 0..columns.len() {
        if is_late(&columns[c]) {
            return true;
        }
    }
    false
}
