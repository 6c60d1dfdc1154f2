ghost use Rattle.std.specs.Prelude.{◌≡◌, ◌*◌, ◌<◌, ◌≤◌, ◌∷◌, Ok, None, IfOk, IfErr, length};
ghost use Rattle.csv.specs.Records.{fields_of};
ghost use Rattle.csv_edge.specs.Columns.{below};
ghost use Rattle.csv_edge.specs.Faults.{Refuses};
ghost use Rattle.csv_edge.specs.Left.{left, IsOpen};
ghost use Rattle.dt_base.specs.declared.limits.TheConstants.{MAX_FILE_BYTES, MAX_CELLS};
ghost use Rattle.dt_table.specs.Plain.{plain};
ghost use Rattle.run_model.specs.Csv as file;

use crate::CsvFail;
use crate::check::checked_header;
use crate::columns::gather_columns;
use crate::frame::frame_of;
use crate::records::{next_record, open};
use crate::table::{named_table, no_columns};
use csv::{ByteRecord, Reader};
use dt_base::{Steps, Warns};
use dt_table::Table;
use std::alloc::Global;
use std::sync::ledger::Ledger;

/// The table of a CSV file of at most 67,108,864 bytes, with its warnings.
///
/// A byte order mark at the head is dropped, once. The first record is the header, and gives the
/// columns their names; a file without a record gives a table without columns. The type of a column
/// depends on all its fields. A name that is not its header is told by W06.
///
/// The first record at fault decides, in their order: a header of more than 4,096 fields; one row
/// more than 16,777,216; a record with another number of fields than the header; a field that is
/// not UTF-8. Within a record they are looked at in this order. Records count from 1 with the
/// header.
///
/// It touches no cell. Its time is linear in the bytes. Its memory is the table's, and while a
/// record is read its bytes and at most 24 for each of its fields.
///
/// dtq's own rule, docs/LANGUAGE.md, section "CSV files".
pub fn read_table<L: Ledger>(
    alloc: Global,
    bytes: &[u8],
    _steps: &mut Steps<L>,
) -> Result<(Table, Warns), CsvFail>
    requires { length bytes.now ≤ MAX_FILE_BYTES }
    ensures table { IfOk result (λ p. file.read_csv bytes.now ≡ Ok (plain p.0, p.1)) }
    ensures refused { IfErr result (λ e. Refuses e (file.read_csv bytes.now)) }
    ensures touches { _steps.new ≡ _steps.old }
{
    let mut reader = open(alloc, bytes);
    let mut header = ByteRecord::new(alloc);
    if next_record(&mut reader, &mut header)? {
        read_below(alloc, bytes, &mut reader, header)
    } else {
        Ok((no_columns(alloc)?, Warns::none()))
    }
}

/// The table of a header and the records that are left below it, which are those of the bytes.
fn read_below(
    alloc: Global,
    bytes: &[u8],
    reader: &mut Reader<&[u8]>,
    header: ByteRecord,
) -> Result<(Table, Warns), CsvFail>
    requires open { IsOpen reader.old }
    requires below { left reader.old ≡ below bytes.now }
    requires some { 0 < length (fields_of header) }
    requires cells { file.rows_fault (length (fields_of header)) 0 (below bytes.now) ≡ None
        → length (below bytes.now) * length (fields_of header) ≤ MAX_CELLS }
    ensures table { IfOk result
        (λ p. file.read_records (fields_of header ∷ below bytes.now) ≡ Ok (plain p.0, p.1)) }
    ensures refused { IfErr result
        (λ e. Refuses e (file.read_records (fields_of header ∷ below bytes.now))) }
{
    let header = checked_header(header)?;
    let columns = gather_columns(alloc, bytes, reader, header.len())?;
    let frame = frame_of(alloc, columns)?;
    Ok(named_table(alloc, &header, frame)?)
}
