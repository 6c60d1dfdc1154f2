ghost use Rattle.std.specs.Prelude.{◌≡◌, None, true, false, IfOk, IfErr, MatchOption};
ghost use Rattle.std.specs.List.{list_all};
ghost use Rattle.std.specs.Str.{is_utf8};
ghost use Rattle.csv.specs.Records.{fields_of};
ghost use Rattle.csv_edge.specs.Faults.{Tells};
ghost use Rattle.run_model.specs.Csv.{header_fault};

use crate::CsvFail;
use csv::{ByteRecord, StringRecord};
use dt_base::limits::MAX_COLUMNS;

/// The header as texts, or its fault: too many columns, then bytes that are not UTF-8.
pub(crate) fn checked_header(raw: ByteRecord) -> Result<StringRecord, CsvFail>
    ensures fields { IfOk result (λ header. fields_of header ≡ fields_of raw) }
    ensures right { IfOk result (λ _. header_fault (fields_of raw) ≡ None) }
    ensures refused { IfErr result (λ e. Tells e (header_fault (fields_of raw))) }
{
    if raw.len() > MAX_COLUMNS {
        return Err(CsvFail::TooManyColumns);
    }
    texts(raw).ok_or(CsvFail::NotUtf8 { at: 1 })
}

/// The same record as texts, if each field is UTF-8.
fn texts(raw: ByteRecord) -> Option<StringRecord>
    ensures { MatchOption result (list_all is_utf8 (fields_of raw) ≡ false)
        (λ row. (fields_of row ≡ fields_of raw) × (list_all is_utf8 (fields_of raw) ≡ true)) }
{
    StringRecord::from_byte_record(raw).ok()
}
