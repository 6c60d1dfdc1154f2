ghost use Rattle.std.specs.Prelude.{◌≡◌, ◌∷◌, [], IfOk, true};
ghost use Rattle.std.specs.Bool.{MatchBool};
ghost use Rattle.csv.specs.Reading.{records, default_config, strip_bom};
ghost use Rattle.csv.specs.Records.{fields_of};
ghost use Rattle.csv_edge.specs.Left.{left, IsOpen};

use csv::{ByteRecord, Reader, ReaderBuilder};
use std::alloc::{AllocError, Global};

/// A reader of all records of a text, of whatever lengths, with csv's defaults. The byte order mark
/// at the head of the text is no part of the first record.
pub(crate) fn open(alloc: Global, text: &[u8]) -> Reader<&[u8]>
    ensures open { IsOpen result }
    ensures records { left result ≡ records default_config (strip_bom text.now) }
{
    ReaderBuilder::new()
        .has_headers(false)
        .flexible(true)
        .from_reader(alloc, text)
}

/// Takes the next record into `row`, and tells whether there was one.
pub(crate) fn next_record(
    reader: &mut Reader<&[u8]>,
    row: &mut ByteRecord,
) -> Result<bool, AllocError>
    requires { IsOpen reader.old }
    ensures open { IfOk result (λ found. found ≡ true → IsOpen reader.new) }
    ensures record { IfOk result
        (λ found. MatchBool found (left reader.old ≡ fields_of row.new ∷ left reader.new)
        (left reader.old ≡ [])) }
{
    match reader.read_byte_record(row) {
        Ok(found) => Ok(found),
        Err(_) => Err(AllocError),
    }
}
