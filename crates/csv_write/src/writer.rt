ghost use Rattle.std.specs.Prelude.{◌≡◌, ◌++◌, [], IfOk, OnOk};
ghost use Rattle.csv.specs.Records.{fields_of};
ghost use Rattle.csv.specs.Writing.{default_writer, row_text};
ghost use Rattle.csv_write.specs.Written.{written, IsIdle};

use csv::{ByteRecord, Writer, WriterBuilder};
use std::alloc::{AllocError, Global};

/// A writer into memory with csv's defaults.
pub(crate) fn new_writer(alloc: Global) -> Writer<Vec<u8>>
    ensures idle { IsIdle result }
    ensures empty { written result ≡ [] }
{
    WriterBuilder::new().from_writer(Vec::new(alloc))
}

/// Writes one record.
pub(crate) fn write_record(writer: &mut Writer<Vec<u8>>, row: &ByteRecord) -> Result<(), AllocError>
    requires { IsIdle writer.old }
    ensures idle { OnOk result (IsIdle writer.new) }
    ensures text { OnOk result
        (written writer.new ≡ written writer.old ++ row_text default_writer (fields_of row.now)) }
{
    match writer.write_byte_record(row) {
        Ok(()) => Ok(()),
        Err(_) => Err(AllocError),
    }
}

/// All bytes that were written.
pub(crate) fn into_text(writer: Writer<Vec<u8>>) -> Result<Vec<u8>, AllocError>
    requires { IsIdle writer }
    ensures { IfOk result (λ text. text.items ≡ written writer) }
{
    match writer.into_inner() {
        Ok(text) => Ok(text),
        Err(_) => Err(AllocError),
    }
}
