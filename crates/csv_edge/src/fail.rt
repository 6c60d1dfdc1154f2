ghost use Rattle.csv_edge.specs.declared.fail.CsvFail.TheVariants.{NoMemory};

use std::alloc::AllocError;

/// Why a file is not read, in the order in which a record is looked at. Records count from 1 with
/// the header.
#[derive(Drop)]
pub enum CsvFail {
    /// The record has another number of fields than the header.
    Ragged { at: u64 },
    /// A field of the record is not UTF-8.
    NotUtf8 { at: u64 },
    /// The header has more than 4,096 fields.
    TooManyColumns,
    /// More than 16,777,216 records stand below the header.
    TooManyRows,
    NoMemory(AllocError),
}

impl From<AllocError> for CsvFail {
    ghost use Rattle.std.specs.Prelude.{◌≡◌};

    ghost from_gives = { λ e fail. fail ≡ NoMemory e };

    fn from(e: AllocError) -> CsvFail {
        CsvFail::NoMemory(e)
    }
}
