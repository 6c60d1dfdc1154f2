ghost use Rattle.std.specs.Prelude.{◌≡◌, ◌*◌, ◌≤◌, IfOk, length};
ghost use Rattle.csv.specs.Records.{fields_of};
ghost use Rattle.dt_base.specs.declared.limits.TheConstants.{MAX_ROWS, MAX_CELLS, MAX_COLUMNS};
ghost use Rattle.dt_table.specs.Plain.{plain};
ghost use Rattle.dt_table.specs.Table.{made};
ghost use Rattle.dt_model.specs.Table.{no_table};
ghost use Rattle.run_model.specs.CsvNames as file;

use csv::StringRecord;
use dt_base::Warns;
use dt_table::{MakeFail, Table};
use header_names::{column_names, name_warns};
use na_vector::Frame;
use std::alloc::{AllocError, Global};

/// The table of a frame under the names that a header gives, with the warning where a name is not
/// its header.
pub(crate) fn named_table(
    alloc: Global,
    header: &StringRecord,
    frame: Frame,
) -> Result<(Table, Warns), AllocError>
    requires width { length frame.columns ≡ length (fields_of header.now) }
    requires columns { length (fields_of header.now) ≤ MAX_COLUMNS }
    requires rows { frame.rows ≤ MAX_ROWS }
    requires cells { frame.rows * length frame.columns ≤ MAX_CELLS }
    ensures table { IfOk result (λ p.
        p.0 ≡ made (file.column_names (fields_of header.now)) frame p.0.spare) }
    ensures warns { IfOk result (λ p. p.1 ≡ file.name_warns (fields_of header.now)) }
{
    let names = column_names(alloc, header)?;
    let warns = name_warns(&names, header);
    match Table::make(alloc, names, frame) {
        Ok(table) => Ok((table, warns)),
        Err(MakeFail::NoMemory(e)) => Err(e),
        Err(_) => unreachable!(),
    }
}

/// The table of a file without a record: it has no columns.
pub(crate) fn no_columns(alloc: Global) -> Result<Table, AllocError>
    ensures { IfOk result (λ table. plain table ≡ no_table) }
{
    match Table::make(alloc, Vec::new(alloc), Frame::new(alloc)) {
        Ok(table) => Ok(table),
        Err(MakeFail::NoMemory(e)) => Err(e),
        Err(_) => unreachable!(),
    }
}
