ghost use Rattle.std.specs.Prelude.{◌≡◌, IfOk, IfErr, All, length};
ghost use Rattle.eval_fail.specs.Answers.{AnswersAs, IsStop, IsOwn};
ghost use Rattle.dt_base.specs.Fault.{fault};
ghost use Rattle.dt_base.specs.declared.fault.Code.TheVariants.{E12};
ghost use Rattle.dt_model.specs.Table.{name_at};
ghost use Rattle.bracket_columns.specs.Refusals.{IsMakeStop};
ghost use Rattle.dt_table.specs.Plain.{plain};
ghost use Rattle.dt_table.specs.Table.{IsFilled};
ghost use Rattle.na_vector.specs.Frame.{vectors_of};
ghost use Rattle.session_model.specs.Value.{new_table};

use dt_base::limits::MAX_COLUMNS;
use dt_base::{Code, ColName};
use dt_table::{MakeFail, Table};
use eval_fail::{EvalFail, stop, stop_number};
use na_vector::Frame;
use std::alloc::{AllocError, Global};

/// The same names once more.
fn copied_names(alloc: Global, names: &[ColName]) -> Result<Vec<ColName>, AllocError>
    ensures { IfOk result (λ v. v.items ≡ names.now) }
{
    let mut own = Vec::with_capacity(alloc, names.len())?;
    for name in names {
        own.push(name.copy()?)?;
    }
    Ok(own)
}

/// The fault of a name that stands twice, which is the one at this place.
fn repeated_name(alloc: Global, names: &[ColName], place: usize) -> EvalFail
    ensures answer { IsStop (fault E12 (name_at names.now place)) result }
    ensures own { IsOwn result }
{
    match names.get(place) {
        Some(name) => stop(alloc, Code::E12, name.as_str()),
        None => stop(alloc, Code::E12, ""),
    }
}

/// The fault of a table of these names that is refused so.
fn make_stop(alloc: Global, names: &[ColName], fail: MakeFail) -> EvalFail
    ensures answer { IsMakeStop names.now fail result }
    ensures own { IsOwn result }
{
    match fail {
        MakeFail::Duplicate { col } => repeated_name(alloc, names, col),
        MakeFail::TooManyRows => stop(alloc, Code::E07, ""),
        MakeFail::TooManyCells => stop(alloc, Code::E08, ""),
        MakeFail::TooManyColumns => stop_number(alloc, Code::E09, MAX_COLUMNS as u64),
        MakeFail::NoMemory(error) => EvalFail::NoMemory(error),
    }
}

/// The new table of these columns. There are as many names as columns, and none is empty.
///
/// A name that stands twice is E12 with it, more than 16,777,216 rows are E07, more than 67,108,864
/// cells E08, and more than 4,096 columns E09, the first of these. The names are copied, once each.
/// dtq's own rule, docs/LANGUAGE.md, section "Tables".
pub fn new_table(alloc: Global, names: &[ColName], frame: Frame) -> Result<Table, EvalFail>
    requires count { length names.now ≡ length frame.columns }
    requires filled { All IsFilled names.now }
    ensures answer { AnswersAs plain (new_table names.now frame.rows (vectors_of frame.columns))
        result }
    ensures own { IfErr result IsOwn }
{
    let own = copied_names(alloc, names)?;
    match Table::make(alloc, own, frame) {
        Ok(table) => Ok(table),
        Err(fail) => Err(make_stop(alloc, names, fail)),
    }
}
