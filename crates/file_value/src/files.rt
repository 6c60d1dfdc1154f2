ghost use Rattle.std.specs.Prelude.{◌≤◌, IfOk, IfErr, IsSome, length};
ghost use Rattle.dt_base.specs.declared.fault.Code.TheVariants.{E16};
ghost use Rattle.session_model.specs.Value.{file_bytes, file_table, records_given};
ghost use Rattle.session_model.specs.World.{look};
ghost use Rattle.run_model.specs.Csv.{read_csv};
ghost use Rattle.file_value.specs.Answers.{Gives, IsStop};
ghost use Rattle.eval_fail.specs.Answers.{AnswersAs, IsOwn};
ghost use Rattle.file_value.specs.Fails.{IsFileStop};
ghost use Rattle.file_value.specs.Reads.{OnlyReads, files_seen};
ghost use Rattle.file_value.specs.Files.{file_given};

use crate::fail::{ValueFail, refusal, unread};
use csv_edge::{CsvFail, read_table};
use dt_base::limits::{MAX_COLUMNS, MAX_FILE_BYTES};
use dt_base::{Code, Fault, Steps, Text, Warns};
use dt_table::Table;
use dt_world::{Files, ReadFail};
use eval_fail::{EvalFail, stop, stop_number};
use std::alloc::Global;
use std::sync::ledger::Ledger;

/// The fault of a file that is longer than the limit.
fn too_long(alloc: Global, name: &str) -> ValueFail
    ensures { IsStop (record { code = E16; what = name.now; n = MAX_FILE_BYTES; m = 0 }) result }
{
    match Text::make(alloc, name) {
        Ok(what) => ValueFail::Stop(Fault {
            code: Code::E16,
            what,
            n: MAX_FILE_BYTES,
            m: 0,
        }),
        Err(error) => ValueFail::NoMemory(error),
    }
}

/// The bytes of a file, at most 67,108,864. An absent file is E15, and a longer one E16.
fn read_file<F: Files>(alloc: Global, files: &mut F, name: &str) -> Result<Vec<u8>, ValueFail>
    ensures told { IsSome (F.held files.old)
        → Gives (λ v. v.items)
        (file_bytes MAX_FILE_BYTES name.now (look (F.held files.old) name.now)) result }
    ensures short { IfOk result (λ v. length v.items ≤ MAX_FILE_BYTES) }
    ensures files { OnlyReads (files_seen F.held F.read_faults F.misses F.longs F.write_faults)
        files.old files.new result }
{
    match files.read(name, MAX_FILE_BYTES) {
        Ok(bytes) => Ok(bytes),
        Err(ReadFail::Absent) => Err(refusal(alloc, Code::E15, name)),
        Err(ReadFail::TooLong) => Err(too_long(alloc, name)),
        Err(ReadFail::Failed) => Err(ValueFail::ReadFault),
        Err(ReadFail::NoMemory(error)) => Err(ValueFail::NoMemory(error)),
    }
}

/// The fault of a file whose records are at fault.
fn record_stop(alloc: Global, fail: CsvFail) -> EvalFail
    ensures answer { IsFileStop fail result }
    ensures own { IsOwn result }
{
    match fail {
        CsvFail::Ragged { at } => stop_number(alloc, Code::E17, at),
        CsvFail::NotUtf8 { at } => stop_number(alloc, Code::E18, at),
        CsvFail::TooManyColumns => stop_number(alloc, Code::E09, MAX_COLUMNS as u64),
        CsvFail::TooManyRows => stop(alloc, Code::E07, ""),
        CsvFail::NoMemory(error) => EvalFail::NoMemory(error),
    }
}

/// The table of a file's bytes, with its warnings.
fn records<L: Ledger>(
    alloc: Global,
    bytes: &[u8],
    steps: &mut Steps<L>,
) -> Result<(Table, Warns), EvalFail>
    requires { length bytes.now ≤ MAX_FILE_BYTES }
    ensures answer { AnswersAs file_given (records_given (read_csv bytes.now)) result }
    ensures own { IfErr result IsOwn }
{
    match read_table(alloc, bytes, steps) {
        Ok(read) => Ok(read),
        Err(fail) => Err(record_stop(alloc, fail)),
    }
}

/// The table of a file, with its warnings.
///
/// E15 where there is no such file, E16 where it is longer than 67,108,864 bytes, and then the
/// first fault of its records. dtq's own rule, docs/LANGUAGE.md, section "CSV files".
pub fn file_table<F: Files, L: Ledger>(
    alloc: Global,
    files: &mut F,
    name: &str,
    steps: &mut Steps<L>,
) -> Result<(Table, Warns), ValueFail>
    ensures told { IsSome (F.held files.old)
        → Gives file_given (file_table (look (F.held files.old)) name.now) result }
    ensures files { OnlyReads (files_seen F.held F.read_faults F.misses F.longs F.write_faults)
        files.old files.new result }
{
    match read_file(alloc, files, name) {
        Ok(bytes) => unread(records(alloc, &bytes, steps)),
        Err(fail) => Err(fail),
    }
}
