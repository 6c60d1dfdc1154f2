ghost use Rattle.std.specs.Prelude.{◌≡◌, IfOk, IfErr, Err, All};
ghost use Rattle.assign_model.specs.Assign.{assigned};
ghost use Rattle.assign_model.specs.Targets.{names_of};
ghost use Rattle.assign_ref.specs.Seen.{rows_seen, targets_seen};
ghost use Rattle.assign_ref.specs.Values.{AreRows};
ghost use Rattle.assign_sides.specs.Answers.{IsTold};
ghost use Rattle.assign_sides.specs.Seen.{assigned_seen, values_seen};
ghost use Rattle.dt_table.specs.Change.{FitsTable, part_names};
ghost use Rattle.dt_table.specs.Plain.{plain};
ghost use Rattle.dt_table.specs.Table.{IsFilled};
ghost use Rattle.eval_fail.specs.Answers.{AnswersAs, IsOwn, IsStop};
ghost use Rattle.session_model.specs.Assigned.{assigned_by, told_assigned};

use crate::names::name_at;
use crate::targets::{named_targets, targets_of};
use crate::values::Values;
use assign_ref::{ChangeFail, Target, change_of};
use dt_base::{Code, ColName, Steps, Warns};
use dt_table::{Change, Table};
use eval_fail::{EvalFail, stop, stop_length, stop_number};
use std::alloc::Global;
use std::sync::ledger::Ledger;

/// The change of a table that an assignment is, and its warnings.
#[derive(Drop)]
pub struct Assigned {
    pub change: Change,
    pub warns: Warns,
}

/// How the fault of a target is told: with its column's name, or with numbers.
fn told(alloc: Global, names: &[ColName], fail: ChangeFail) -> EvalFail
    ensures told { IsTold names.now fail result }
    ensures own { IsOwn result }
{
    match fail {
        ChangeFail::Duplicate { t } => stop(alloc, Code::E12, name_at(names, t)),
        ChangeFail::Unknown { t } => stop(alloc, Code::E03, name_at(names, t)),
        ChangeFail::Delete { t: _ } => stop(alloc, Code::E19, "NULL"),
        ChangeFail::Length { t: _, got, want } => stop_length(alloc, got as usize, want as usize),
        ChangeFail::Slots { slots } => stop_number(alloc, Code::E09, slots),
        ChangeFail::TooManyCells => stop(alloc, Code::E08, ""),
        ChangeFail::NoMemory(error) => EvalFail::NoMemory(error),
    }
}

/// The change that the targets make, or how their first fault is told.
fn changed<L: Ledger>(
    alloc: Global,
    t: &Table,
    rows: Option<&[u32]>,
    names: &[ColName],
    targets: Vec<Target>,
    steps: &mut Steps<L>,
) -> Result<Assigned, EvalFail>
    requires rows { AreRows t.now.frame.rows (rows_seen rows) }
    requires filled { All IsFilled (names_of (targets_seen targets.items)) }
    ensures answer { AnswersAs (assigned_seen t.now) (told_assigned names.now t.now.slots
        (assigned (plain t.now) (rows_seen rows.entry) (targets_seen targets.items))) result }
    ensures names { IfOk result (λ a. part_names t.now.names a.change.parts
        ≡ names_of (targets_seen targets.items)) }
    ensures fits { IfOk result (λ a. FitsTable t.now a.change) }
    ensures own { IfErr result IsOwn }
{
    let _ = t.names();
    match change_of(alloc, t, rows, targets, steps) {
        Ok((change, warns)) => Ok(Assigned { change, warns }),
        Err(fail) => Err(told(alloc, names, fail)),
    }
}

/// What an assignment makes of a table: the values, which are there already, for these names and
/// rows, counted from 0; without rows all of them.
///
/// The first fault counts: E19 with `j` for an empty name; E05 where there are other than as many
/// values as names; then, name by name, E12 for one that stood before, E03 for one that deletes and
/// is no column's, E19 with `NULL` for one that deletes where rows are given, E05 for a value whose
/// length is neither 1 nor the number of rows; then E09 for more columns than slots, and E08 for
/// too many cells. The change names the columns of these names, in their order. The table is only
/// read. The manual's page `:=`; docs/LANGUAGE.md, section
/// "Assignment".
pub fn assigned_by<L: Ledger>(
    alloc: Global,
    t: &Table,
    rows: Option<&[u32]>,
    names: &[ColName],
    values: Values,
    steps: &mut Steps<L>,
) -> Result<Assigned, EvalFail>
    requires { AreRows t.now.frame.rows (rows_seen rows) }
    ensures answer { AnswersAs (assigned_seen t.now)
        (assigned_by (plain t.now) (rows_seen rows.entry) names.now (values_seen values)) result }
    ensures names { IfOk result (λ a. part_names t.now.names a.change.parts ≡ names.now) }
    ensures fits { IfOk result (λ a. FitsTable t.now a.change) }
    ensures own { IfErr result IsOwn }
{
    named_targets(alloc, names)?;
    let targets = targets_of(alloc, names, values, steps)?;
    changed(alloc, t, rows, names, targets, steps)
}
