ghost use Rattle.std.specs.Prelude.{◌≡◌, ◌<◌, ◌++◌, ◌∷◌, [], All, IfErr, IfOk, OnOk, Some, length};
ghost use Rattle.std.specs.Prelude.{map};
ghost use Rattle.std.specs.List.{IsDistinct};
ghost use Rattle.std.specs.Str.{bytes_eq};
ghost use Rattle.cmd_assign.specs.Renames.{checked_in, distinct, is_at, old_name_by, places_of};
ghost use Rattle.cmd_assign.specs.Renames.{rename_effect_of, renamed_answer, renames_in};
ghost use Rattle.cmd_assign.specs.Renames.{steps_done, IsNamed};
ghost use Rattle.dt_model.specs.Table.{first_repeated, place_of};
ghost use Rattle.dt_table.specs.Plain.{plain};
ghost use Rattle.dt_table.specs.Table.{renamed, IsFilled};
ghost use Rattle.eval_fail.specs.Answers.{Answers, AnswersAs, IsOwn};
ghost use Rattle.expr_model.specs.Surroundings.{outside};
ghost use Rattle.expr_scope.specs.Scope.{env_of, IsScope};
ghost use Rattle.session_model.specs.Found.{vars_of};
ghost use Rattle.session_model.specs.Meaning.{arg_meaning, meaning};
ghost use Rattle.session_model.specs.Set.{new_names, old_names, renames, same_length};
ghost use Rattle.session_model.specs.Set.{set_names_effect, set_names_sides, set_names_values};
ghost use Rattle.stmt_change.specs.Effects.{plain_effect, with_names, FitsIn, FitsRename};
ghost use Rattle.stmt_change.specs.Places.{table_at};
ghost use Rattle.table_argument.specs.Seen.{table_seen};
ghost use Rattle.table_heap.specs.Seen.{HeapSeen, IsAt};
ghost use Rattle.table_heap.specs.State.{state_of};
ghost use Rattle.valued.specs.Valued.{valued_of};

use crate::arguments::check_chr;
use crate::places::{add_name, text_cells};
use assign_sides::{check_filled, name_at};
use dt_base::{Code, ColName, Steps, Warns};
use dt_table::Table;
use dt_tree::{Arg, Expr};
use eval_fail::{EvalFail, stop, stop_length};
use expr_eval::{Scope, Vars, eval};
use func_table::{Formal, formal_word};
use na_vector::Frame;
use std::alloc::{AllocError, Global};
use std::collections::HashSet;
use std::sync::ledger::Ledger;
use stmt_change::{Change, Effect, TableChange};
use stmt_setting::{Setting, outside};
use table_argument::{named_table, needed, table_of};
use table_heap::{Heap, Id};
use valued::Valued;

/// As many new names as old ones; else E05 with both numbers.
fn check_length(alloc: Global, old: &[ColName], new: &[ColName]) -> Result<(), EvalFail>
    ensures answer { Answers (same_length old.now new.now) result }
    ensures each { OnOk result (length new.now ≡ length old.now) }
    ensures own { IfErr result IsOwn }
{
    if new.len() == old.len() {
        return Ok(());
    }
    Err(stop_length(alloc, new.len(), old.len()))
}

/// The least place whose name stands before it too. It takes memory for a set of the names, and its
/// time is linear in them.
fn repeated_name(alloc: Global, names: &[ColName]) -> Result<Option<usize>, AllocError>
    ensures { IfOk result (λ place. place ≡ first_repeated names.now) }
{
    let mut seen = HashSet::new(alloc);
    for (place, name) in names.iter().enumerate() {
        if !seen.insert(name.as_str())? {
            return Ok(Some(place));
        }
    }
    Ok(None)
}

/// No name stands twice; else E12 with the first that does.
fn check_distinct(alloc: Global, names: &[ColName]) -> Result<(), EvalFail>
    ensures answer { Answers (distinct names.now) result }
    ensures distinct { OnOk result (IsDistinct bytes_eq names.now) }
    ensures own { IfErr result IsOwn }
{
    match repeated_name(alloc, names)? {
        Some(place) => Err(stop(alloc, Code::E12, name_at(names, place))),
        None => Ok(()),
    }
}

/// The place of the column that an old name names. Where it stands before, E12 with it, and where
/// no column has it, E03 with it.
fn old_place(alloc: Global, table: &Table, name: &str, is_repeated: bool) -> Result<usize, EvalFail>
    ensures answer { AnswersAs (λ _. tt) (old_name_by table.now.names name.now is_repeated) result }
    ensures place { IfOk result (λ c. place_of name.now table.now.names ≡ Some c) }
    ensures own { IfErr result IsOwn }
{
    if is_repeated {
        return Err(stop(alloc, Code::E12, name));
    }
    match table.place(name) {
        Some(place) => Ok(place),
        None => Err(stop(alloc, Code::E03, name)),
    }
}

/// One more column.
fn add_place(places: &mut Vec<usize>, place: usize) -> Result<(), AllocError>
    ensures { OnOk result (places.new.items ≡ places.old.items ++ place ∷ []) }
{
    places.push(place)?;
    Ok(())
}

/// Whether the place, where there is one, is this.
fn is_at(place: Option<usize>, k: usize) -> bool
    ensures { result ≡ is_at place k }
{
    match place {
        Some(place) => place == k,
        None => false,
    }
}

/// The places of the columns that the old names name, in order, where this is the first of them
/// that stands twice.
fn places_until(
    alloc: Global,
    table: &Table,
    old: &[ColName],
    repeated: Option<usize>,
) -> Result<Vec<usize>, EvalFail>
    requires { repeated ≡ first_repeated old.now }
    ensures answer { AnswersAs (λ v. steps_done v.items)
        (old_names table.now.names old.now) result }
    ensures places { IfOk result (λ v. places_of table.now.names old.now ≡ map Some v.items) }
    ensures distinct { IfOk result (λ v. IsDistinct bytes_eq old.now) }
    ensures own { IfErr result IsOwn }
{
    let mut places = Vec::new(alloc);
    for k in 0..old.len() {
        let place = old_place(alloc, table, old[k].as_str(), is_at(repeated, k))?;
        add_place(&mut places, place)?;
    }
    Ok(places)
}

/// The places of the columns that the old names name, in order. The first old name that stands
/// before is E12, and the first that is no column's E03, whichever comes first.
fn old_places(alloc: Global, table: &Table, old: &[ColName]) -> Result<Vec<usize>, EvalFail>
    ensures answer { AnswersAs (λ v. steps_done v.items)
        (old_names table.now.names old.now) result }
    ensures places { IfOk result (λ v. places_of table.now.names old.now ≡ map Some v.items) }
    ensures distinct { IfOk result (λ v. IsDistinct bytes_eq old.now) }
    ensures own { IfErr result IsOwn }
{
    let repeated = repeated_name(alloc, old)?;
    places_until(alloc, table, old, repeated)
}

/// No new name is empty; else E19 with `new`.
fn check_new(alloc: Global, new: &[ColName]) -> Result<(), EvalFail>
    ensures answer { Answers (new_names new.now) result }
    ensures filled { OnOk result (All IsFilled new.now) }
    ensures own { IfErr result IsOwn }
{
    check_filled(alloc, new, formal_word(Formal::New))
}

/// The same names once more.
fn copied(alloc: Global, names: &[ColName]) -> Result<Vec<ColName>, AllocError>
    ensures { IfOk result (λ v. v.items ≡ names.now) }
{
    let mut copies = Vec::new(alloc);
    for name in names {
        let copy = name.copy()?;
        add_name(&mut copies, copy)?;
    }
    Ok(copies)
}

/// The names with these in the places of those columns.
fn put_names(all: Vec<ColName>, cols: &[usize], new: &[ColName]) -> Result<Vec<ColName>, AllocError>
    requires cols { All (λ c. c < length all.items) cols.now }
    requires each { length cols.now ≡ length new.now }
    ensures { IfOk result (λ v. v.items ≡ renamed cols.now new.now all.items) }
{
    let mut all = all;
    for k in 0..cols.len() {
        let name = new[k].copy()?;
        all[cols[k]] = name;
    }
    Ok(all)
}

/// The names of all columns, once these columns have the new names, of which there are as many.
fn names_after(
    alloc: Global,
    table: &Table,
    cols: &[usize],
    new: &[ColName],
) -> Result<Vec<ColName>, AllocError>
    requires cols { All (λ c. c < length table.now.names) cols.now }
    requires each { length cols.now ≡ length new.now }
    ensures { IfOk result (λ v. v.items ≡ renamed cols.now new.now table.now.names) }
{
    let all = copied(alloc, table.names())?;
    put_names(all, cols, new)
}

/// No name would stand twice, once these columns have the new names; else E12 with the first that
/// would.
fn check_after(
    alloc: Global,
    table: &Table,
    cols: &[usize],
    new: &[ColName],
) -> Result<(), EvalFail>
    requires cols { All (λ c. c < length table.now.names) cols.now }
    requires each { length cols.now ≡ length new.now }
    ensures answer { Answers (distinct (renamed cols.now new.now table.now.names)) result }
    ensures distinct { OnOk result
        (IsDistinct bytes_eq (renamed cols.now new.now table.now.names)) }
    ensures own { IfErr result IsOwn }
{
    let names = names_after(alloc, table, cols, new)?;
    check_distinct(alloc, &names)
}

/// The columns that the old names name, once all is checked but the names that there are then.
fn named_columns(
    alloc: Global,
    table: &Table,
    old: &[ColName],
    new: &[ColName],
) -> Result<Vec<usize>, EvalFail>
    ensures answer { AnswersAs (λ v. steps_done v.items)
        (checked_in table.now old.now new.now) result }
    ensures named { IfOk result (λ v. IsNamed table.now.names old.now new.now v.items) }
    ensures own { IfErr result IsOwn }
{
    check_length(alloc, old, new)?;
    let cols = old_places(alloc, table, old)?;
    match check_new(alloc, new) {
        Ok(()) => Ok(cols),
        Err(fail) => {
            drop(cols);
            Err(fail)
        }
    }
}

/// The columns that get the new names, in the order of the old ones, once all is checked.
fn columns_renamed(
    alloc: Global,
    table: &Table,
    old: &[ColName],
    new: &[ColName],
) -> Result<Vec<usize>, EvalFail>
    ensures answer { AnswersAs (λ v. plain (with_names v.items new.now table.now))
        (renames_in table.now old.now new.now) result }
    ensures fits { IfOk result (λ v. FitsRename table.now v.items new.now) }
    ensures own { IfErr result IsOwn }
{
    let _names = table.names();
    let cols = named_columns(alloc, table, old, new)?;
    match check_after(alloc, table, &cols, new) {
        Ok(()) => Ok(cols),
        Err(fail) => {
            drop(cols);
            Err(fail)
        }
    }
}

/// The same of the table of a live Id, over its plain reading.
fn columns_at(
    alloc: Global,
    heap: &Heap,
    id: Id,
    old: &[ColName],
    new: &[ColName],
) -> Result<Vec<usize>, EvalFail>
    requires { IsAt heap.now id }
    ensures answer { AnswersAs (λ v. plain (with_names v.items new.now (table_at heap.now id)))
        (renames (table_seen heap.now id) old.now new.now) result }
    ensures fits { IfOk result (λ v. FitsRename (table_at heap.now id) v.items new.now) }
    ensures own { IfErr result IsOwn }
{
    let table = table_of(heap, id);
    let _names = table.names();
    columns_renamed(alloc, table, old, new)
}

/// The effect that columns of the table of this Id get names.
fn rename_effect(
    alloc: Global,
    id: Id,
    cols: Vec<usize>,
    names: Vec<ColName>,
    warns: Warns,
) -> Effect
    ensures effect { (h : HeapSeen) → plain_effect h result
        ≡ rename_effect_of h id cols.items names.items warns }
    ensures fits { (h : HeapSeen) → IsAt h id → FitsRename (table_at h id) cols.items names.items
        → FitsIn h result.change }
{
    let change = Change::of_table(TableChange::Rename { id, cols, names });
    Effect::changes(alloc, change, warns)
}

/// What `setnames` does, once the names are there.
fn renamed(
    alloc: Global,
    heap: &Heap,
    id: Id,
    old: &[ColName],
    new: Vec<ColName>,
    warns: Warns,
) -> Result<Effect, EvalFail>
    requires { IsAt heap.now id }
    ensures answer { AnswersAs (plain_effect heap.now)
        (renamed_answer (table_seen heap.now id) old.now new.items warns) result }
    ensures fits { IfOk result (λ e. FitsIn heap.now e.change) }
    ensures own { IfErr result IsOwn }
{
    let cols = columns_at(alloc, heap, id, old, &new)?;
    Ok(rename_effect(alloc, id, cols, new, warns))
}

/// What `setnames` does, once all is valued.
fn set_names_values<L: Ledger>(
    alloc: Global,
    heap: &Heap,
    id: Id,
    old: &Valued,
    new: &Valued,
    steps: &mut Steps<L>,
) -> Result<Effect, EvalFail>
    requires { IsAt heap.now id }
    ensures answer { AnswersAs (plain_effect heap.now) (set_names_values (table_seen heap.now id)
        (valued_of old.now) (valued_of new.now)) result }
    ensures fits { IfOk result (λ e. FitsIn heap.now e.change) }
    ensures own { IfErr result IsOwn }
{
    let olds = text_cells(alloc, Formal::Old, &old.column, steps)?;
    let news = text_cells(alloc, Formal::New, &new.column, steps)?;
    renamed(alloc, heap, id, &olds, news, old.warns.both(new.warns))
}

/// What `setnames` does in the surroundings of its arguments: both types come before both values.
fn set_names_sides<V: Vars, L: Ledger>(
    alloc: Global,
    heap: &Heap,
    id: Id,
    old: &Expr,
    new: &Expr,
    s: &Scope<'_, V>,
    steps: &mut Steps<L>,
) -> Result<Effect, EvalFail>
    requires scope { IsScope s.now }
    requires live { IsAt heap.now id }
    ensures answer { AnswersAs (plain_effect heap.now) (set_names_sides (env_of V.bound s.now)
        (table_seen heap.now id) (meaning old.now) (meaning new.now)) result }
    ensures fits { IfOk result (λ e. FitsIn heap.now e.change) }
    ensures own { IfErr result IsOwn }
{
    check_chr(alloc, Formal::Old, old, s)?;
    check_chr(alloc, Formal::New, new, s)?;
    let old_names = eval(alloc, old, s, steps)?;
    let new_names = eval(alloc, new, s, steps)?;
    set_names_values(alloc, heap, id, &old_names, &new_names, steps)
}

/// The same over the script's names.
fn set_names_outside<L: Ledger>(
    alloc: Global,
    id: Id,
    old: &Expr,
    new: &Expr,
    setting: &Setting<'_>,
    steps: &mut Steps<L>,
) -> Result<Effect, EvalFail>
    requires { IsAt setting.now.heap.now id }
    ensures answer { AnswersAs (plain_effect setting.now.heap.now)
        (set_names_sides (outside (vars_of (state_of setting.now.heap.now)))
        (table_seen setting.now.heap.now id) (meaning old.now) (meaning new.now)) result }
    ensures fits { IfOk result (λ e. FitsIn setting.now.heap.now e.change) }
    ensures own { IfErr result IsOwn }
{
    let heap = setting.heap;
    let empty = Frame::new(alloc);
    let scope = outside(&empty, setting);
    set_names_sides(alloc, heap, id, old, new, &scope, steps)
}

/// What `setnames(D, old, new)` does: the columns of the old names get the new ones, in order, in
/// the key and the indices too. The table of D has them under all its names.
///
/// In this order: E19 with `D` where D is no bare name, E02 where it is not bound, E20 where it is
/// a vector's; the types of old and new, E19 with `old` or `new` where it is not of texts; their
/// values; E19 with `old` or `new` for NA; E05 where there are other than as many new names as old
/// ones; old name by old name, E12 for one that stood before and E03 for one that is no column's;
/// E19 with `new` for an empty name; E12 with the first name that would stand twice. Nothing is
/// done yet: the table is only read. It touches each cell of old and new once and none of the
/// table; its time is linear in all names, but for looking up each old one among them, and it takes
/// memory for the names of all columns once more. The manual's page `setattr`; the order is dtq's
/// own, docs/LANGUAGE.md, section "Assignment".
pub fn set_names<L: Ledger>(
    alloc: Global,
    args: &[Arg],
    setting: &Setting<'_>,
    steps: &mut Steps<L>,
) -> Result<Effect, EvalFail>
    ensures answer { AnswersAs (plain_effect setting.now.heap.now)
        (set_names_effect (map arg_meaning args.now) (state_of setting.now.heap.now)) result }
    ensures fits { IfOk result (λ e. FitsIn setting.now.heap.now e.change) }
    ensures own { IfErr result IsOwn }
{
    let heap = setting.heap;
    let id = named_table(alloc, args, heap)?;
    let old = needed(alloc, args, &[Formal::D], Formal::Old)?;
    let new = needed(alloc, args, &[Formal::D, Formal::Old], Formal::New)?;
    set_names_outside(alloc, id, old, new, setting, steps)
}
