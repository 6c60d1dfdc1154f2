ghost use Rattle.std.specs.Prelude.{◌≡◌, ◌∷◌, [], IfErr, IfOk, IfSome, Ok, Option, Some, true};
ghost use Rattle.std.specs.Prelude.{option_map};
ghost use Rattle.std.specs.FinMap as finite;
ghost use Rattle.std.specs.Option.{option_copied};
ghost use Rattle.auto_index.specs.Added.{FitsWith, IsFree, IsNew, IsOf};
ghost use Rattle.auto_index.specs.Added.{headed_seen, indexed_at, indexed_parts, keeps};
ghost use Rattle.auto_index.specs.Added.{kept_column, numbered_bound, numbered_in};
ghost use Rattle.dt_model.specs.Table.{name_at};
ghost use Rattle.dt_table.specs.Plain.{plain};
ghost use Rattle.dt_table.specs.Table.{IsTable};
ghost use Rattle.dt_world.specs.Told.{FileMap};
ghost use Rattle.eval_fail.specs.Answers.{AnswersAs, IsNoMemory, IsOwn};
ghost use Rattle.session_model.specs.AutoIndex.{column_added, first_indexed, named_value};
ghost use Rattle.session_model.specs.AutoIndex.{with_added};
ghost use Rattle.session_model.specs.Form.{name_in};
ghost use Rattle.session_model.specs.Found.{vars_of};
ghost use Rattle.session_model.specs.Meaning.{bracket_meaning, meaning};
ghost use Rattle.session_model.specs.Value.{Scene, bound_value};
ghost use Rattle.session_model.specs.Value as model;
ghost use Rattle.stmt_change.specs.Altered.{plain_altered};
ghost use Rattle.stmt_change.specs.Places.{table_at};
ghost use Rattle.stmt_value.specs.Values.{IsGivenIn, IsIndexedIn, plain_given, scene};
ghost use Rattle.table_heap.specs.Altered.{FitsNewIndex};
ghost use Rattle.table_heap.specs.Seen.{IsAt};
ghost use Rattle.table_heap.specs.State.{state_of};

use crate::altered::{is_kept, with_index};
use crate::columns::column_added;
use dt_base::Steps;
use dt_table::{Index, Table};
use dt_tree::{Bracket, Expr};
use eval_fail::EvalFail;
use keys_index::make_index;
use std::alloc::{AllocError, Global};
use std::sync::ledger::Ledger;
use stmt_value::{Altered, Given, Setting};
use table_argument::table_of;
use table_heap::{Heap, Id, Look};

// ---- The table before the brackets

/// The name that an expression is, if it is a bare one. What it gives is what the name is bound to.
#[tactic(auto, using(session_model::proofs::Forms::written))]
fn head_name(head: &Expr) -> Option<&str>
    ensures form { option_copied result ≡ name_in (meaning head.now).form }
    ensures gives { IfSome result (λ q. (w : Scene) → (meaning head.now).gives w
        ≡ bound_value q.now (finite.get w.state.names q.now)) }
{
    match head {
        Expr::Name { name } => Some(name.as_str()),
        _ => None,
    }
}

/// The table that a name is bound to, if it is bound to one.
fn bound_table(name: &str, heap: &Heap) -> Option<Id>
    ensures number { option_map (λ id. id.number) result
        ≡ numbered_bound (finite.get (state_of heap.now).names name.now) }
    ensures live { IfSome result (IsAt heap.now) }
{
    match heap.look(name) {
        Look::Table(id) => Some(id),
        Look::Absent | Look::Vector(_) => None,
    }
}

/// The table that stands before brackets by its bare name.
fn head_table(head: &Expr, heap: &Heap) -> Option<Id>
    ensures number { (w : Scene) → w.state ≡ state_of heap.now
        → option_map (λ id. id.number) result
        ≡ numbered_in (named_value (meaning head.now).form ((meaning head.now).gives w)) }
    ensures live { IfSome result (IsAt heap.now) }
{
    match head_name(head) {
        Some(name) => bound_table(name, heap),
        None => None,
    }
}

/// What stands before the brackets of an expression, and these.
fn query_parts(e: &Expr) -> Option<(&Expr, &[Bracket])>
    ensures { (meaning e.now).indexed ≡ indexed_parts result }
{
    match e {
        Expr::Query { head, brackets } => Some((head.get(), brackets.as_slice())),
        _ => None,
    }
}

/// The table that stands before brackets by its bare name, and the first of these.
fn headed<'e>(e: &'e Expr, heap: &Heap) -> Option<(Id, &'e Bracket)>
    ensures indexed { (w : Scene) (g : model.Given) → w.state ≡ state_of heap.now
        → (meaning e.now).indexed w g ≡ indexed_at w (headed_seen result) g }
    ensures live { IfSome result (λ p. IsAt heap.now p.0) }
{
    match query_parts(e) {
        Some((head, [bracket, ..])) => match head_table(head, heap) {
            Some(id) => Some((id, bracket)),
            None => None,
        },
        _ => None,
    }
}

// ---- The index

/// The column that the i of a bracket gives an index, where the table keeps it.
fn kept_column<L: Ledger>(
    alloc: Global,
    id: Id,
    bracket: &Bracket,
    altered: &Option<Altered>,
    setting: &Setting<'_>,
    steps: &mut Steps<L>,
) -> Result<Option<usize>, AllocError>
    requires live { IsAt setting.now.heap.now id }
    requires fits { FitsWith setting.now.heap.now altered.now }
    ensures column { IfOk result (λ o.
        option_map (name_at (table_at setting.now.heap.now id).names) o
        ≡ kept_column id.number (column_added (plain (table_at setting.now.heap.now id))
        setting.now.options.auto_index (vars_of (state_of setting.now.heap.now))
        (bracket_meaning bracket.now).first)
        (option_map (plain_altered setting.now.heap.now) altered.now)) }
    ensures new { IfOk result (IsNew (table_at setting.now.heap.now id)) }
    ensures same { IfOk result (λ o. IfSome o (λ c. IsOf id altered.now)) }
{
    let table = table_of(setting.heap, id);
    let auto = setting.options.auto_index;
    match column_added(alloc, table, &bracket.first, auto, setting, steps)? {
        Some(col) => Ok(is_kept(altered, id, col, setting.heap).then_some(col)),
        None => Ok(None),
    }
}

/// The index of a column with which neither the key nor an index begins. It also says what is so of
/// every table.
fn index_of<L: Ledger>(
    alloc: Global,
    t: &Table,
    col: usize,
    steps: &mut Steps<L>,
) -> Result<Index, AllocError>
    requires { IsFree t.now col }
    ensures cols { IfOk result (λ x. x.cols ≡ col ∷ []) }
    ensures fits { IfOk result (FitsNewIndex t.now) }
    ensures table { IsTable t.now }
{
    let _key = t.key();
    make_index(alloc, t, &[col], steps)
}

/// What is given, with the index of a column that the table of an Id keeps.
fn add_index<'a, L: Ledger>(
    alloc: Global,
    id: Id,
    col: usize,
    given: Given<'a>,
    heap: &Heap,
    steps: &mut Steps<L>,
) -> Result<Given<'a>, EvalFail>
    requires live { IsAt heap.now id }
    requires free { IsFree (table_at heap.now id) col }
    requires kept { keeps id.number (name_at (table_at heap.now id).names col)
        (option_map (plain_altered heap.now) given.altered) ≡ true }
    requires same { IsOf id given.altered }
    requires given { IsGivenIn heap.now given }
    ensures given { IfOk result (λ g. plain_given heap.now g ≡ with_added id.number
        (plain (table_at heap.now id)) (Some (name_at (table_at heap.now id).names col))
        (plain_given heap.now given.entry)) }
    ensures live { IfOk result (IsIndexedIn heap.now) }
    ensures memory { IfErr result IsNoMemory }
{
    match index_of(alloc, table_of(heap, id), col, steps) {
        Ok(index) => Ok(with_index(given, id, index)),
        Err(error) => {
            drop(given);
            Err(EvalFail::NoMemory(error))
        }
    }
}

/// What is given, with the index that the first bracket adds to the table before it.
fn first_indexed<'a, L: Ledger>(
    alloc: Global,
    id: Id,
    bracket: &Bracket,
    given: Given<'a>,
    setting: &Setting<'_>,
    steps: &mut Steps<L>,
) -> Result<Given<'a>, EvalFail>
    requires live { IsAt setting.now.heap.now id }
    requires given { IsGivenIn setting.now.heap.now given }
    ensures given { (held : Option FileMap) → IfOk result (λ g. plain_given setting.now.heap.now g
        ≡ first_indexed (scene held setting.now) id.number (bracket_meaning bracket.now)
        (plain_given setting.now.heap.now given.entry)) }
    ensures live { IfOk result (IsIndexedIn setting.now.heap.now) }
    ensures memory { IfErr result IsNoMemory }
{
    let _table = table_of(setting.heap, id);
    match kept_column(alloc, id, bracket, &given.altered, setting, steps) {
        Ok(Some(col)) => add_index(alloc, id, col, given, setting.heap, steps),
        Ok(None) => Ok(given),
        Err(error) => {
            drop(given);
            Err(EvalFail::NoMemory(error))
        }
    }
}

/// What a statement gives, with the index that it adds to the table at the head of its brackets.
///
/// It adds an index of one column where its expression is brackets behind the bare name of a table,
/// whose first i is `column == value` or `column %in% value`; the value names nothing of the table;
/// over all rows it has no fault, its type is not above the column's, and beside `==` it has one
/// cell; the option `datatable.auto.index` is on; and neither the key nor an index begins with the
/// column. A statement that assigns to the column adds none, and neither does one that alters
/// another table. What is given has no index yet.
///
/// Want of memory is the one error. Only where the option, the key and the indices let an index be
/// added, the value is checked and valued once more, for its type and its length: that touches what
/// valuing it touches, and takes memory for a place for each row. Only where the index is added, its
/// rows are put in order, which touches each cell of the column, with memory linear in the rows.
pub fn indexed<'a, L: Ledger>(
    alloc: Global,
    e: &Expr,
    given: Given<'a>,
    setting: &Setting<'_>,
    steps: &mut Steps<L>,
) -> Result<Given<'a>, EvalFail>
    requires { IsGivenIn setting.now.heap.now given }
    ensures answer { (held : Option FileMap) → AnswersAs (plain_given setting.now.heap.now)
        (Ok ((meaning e.now).indexed (scene held setting.now)
        (plain_given setting.now.heap.now given.entry))) result }
    ensures live { IfOk result (IsIndexedIn setting.now.heap.now) }
    ensures own { IfErr result IsOwn }
{
    match headed(e, setting.heap) {
        Some((id, bracket)) => first_indexed(alloc, id, bracket, given, setting, steps),
        None => Ok(given),
    }
}
