ghost use Rattle.std.specs.Prelude.{◌≡◌, ◌≤◌};
ghost use Rattle.session_model.specs.Effect.{changed, named, optioned, tabled};
ghost use Rattle.stmt_change.specs.Effects.{FitsIn, FitsNameIn, FitsTableIn};
ghost use Rattle.stmt_change.specs.Effects.{plain_change, plain_name, plain_table};
ghost use Rattle.table_heap.specs.Changes.{StaysLive};
ghost use Rattle.table_heap.specs.State.{state_of};
ghost use Rattle.dt_session.specs.Changes.{HasRoomIn};
ghost use Rattle.dt_session.specs.Session.{heaped};

use dt_base::Steps;
use func_table::Options;
use std::sync::ledger::Ledger;
use stmt_change::{Change, NameChange, TableChange};
use table_heap::Heap;

/// Makes the change of a table, which all its names see.
fn finish_table<L: Ledger>(heap: &mut Heap, change: TableChange, steps: &mut Steps<L>)
    requires fits { FitsTableIn heap.old change }
    requires ready { HasRoomIn heap.old change }
    ensures state { state_of heap.new ≡ tabled (state_of heap.old) (plain_table heap.old change) }
    ensures live { StaysLive heap.old heap.new }
    ensures room { heap.new.room ≡ heap.old.room }
{
    match change {
        TableChange::Nothing => (),
        TableChange::Altered(a) => heap.apply_change(a.id, a.index, a.parts, steps),
        TableChange::Rename { id, cols, names } => heap.rename(id, cols.as_slice(), names),
        TableChange::Reordered { id, table } => heap.put_table(id, table),
        TableChange::Keyed { id, key } => heap.set_key(id, key),
        TableChange::Unkeyed { id } => heap.drop_key(id),
        TableChange::Unindexed { id } => heap.drop_indices(id),
    }
}

/// Makes the change of a name.
fn finish_name(heap: &mut Heap, change: NameChange)
    requires room { 1 ≤ heap.old.room }
    requires fits { FitsNameIn heap.old change }
    ensures { state_of heap.new ≡ named (state_of heap.old) (plain_name change) }
{
    match change {
        NameChange::Nothing => (),
        NameChange::BindNew { name, table } => {
            let _id = heap.bind_new(name, table);
        }
        NameChange::BindVector { name, column } => heap.bind_vector(name, column),
        NameChange::Alias { name, id } => heap.bind_table(name, id),
        NameChange::Remove { name } => {
            let _removed = heap.remove(name.as_str());
        }
    }
}

/// Makes the change of the options.
fn finish_options(options: &mut Options, change: Option<Options>)
    ensures { options.new ≡ optioned options.old change }
{
    if let Some(new) = change {
        *options = new;
    }
}

/// Makes a change for which there is room: the table's first, then the name's, then the options'.
/// It takes no memory and cannot fail.
pub fn finish<L: Ledger>(
    heap: &mut Heap,
    options: &mut Options,
    change: Change,
    steps: &mut Steps<L>,
)
    requires room { 1 ≤ heap.old.room }
    requires fits { FitsIn heap.old change }
    requires ready { HasRoomIn heap.old change.table }
    ensures { heaped heap.new options.new
        ≡ changed (heaped heap.old options.old) (plain_change heap.old change) }
{
    finish_table(heap, change.table, steps);
    finish_name(heap, change.name);
    finish_options(options, change.options);
}
