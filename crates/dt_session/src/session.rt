ghost use Rattle.std.specs.Prelude.{◌≡◌, ◌≤◌, IfOk, OnOk, IsSome};
ghost use Rattle.run_model.specs.Messages.{printed_warns};
ghost use Rattle.session_model.specs.Session.{empty_session};
ghost use Rattle.session_model.specs.Statement.{step};
ghost use Rattle.session_model.specs.World.{look};
ghost use Rattle.stmt_change.specs.Effects.{plain_change, plain_effect, FitsIn, FitsTableIn};
ghost use Rattle.table_heap.specs.Changes.{HoldsSame};
ghost use Rattle.file_value.specs.Answers.{Gives};
ghost use Rattle.file_value.specs.Reads.{OnlyReads, files_seen};
ghost use Rattle.table_heap.specs.State as named;
ghost use Rattle.dt_session.specs.Answers.{prepared_effect, sent};
ghost use Rattle.dt_session.specs.Changes.{HasRoomIn};
ghost use Rattle.dt_session.specs.Execs.{IsExec};
ghost use Rattle.dt_session.specs.Outside.{outside, sink_seen};
ghost use Rattle.dt_session.specs.Puts.{IsSent};
ghost use Rattle.dt_session.specs.Session.{heaped, state_of, IsAlike};

use crate::fail::ExecFail;
use crate::finish::finish;
use crate::puts::put_all;
use dt_base::Steps;
use dt_print::warn_lines;
use dt_script::Stmt;
use dt_world::{Files, Sink, WriteFail};
use func_table::Options;
use std::alloc::{AllocError, Global};
use std::marker::Model;
use std::sync::ledger::Ledger;
use stmt_change::{Change, Effect, TableChange};
use stmt_effect::compute;
use stmt_value::{Setting, ValueFail};
use table_heap::Heap;
use table_heap::laws::same_heaps;

/// Names with their tables and vectors, and the options. Contracts see both; `state_of` reads them
/// as a state.
#[derive(Drop)]
pub struct Session {
    alloc: Global,
    heap: Heap,
    options: Options,
}

impl Model for Session {
    ghost use Rattle.dt_session.specs.Session.{SessionSeen, session_code};

    ghost Value = { SessionSeen };

    ghost coded = { session_code };

    ghost view = { λ s. record { heap = s.heap; options = s.options } };
}

/// An effect, and the lines of its warnings.
#[derive(Drop)]
struct Prepared {
    effect: Effect,
    lines: Vec<u8>,
}

/// Computes what a statement does.
fn effect_of<F: Files, L: Ledger>(
    alloc: Global,
    stmt: &Stmt,
    heap: &Heap,
    options: &Options,
    files: &mut F,
    steps: &mut Steps<L>,
) -> Result<Effect, ValueFail>
    ensures told { IsSome (F.held files.old) →
        Gives (plain_effect heap.now)
        (step (look (F.held files.old)) (heaped heap.now options.now) stmt.now) result }
    ensures fits { IfOk result (λ e. FitsIn heap.now e.change) }
    ensures files { OnlyReads (files_seen F.held F.read_faults F.misses F.longs F.write_faults)
        files.old files.new result }
{
    let setting = Setting {
        heap,
        options: *options,
    };
    compute(alloc, stmt, &setting, files, steps)
}

/// Takes the memory for the change of a table. Spare room alone is more than it was.
fn reserve_table(heap: &mut Heap, change: &TableChange) -> Result<(), AllocError>
    requires { FitsTableIn heap.old change.now }
    ensures ready { OnOk result (HasRoomIn heap.new change.now) }
    ensures same { HoldsSame heap.old heap.new }
    ensures room { heap.new.room ≡ heap.old.room }
{
    same_heaps();
    match change {
        TableChange::Altered(a) => heap.reserve_change(a.id, &a.index, &a.parts),
        TableChange::Nothing | TableChange::Rename { .. } => Ok(()),
        TableChange::Reordered { .. } | TableChange::Keyed { .. } => Ok(()),
        TableChange::Unkeyed { .. } | TableChange::Unindexed { .. } => Ok(()),
    }
}

/// Takes the memory for a change: for a name and a table more, and for the change of a table.
fn reserve(heap: &mut Heap, change: &Change) -> Result<(), AllocError>
    requires { FitsIn heap.old change.now }
    ensures room { OnOk result (1 ≤ heap.new.room) }
    ensures fits { FitsIn heap.new change.now }
    ensures ready { OnOk result (HasRoomIn heap.new change.now.table) }
    ensures change { plain_change heap.new change.now ≡ plain_change heap.old change.now }
    ensures same { HoldsSame heap.old heap.new }
    ensures state { named.state_of heap.new ≡ named.state_of heap.old }
{
    same_heaps();
    heap.reserve()?;
    reserve_table(heap, &change.table)
}

/// Computes what a statement does and takes the memory for its change. Nothing is put, written or
/// changed yet; spare room alone may be more than it was.
fn prepare<F: Files, L: Ledger>(
    alloc: Global,
    stmt: &Stmt,
    heap: &mut Heap,
    options: &Options,
    files: &mut F,
    steps: &mut Steps<L>,
) -> Result<Prepared, ValueFail>
    ensures told { IsSome (F.held files.old) →
        Gives (prepared_effect heap.old)
        (step (look (F.held files.old)) (heaped heap.old options.now) stmt.now) result }
    ensures lines { IfOk result (λ p. p.lines.items ≡ printed_warns stmt.now.line p.effect.warns) }
    ensures room { OnOk result (1 ≤ heap.new.room) }
    ensures fits { IfOk result (λ p. FitsIn heap.new p.effect.change) }
    ensures ready { IfOk result (λ p. HasRoomIn heap.new p.effect.change.table) }
    ensures change { IfOk result (λ p.
        plain_change heap.new p.effect.change ≡ plain_change heap.old p.effect.change) }
    ensures same { HoldsSame heap.old heap.new }
    ensures state { heaped heap.new options.now ≡ heaped heap.old options.now }
    ensures files { OnlyReads (files_seen F.held F.read_faults F.misses F.longs F.write_faults)
        files.old files.new result }
{
    same_heaps();
    let effect = effect_of(alloc, stmt, heap, options, files, steps)?;
    let lines = warn_lines(alloc, stmt.line, effect.warns)?;
    reserve(heap, &effect.change)?;
    Ok(Prepared { effect, lines })
}

/// Puts the text of what was prepared, writes its file, and puts its lines, each at once.
fn send<F: Files, O: Sink, E: Sink>(
    prepared: &Prepared,
    files: &mut F,
    out: &mut O,
    err: &mut E,
) -> Result<(), WriteFail>
    ensures { IsSent
        (outside (files_seen F.held F.read_faults F.misses F.longs F.write_faults files.old)
        (sink_seen O.bytes O.faults out.old) (sink_seen E.bytes E.faults err.old))
        (outside (files_seen F.held F.read_faults F.misses F.longs F.write_faults files.new)
        (sink_seen O.bytes O.faults out.new) (sink_seen E.bytes E.faults err.new))
        (sent prepared.now.effect prepared.now.lines.items) result }
{
    put_all(&prepared.effect, &prepared.lines, files, out, err)
}

impl Session {
    /// A session without names, with both options on.
    pub fn new(alloc: Global) -> Session
        ensures { state_of result ≡ empty_session }
    {
        Session {
            alloc,
            heap: Heap::new(alloc),
            options: Options {
                auto_index: true,
                use_index: true,
            },
        }
    }

    /// Names, tables and vectors.
    pub fn heap(&self) -> &Heap
        ensures { result.now ≡ self.now.heap }
    {
        &self.heap
    }

    /// The options.
    pub fn options(&self) -> &Options
        ensures { result.now ≡ self.now.options }
    {
        &self.options
    }

    pub(crate) fn alloc(&self) -> Global {
        self.alloc
    }

    /// Runs one statement.
    ///
    /// Its effect is computed; then the memory for its change is taken; then its text is put, its
    /// file is written and its warning lines are put, each at once; then the change is made, which
    /// cannot fail. After a refusal the session is as it was, but for spare room. After a fault or
    /// a failed read nothing was put or written; after a failed put or write, or want of memory,
    /// what was put is a first part of what the statement gives. Of the counts of what failed only
    /// the one that is answered may have risen, and none where the statement was done.
    pub fn exec<F: Files, O: Sink, E: Sink, L: Ledger>(
        &mut self,
        s: &Stmt,
        files: &mut F,
        out: &mut O,
        err: &mut E,
        steps: &mut Steps<L>,
    ) -> Result<(), ExecFail>
        ensures { IsExec s.now self.old self.new
            (outside (files_seen F.held F.read_faults F.misses F.longs F.write_faults files.old)
            (sink_seen O.bytes O.faults out.old) (sink_seen E.bytes E.faults err.old))
            (outside (files_seen F.held F.read_faults F.misses F.longs F.write_faults files.new)
            (sink_seen O.bytes O.faults out.new) (sink_seen E.bytes E.faults err.new))
            result }
    {
        let prepared = prepare(self.alloc, s, &mut self.heap, &self.options, files, steps)?;
        match send(&prepared, files, out, err) {
            Err(fail) => Err(ExecFail::from(fail)),
            Ok(()) => {
                finish(
                    &mut self.heap,
                    &mut self.options,
                    prepared.effect.change,
                    steps,
                );
                Ok(())
            }
        }
    }
}

/// A session is alike to its state: the same names, with equal vectors and with tables that read
/// the same; one Id exactly where the state has one number; as many tables; and equal options.
pub fn alike(session: &Session)
    ensures { IsAlike session.now }
{
    table_heap::laws::alike(&session.heap);
}
