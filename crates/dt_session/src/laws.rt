//! What follows from the definitions alone, and what is so of every session.
ghost use Rattle.dt_session.specs.Lines.{OneFault};
ghost use Rattle.dt_session.specs.Session.{state_of};
ghost use Rattle.table_heap.specs.Tables.{HasPlainTables, HoldTables};

use crate::session::Session;

/// What came on an output is in one way, if in any, lines of warnings and then the line of a fault.
/// So it tells which line that is, and the code of the fault.
pub fn one_fault()
    ensures { OneFault }
{}

/// Each table of a session's state is a plain table: in each row a cell for each column, NA or of
/// that column's type; distinct names; all within the limits; and a key over whose columns no row
/// stands above the next one. `run_script` and `exec` say which state a session has, so it is so of
/// each state that a run reaches.
pub fn plain_tables(session: &Session)
    ensures { HasPlainTables (state_of session.now).state }
{
    table_heap::laws::plain_tables(session.heap());
}

/// Each table of a session has a true key, and each of its indices has all rows in the order of its
/// columns. A state has no such orders, so this speaks of the tables themselves.
pub fn true_tables(session: &Session)
    ensures { HoldTables session.now.heap.held.slots }
{
    table_heap::laws::true_tables(session.heap());
}
