//! What one bracket gives behind a table, in the one order of a bracket.
//!
//! - `run_query` answers a bracket: the same table, a table of its own, a vector, or the same table
//!   changed (`Outcome`), with the warnings of i and of j (`Answer`).
//! - `is_empty` tells a bracket with nothing in it. `Options` are the session's, for indices;
//!   `answer_of`, `arguments`, `columns` and `NewTable` are those of `bracket_columns`.
//!
//! Each step of the order stands in a crate below: what is asked in `bracket_forms`, i in
//! `bracket_rows`, j in `bracket_columns`, assignments in `bracket_assign`. Here they are only put
//! one behind the other.
//!
//! It promises that a bracket gives what the definition `bracket_answer` says of it, over the plain
//! reading of the table: the same answer with the same warnings, or the same fault, the first in
//! the order of the language; and that a change fits the table. Want of memory is the one other
//! answer, and no fault blames a file. Groups, `.SDcols` and a join as i are not served, and are
//! told as `unbuilt` where the definition tells them.
//!
//! Without i, j looks at the table's own columns; the rows that an i chooses are gathered once. All
//! else is the cost of the expressions and of the columns of the answer.
#![tactic(auto)]

mod answer;
mod query;
mod rules;
mod second;

pub use answer::{Answer, Outcome};
pub use bracket_columns::{Computed, NewTable, answer_of, arguments, columns};
pub use func_table::Options;
pub use query::run_query;
pub use rules::is_empty;
