//! What the j of a bracket gives, and what a list of expressions gives as columns.
//!
//! - `answer_of` answers j over a scope: a new table (`NewTable`) or a vector (`Computed`), with
//!   the warnings.
//! - `columns` answers a list of expressions: the items of `.( )`. Texts as a j go the same way.
//! - `arguments` answers the arguments of `data.table`, each checked and valued before the next.
//! - `new_table` makes a table of columns and their names.
//!
//! It stands on `expr_eval` for the types and values of expressions, on `bracket_rows` for the
//! scopes of brackets, on `row_choice` for columns of one length, and on `dt_table` for the table
//! that is made.
//!
//! It promises that j gives what `answer_in` says of it, and a list what `columns_answer` or
//! `arguments_answer` says: the same answer with the same warnings, or the same fault, the first in
//! the order of the language. Want of memory is the one other answer, and no fault blames a file.
//!
//! Its cost is that of the expressions, and of the columns that it makes: a value becomes the
//! column, one cell is repeated, and a column that a text names is copied.
#![tactic(auto)]

mod answer;
mod lists;
mod names;
mod second;
mod tables;
mod texts;

pub use answer::{Computed, NewTable};
pub use lists::{arguments, columns};
pub use second::answer_of;
pub use tables::new_table;
