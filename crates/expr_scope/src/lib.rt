//! What an expression meets, and what its names, literals and tables give.
//!
//! - `Scope` is what an expression meets: the columns of its rows, the columns of the one row that
//!   all rows share, the rows' positions, the numbers of `.N` and `.GRP`, and the script's names,
//!   which stand behind the trait `Vars`.
//! - `is_column` and `row_column` look a column up by its name, for what names columns.
//! - `name_kind` gives the type of a name where a vector is wanted, and `name_operand` its value:
//!   an `Operand` is a value that is made, or a column that is lent and only read. `owned` copies
//!   it.
//! - `literal_value` gives the value of a literal, and `description` what a function tells of a
//!   table.
//! - `flag_given` and `table_given` read an argument that counts as it is written, and `later_call`
//!   gives the fault of a call that gives no vector.
//!
//! It stands on `arg_bind`, which places arguments, on columns and on tables; it knows the tree,
//! but goes into no expression. It promises exactly the vector `name_vector` of `expr_model`, or
//! its fault. Want of memory is the one free answer, and no error blames a file.
#![tactic(auto)]

mod arguments;
mod lent;
mod literals;
mod names;
mod operands;
mod scope;
mod tables;

pub use arguments::{add, flag_given, later_call, table_given};
pub use lent::{name_operand, unwarned};
pub use literals::literal_value;
pub use names::{is_column, name_kind, row_column};
pub use operands::{Operand, owned};
pub use scope::{Scope, Vars};
pub use tables::description;
