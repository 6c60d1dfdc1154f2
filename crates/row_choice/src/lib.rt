//! The rows that the i of a bracket chooses, and the lengths of vectors that stand side by side.
//!
//! - `all_rows`, `chosen_rows`: the places of rows, counted from 0, with none for a row of NA.
//! - `common_length`: the length that several vectors come to, each of 1 or of the longest.
//! - `repeated`: a column of one cell brought to a length.
//!
//! It stands on the words of columns, `na_words`, and on `eval_fail` for faults; brackets stand on
//! it. Each answer is that of its definition in `row_model`, Rows and Lengths, and the faults come
//! exactly where they come there. Each is linear in the rows and the cells, and its loops run over
//! stored words.
#![tactic(auto)]

mod lengths;
mod listing;
mod marks;
mod place;
mod places;
mod rows;
mod truths;

pub use lengths::{common_length, repeated};
pub use listing::all_rows;
pub use rows::chosen_rows;
