//! The words of columns, and how they are brought to another type.
//!
//! - `words_of`: the stored words of a column, as one of three typed slices. All loops over cells
//!   run over such a slice, with no match on each cell.
//! - `Word`, `Target`, `Number`: what a loop asks of a word, for the three types of words.
//! - `Change` and `append`: a loop that makes one word of each.
//! - `coerce`: a column brought to a type, with the warnings of that.
//!
//! It stands on `na_vector` and `cell_text`; the operators and the functions on vectors stand on
//! it. Each answer is that of its definition in `dt_model`, Coercion. A call is linear in the cells
//! and touches each once.
#![tactic(auto)]

mod convert;
mod words;

pub use convert::{Bring, Change, append, append_words, brought_words, coerce};
pub use na_vector::NA_LGL;
pub use words::{Number, Target, Word, Words, words_of};
