//! The order of a frame's rows over some of its columns.
//!
//! - `order`: the row numbers in order, by one stable sort for each column, the last column first.
//! - `is_sorted`: whether a key over these columns is true.
//!
//! It stands on `na_vector`, and on the definitions of `order_model`: it promises that `order`
//! gives `ordering`, that `is_sorted` decides `IsTrueKey`, and how many cells each call touches.
#![tactic(auto)]

mod ordering;
mod passes;
mod sorted;

pub use ordering::{SortCol, order};
pub use sorted::is_sorted;
