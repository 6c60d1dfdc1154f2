//! What a bracket is asked by its arguments, as they are written.
//!
//! - `asked`: what all arguments of a bracket ask (`Asked`), or the first fault; the third item
//!   counts as the argument `by`.
//! - `first_wanting`, `first_barred`: the first argument that wants a join, and the first that a
//!   join behind `!` does not take.
//! - `is_assignment`: whether the second item is one.
//!
//! It stands on `written_forms` for the forms of single arguments, and on the definition `asked` of
//! `session_model`. It looks at no table and no value, and touches nothing; what it answers borrows
//! the tree.
#![tactic(auto)]

mod by;
mod items;
mod on;
mod walk;
mod wanting;

pub use items::{Asked, Beside, By, Item, OnItem};
pub use walk::asked;
pub use wanting::{first_barred, first_wanting, is_assignment};
