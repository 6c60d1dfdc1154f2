//! What a statement does, as plain values: the text that it puts, the file that it writes, its
//! warnings, and the change that it makes.
//!
//! - `Effect` is all of a statement; `Change` is its change of a table (`TableChange`), of a name
//!   (`NameChange`) and of the options, each of which may stay as it is.
//! - `Effect::nothing`, `prints`, `writes` and `changes` make the effects that do one thing.
//!
//! It stands on tables, columns and the Ids of a heap, and on the definitions of effects. Contracts
//! see an effect over the heap that it was computed from, where it names a table by its Id:
//! `plain_effect` is the effect of the definitions, and `FitsIn` says that the change can be made.
#![tactic(auto)]

mod change;
mod effect;

pub use change::{Altered, Change, NameChange, TableChange};
pub use effect::{Effect, Written};
