//! The rule on assignments in wrong places, for a script that the grammar accepts.
//!
//! - `misplaced_at`: the first token of an assignment, or of a bracket behind one, that stands in a
//!   wrong place.
//!
//! It stands on `run_model`, whose `misplaced` is the rule: an assignment stands only in the
//! outermost chain of a statement, only one empty bracket may follow it, and the call of `:=` has
//! one argument or more, each with a name. It promises exactly that token's place in the list. The
//! trees keep no places, so a walk over them gives one flag for each token that may stand wrong, in
//! the order of the text. Cost: one walk over the tokens and the trees, as deep as the trees nest.
#![tactic(auto)]

mod inner;
mod outer;

pub use outer::misplaced_at;
