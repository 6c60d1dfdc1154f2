//! Why an expression or a statement has no value.
//!
//! - `EvalFail` is what everything that values answers in place of a value: a fault, or want of
//!   memory. `stop`, `stop_number`, `stop_length` and `stop_unbuilt` make it.
//!
//! It stands on `dt_base` and on the faults of `vector_model`, and knows no column, tree or call,
//! so that functions on columns and the binding of arguments stand on it alike. It promises exactly
//! the fault that is asked for, or want of memory for its text.
#![tactic(auto)]

mod fail;

pub use fail::{EvalFail, stop, stop_length, stop_number, stop_unbuilt};
