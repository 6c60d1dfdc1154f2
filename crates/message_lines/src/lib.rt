//! The lines that tell a fault or warnings, as the bytes that a script puts beside its output.
//!
//! - `fault_line`: the line of a fault. `warn_lines`: those of a set of warnings.
//! - `push_number`: a number in decimal.
//!
//! It stands on the words of `dt_base`, and printing stands on it. It promises that the bytes are
//! those of the definitions `printed_fault` and `printed_warns`, which stand in `run_model`. Only
//! memory can be wanting.
#![tactic(auto)]

mod messages;
mod numbers;

pub use messages::{fault_line, warn_lines};
pub use numbers::push_number;
