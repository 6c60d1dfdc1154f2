//! A session: names and tables, the statements that change them, and whole scripts.
//!
//! - `Session`: an empty one is `Session::new`. `exec` runs one statement in three parts: its
//!   effect is computed; the memory for its change is taken; and then the text, the file and the
//!   warnings are put, and the change is made, which cannot fail.
//! - `run_script` reads the bytes of a script and runs its statements until the first fault.
//! - `tell_refusal` puts the line of the fault for which the reading of a script was refused.
//! - `ExecFail` and `RunFail` say why a statement or a script ended early.
//! - `laws::one_fault`: what came on the other output tells which code stopped a script;
//!   `laws::plain_tables`: what is so of each table of a session's state.
//!
//! It stands on `stmt_effect` and `stmt_change` for what statements do, on `table_heap` for names
//! and tables, on `dt_script` for reading and on `dt_world` for the outside.
//!
//! It promises that the state, the bytes and the first fault are those of the definitions `step`
//! and `plain`, where files tell what they hold; that a refused statement has changed nothing but
//! spare room; that each answer that blames the outside comes only where the outside counted it;
//! and what stands where a put or a write fails. The line of the fault that stops a script stands
//! behind lines of warnings, also where files tell nothing.
#![tactic(auto)]

mod fail;
mod finish;
pub mod laws;
mod puts;
mod refusal;
mod run;
mod session;

pub use fail::{ExecFail, RunFail};
pub use func_table::Options;
pub use refusal::tell_refusal;
pub use run::run_script;
pub use session::{Session, alike};
