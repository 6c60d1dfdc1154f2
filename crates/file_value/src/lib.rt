//! What `fread` gives of a file, and why a call that may read files gives nothing.
//!
//! - `file_table`: the table of a file with its warnings, or its first fault.
//! - `ValueFail`: a fault, a read that failed, or want of memory; `refusal`, `refusal_unbuilt` and
//!   `unread` make it.
//!
//! It stands on the trait `Files` of `dt_world` and on `csv_edge`. It promises the definition
//! `file_table` where files tell what they hold, and `OnlyReads` of all that it does to them: no
//! file changes, and an answer that blames a file comes only where the files counted it.
#![tactic(auto)]

mod fail;
mod files;

pub use fail::{ValueFail, refusal, refusal_unbuilt, unread};
pub use files::file_table;
