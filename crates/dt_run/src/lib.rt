//! One run of `dtq`: from the words of its command line to what is put, and a status.
//!
//! - `running` has `run`, the whole program over any files and sinks.
//! - `words` reads the words by the crate `clap`, and has the law on plain words.
//! - `check` reads a script and does no more; `telling` puts the lines that `run` itself tells.
//! - `Status` is how a run ended, with the number that the program ends with.
//!
//! It stands on `dt_session` for scripts, on `dt_script` for `--check`, on `dt_world` for the
//! outside and on `dt_print` for the lines of faults.
//!
//! It promises that the files, what is put and the status are those of the plain evaluation of the
//! words, `Headline` in specs/Run; that the usage is told by the words alone; and that each answer
//! that blames the outside comes only where a count of it rose.
#![tactic(auto)]

mod check;
mod running;
mod status;
mod telling;
mod words;

pub use running::run;
pub use status::Status;
pub use words::takes_plain_words;
