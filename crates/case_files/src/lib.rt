//! Files of cases: each case is a script, or words, and what a run of it must put and write.
//!
//! - `Case`: one case, with what a runner hands in and what it compares.
//! - `read_cases` reads a file of them, line by line: `mark` says what one line is, `draft` gathers
//!   the parts of a case and looks at it as a whole.
//! - `CasesFail` and `Wrong`: the line that is no such file's, and why.
//! - `compare` tells a part of a run that differs from what its case wants.
//!
//! A file is UTF-8, and each of its lines is one of these; any other is refused, with its number,
//! so that no misspelt line passes for a remark:
//!
//!     (empty)         nothing
//!     # TEXT          a remark, as how the wanted bytes were worked out; `#` alone too
//!     before          once, ahead of the first case: statements ahead of each `script` of the file
//!     case NAME       begins a case; no two cases of one file have one name
//!     script          the part that follows is the script; without it no script is handed in
//!     words           the part: one word of the command line a line; without it `script.dq` alone
//!     status N        the exit number; without it 1 where the last line of `err` begins with
//!                     `Error `, and else 0
//!     file NAME       the part: a file that is there before the run
//!     wrote NAME      the part: what this file holds after the run
//!     out             the part: what is put on standard output; without it nothing is
//!     err             the part: what is put on standard error; without it nothing is
//!     |TEXT           a line of the part, with its line feed
//!     >TEXT           a piece of the part, without a line feed
//!     =HH HH ..       bytes of the part, as pairs of hexadecimal digits
//!
//! A case has a script or words, and wants something: `out`, `err`, `wrote` or `status`. No part,
//! and no file of either kind, stands twice in it.
//!
//! It stands on `dt_base` alone, for the names. It is for tests, and promises nothing but safety.
#![tactic(auto)]

mod case;
mod draft;
mod fail;
mod mark;
mod reading;
mod told;

pub use case::{Case, SCRIPT_NAME};
pub use fail::{CasesFail, Wrong};
pub use reading::read_cases;
pub use told::compare;
