//! How the arguments of a call find their formals.
//!
//! - `bind` tells the first fault of the binding, or none. After it, `place` gives the argument
//!   that a formal takes, and `next` counts the formals before it.
//! - `bare_name`, `flag_literal` and `text_literal` read an argument that counts as it is written.
//!
//! It stands on the tables of `func_table` and on the definitions of `session_model`, and serves
//! every function and command alike: a further one is a further row in the tables. It promises
//! exactly the fault of the definition `bound`, and exactly the places of `place_of`. It looks at
//! each argument once for each formal, and a call has few of both.
#![tactic(auto)]

mod binding;
mod forms;
mod places;

pub use binding::bind;
pub use forms::{bare_name, flag_literal, text_literal};
pub use places::{next, place};
