//! Expressions as they are written, where that decides what they are.
//!
//! - `Written` and `form_of`: one flat value for all rules on forms; `flag_in`, `mult_in`,
//!   `no_match_in` and `roll_in` are such rules.
//! - `name_of`, `bare_text`: the name of an argument, and its text where it has none.
//! - `texts_of`, `call_texts`: the texts of arguments, and those of the call of `c`.
//!
//! It stands on `arg_bind` and on the definitions of `session_model`, and looks at no table and no
//! value. It promises the form of the definition, and wants memory for lists of texts alone.
#![tactic(auto)]

mod forms;
mod texts;
mod written;

pub use forms::{flag_in, mult_in, no_match_in, roll_in};
pub use texts::{bare_text, call_texts, name_of, texts_of};
pub use written::{Written, form_of};
