//! Several columns brought to their common type, with NA.
//!
//! - `common`: the common type of two.
//! - `concat`, `choose`, `contained`: `c` of two vectors, `fifelse`, `%in%`, in the common type.
//! - `OpFail`: why an operation on columns is refused, here and in `na_ops`.
//! - `place_in`: where the cell for a place stands.
//!
//! It stands on `na_words`, and the operators of `na_ops` stand on it, which names its calls again.
//!
//! Each call answers as its definition in `dt_model`, Operations and Combine, and the refusals come
//! exactly where they come there: first the types, then the lengths. Each is linear in the cells
//! and touches each cell of its columns once; `contained` hashes its right side.
#![tactic(auto)]

mod choice;
mod fail;
mod joining;
mod membership;
mod places;
mod types;

pub use choice::choose;
pub use fail::OpFail;
pub use joining::concat;
pub use membership::contained;
pub use places::place_in;
pub use types::common;
