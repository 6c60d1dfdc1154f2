//! Operations on columns, with NA.
//!
//! - `binary`: arithmetic, comparisons and logic of two columns, place by place; `unary`: `-`, `!`
//!   and `is.na`. `op_type` says which types an operation takes and gives.
//! - `coerce`, of `na_words`: a column brought to a type, with the warnings of that.
//! - `common`, `concat`, `choose`, `contained`, of `na_common`: the common type, and `c` of two
//!   vectors, `fifelse` and `%in%` in it.
//!
//! The cases of types stand in tables, and one loop, `fill`, runs all operations over typed words:
//! an operation is a `Kernel`, which makes one word of two. A comparison of texts with another type
//! brings the other side to texts first. It stands on `na_words` and `na_common`.
//!
//! Each call answers as its definition in `dt_model`, Operations, and the refusals come exactly
//! where they come there: first the types, then the lengths, then the least place that is outside.
//! Each is linear in the cells and touches each cell of its columns once.
#![tactic(auto)]

mod arithmetic;
mod compare;
mod logic;
mod one_sided;
mod places;
mod two_sided;

pub use dt_base::{Op, UnOp};
pub use na_common::{OpFail, choose, common, concat, contained};
pub use na_words::coerce;
pub use one_sided::unary;
pub use two_sided::{binary, op_type};
