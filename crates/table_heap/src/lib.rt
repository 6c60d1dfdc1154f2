//! Names, and the tables and vectors that they are bound to.
//!
//! - `Heap`: `look` finds what a name is bound to (`Look`); `table` and `table_mut` give the table
//!   of an `Id`, `live` the number of tables.
//! - `reserve` makes room for one binding. After it `bind_new`, `bind_vector`, `bind_table` and
//!   `alias` bind one name, and neither they nor `remove` can fail for want of memory. A table that
//!   loses its last name is dropped.
//! - `reserve_change` makes room for an index and a change of a table. After it `apply_change` takes
//!   no memory; nor do `rename`, `put_table`, `set_key`, `drop_key` and `drop_indices`. All names of
//!   the table see what they do.
//! - `laws::alike`: what the heap and its state have in common, name by name;
//!   `laws::plain_tables` and `laws::true_tables`: what is so of each table; `laws::same_heaps`:
//!   what is so of heaps that are the same but for spare numbers.
//!
//! It stands on `dt_base`, `dt_table`, `na_vector`, the states of `dt_model`, and on `indexmap` and
//! `slab`. Each table keeps a number that no other table ever has, so the meaning of a heap is a
//! state of the definitions, `state_of`, and every change is one equation of states: `bound_new`,
//! `bound_to`, `removed` or `with_table`. Names that are bound to one table have one `Id`, so a
//! change through one is seen by all of them and by no other (`Alike`). A place is used again after
//! its table is dropped, the number is not. A look-up hashes the name; binding a name that had a
//! table, and removing one, looks through all names once.
#![tactic(auto)]

mod altered;
mod bound;
mod changes;
mod fails;
mod heap;
pub mod laws;
mod names;
mod tables;

pub use bound::{Id, Look};
pub use fails::{AliasFail, NotThere};
pub use heap::Heap;
