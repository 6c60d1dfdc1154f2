//! Tables: named columns of one length, with a key, indices and column slots.
//!
//! - `Table::make` takes the names and a frame, and refuses a name that stands twice, too many
//!   rows, too many cells and too many columns, in this order (`MakeFail`). `copy` gives the same
//!   table once more.
//! - `frame`, `names`, `name` and `place` read the columns and their names; `key`, `index_count`
//!   and `index` the orders that the table keeps; `slots` is how many columns it may have.
//! - `apply` makes a `Change`, whose `Part`s name columns by their places, and takes no memory once
//!   `reserve_change` has made the room; `preview` gives the table that it would leave. `is_named`
//!   tells whether parts name a column. `rename` gives columns other names.
//! - `reorder` puts the rows in another order, with a key that they have then; `reordered` gives a
//!   new table of them. `record_key` and `with_key` say that the rows already have a key;
//!   `drop_key` and `drop_indices` forget. `add_index` adds an index, and takes no memory once
//!   `reserve_index` has made the room.
//!
//! It stands on `dt_base`, `dt_model`, `order_model` and `na_vector`. It promises that the names of
//! every table are distinct and not empty, that rows, cells and columns are within their limits,
//! that the key is true and each index has the rows in the order of its columns (`IsTable`), and
//! that each call answers by the parts of the table that contracts see; `plain` is the plain
//! reading of these parts, row by row. Making is linear in the names, copying and reordering in the
//! cells, and `place` looks at the names in order.
#![tactic(auto)]

mod apply;
mod change;
mod copies;
mod index;
mod keys;
mod make;
mod orders;
mod parts;
mod room;
mod table;

pub use apply::is_named;
pub use change::{Change, Part};
pub use index::Index;
pub use make::MakeFail;
pub use table::Table;
