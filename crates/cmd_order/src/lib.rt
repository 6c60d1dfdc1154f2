//! The commands that put a table's rows in order, or keep an order of them: `setkey`, `setorder`,
//! `setindex`; and `options`, which says whether a query may use such an order.
//!
//! - `set_key`, `set_order`, `set_index` and `set_options` give what such a call does, once its
//!   arguments are bound: the change of its table, or of the options; or its first fault.
//!
//! It stands on `table_argument` for the table, on `keys_index` for rows in order, and on
//! `stmt_change` for effects. It changes nothing itself: rows in another order are a new table. It
//! promises the effect of the definitions `set_key_effect`, `set_order_effect`, `set_index_effect`
//! and `options_effect`, and that the change fits the names and tables that it was computed from.
#![tactic(auto)]

mod arguments;
mod chosen;
mod columns;
mod indices;
mod keys;
mod option_flags;
mod orders;

pub use indices::set_index;
pub use keys::set_key;
pub use option_flags::set_options;
pub use orders::set_order;
