//! Tests of calls on columns, tables and their names that no script reaches.
//!
//! - `columns`, `tables`, `orders`: calls that no statement makes yet, and spare room.
//! - `names`: numbers of tables that are never used again, where their places are.
//! - `printing`: the texts of faults that nothing gives yet.
//!
//! It promises nothing. They stand here and not in the crates whose calls they make, since a crate
//! with tests is proved twice.
#![tactic(auto)]

#[cfg(test)]
mod tests;
