use dt_base::Warns;
use dt_table::{Change, Table};
use na_vector::Column;

/// What a bracket gives.
#[derive(Drop)]
pub enum Outcome {
    /// The table before the bracket itself.
    Same,
    /// A table of its own.
    Table(Table),
    Vector(Column),
    /// The table before the bracket, changed.
    Assigned(Change),
}

/// What a bracket gives, and its warnings.
#[derive(Drop)]
pub struct Answer {
    pub outcome: Outcome,
    pub warns: Warns,
}
