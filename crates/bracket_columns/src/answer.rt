use dt_base::Warns;
use dt_table::Table;
use valued::Valued;

/// A new table, and the warnings of the values in it.
#[derive(Drop)]
pub struct NewTable {
    pub table: Table,
    pub warns: Warns,
}

/// What an expression gives as j: a new table, or a vector, with the warnings.
#[derive(Drop)]
pub enum Computed {
    Table(NewTable),
    Vector(Valued),
}
