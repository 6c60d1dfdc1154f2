use dt_table::Table;
use na_vector::Column;

/// A table of a heap: its place, and its number, which no other table of the heap ever has. Two
/// names are bound to one table exactly where they have one Id.
#[derive(Clone, Copy, PartialEq, Eq)]
pub struct Id {
    pub(crate) slot: usize,
    pub(crate) number: u64,
}

/// What a name is bound to.
#[derive(Drop)]
pub(crate) enum Bound {
    Table(Id),
    Vector(Column),
}

/// A table and its number.
#[derive(Drop)]
pub(crate) struct Numbered {
    pub(crate) number: u64,
    pub(crate) table: Table,
}

/// What is found at a name.
#[derive(Clone, Copy)]
pub enum Look<'a> {
    /// The name is not bound.
    Absent,
    /// The name is bound to this table, which is live.
    Table(Id),
    /// The name is bound to this vector.
    Vector(&'a Column),
}
