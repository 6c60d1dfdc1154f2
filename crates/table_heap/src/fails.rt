/// The name is not bound.
#[derive(Clone, Copy)]
pub struct NotThere;

/// Why a name is given to nothing, in the order in which it is looked at.
#[derive(Clone, Copy)]
pub enum AliasFail {
    /// The other name is not bound.
    NotThere,
    /// The other name is bound to a vector.
    NotTable,
}
