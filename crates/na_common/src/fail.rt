use std::alloc::AllocError;

/// Why an operation on columns is refused, in the order in which it is looked at.
#[derive(Drop)]
pub enum OpFail {
    /// The types have no result.
    BadType,
    /// Two lengths that do not go together.
    Length { left: usize, right: usize },
    /// The result at this place is outside the integers. Places count from 0, and this is the
    /// least.
    Overflow { place: usize },
    /// More than 16,777,216 cells.
    TooManyRows,
    /// Memory is not there.
    NoMemory(AllocError),
}
