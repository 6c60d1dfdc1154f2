ghost use Rattle.std.specs.Prelude.{◌≡◌, IfOk};
ghost use Rattle.dt_base.specs.Cell.{seen, IsOfType};

use crate::Text;
use std::alloc::{AllocError, Global};

/// The type of a column, lowest first: the common type of two is the higher one.
#[derive(Clone, Copy, PartialEq, Eq)]
pub enum ColType {
    Lgl,
    Int,
    Chr,
}

/// One cell: NA, or a value of one of the three types. No cell holds the integer -2^63.
#[derive(Drop)]
pub enum Cell {
    Na,
    Lgl(bool),
    Int(i64),
    Text(Text),
}

/// A cell that is only looked at.
#[derive(Clone, Copy)]
pub enum CellRef<'a> {
    Na,
    Lgl(bool),
    Int(i64),
    Text(&'a str),
}

impl Cell {
    /// The same cell, borrowed.
    pub fn as_ref(&self) -> CellRef<'_>
        ensures { seen result ≡ self.now }
    {
        match self {
            Cell::Na => CellRef::Na,
            Cell::Lgl(b) => CellRef::Lgl(*b),
            Cell::Int(n) => CellRef::Int(*n),
            Cell::Text(t) => CellRef::Text(t.as_str()),
        }
    }
}

impl CellRef<'_> {
    /// The same cell, owned. Only a text takes memory.
    pub fn to_cell(self, alloc: Global) -> Result<Cell, AllocError>
        ensures { IfOk result (λ c. c ≡ seen self.entry) }
    {
        Ok(match self {
            CellRef::Na => Cell::Na,
            CellRef::Lgl(b) => Cell::Lgl(b),
            CellRef::Int(n) => Cell::Int(n),
            CellRef::Text(s) => Cell::Text(Text::make(alloc, s)?),
        })
    }
}
