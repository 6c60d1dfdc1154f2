ghost use Rattle.std.specs.Prelude.{◌≡◌, IfOk};
ghost use Rattle.dt_base.specs.Fault.{fault};

use crate::Text;
use std::alloc::{AllocError, Global};

/// What a fault is about. The texts of the codes stand in the table of faults.
#[derive(Clone, Copy)]
pub enum Code {
    /// Syntax.
    E01,
    /// An unknown name.
    E02,
    /// An unknown column.
    E03,
    /// A wrong type.
    E04,
    /// A wrong length.
    E05,
    /// An integer overflow.
    E06,
    /// Too many rows.
    E07,
    /// Too many cells.
    E08,
    /// Too many columns.
    E09,
    /// No key.
    E10,
    /// A join of too many rows.
    E11,
    /// A duplicate name.
    E12,
    /// Positive and negative positions mixed.
    E13,
    /// A bad interval.
    E14,
    /// No such file.
    E15,
    /// A file that is too long.
    E16,
    /// A record with another number of fields.
    E17,
    /// Not UTF-8.
    E18,
    /// A bad argument.
    E19,
    /// Not a table.
    E20,
    /// Brackets nested too deep.
    E21,
    /// A number out of range.
    E22,
    /// No key of two columns.
    E23,
    /// Columns differ.
    E24,
}

/// Why a statement was refused: its code, the name, operator or argument at fault, and the numbers
/// that its text tells. What a text does not tell is empty or 0.
#[derive(Drop)]
pub struct Fault {
    pub code: Code,
    pub what: Text,
    pub n: u64,
    pub m: u64,
}

impl Fault {
    /// A fault that tells a name and no numbers.
    pub fn of(alloc: Global, code: Code, what: &str) -> Result<Fault, AllocError>
        ensures { IfOk result (λ f. f ≡ fault code what.now) }
    {
        Ok(Fault {
            code,
            what: Text::make(alloc, what)?,
            n: 0,
            m: 0,
        })
    }
}
