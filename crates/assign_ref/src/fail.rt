use std::alloc::AllocError;

/// Why there is no change, in the order in which it is looked at. Targets are counted from 0.
#[derive(Drop)]
pub enum ChangeFail {
    /// The name of this target stands before it too.
    Duplicate { t: usize },
    /// This target deletes what is no column.
    Unknown { t: usize },
    /// This target deletes a column, and rows are chosen.
    Delete { t: usize },
    /// The value of this target has this length, in place of 1 or the other.
    Length { t: usize, got: u64, want: u64 },
    /// There would be more columns than these slots.
    Slots { slots: u64 },
    /// There would be more than 67,108,864 cells.
    TooManyCells,
    NoMemory(AllocError),
}

impl From<AllocError> for ChangeFail {
    ghost use Rattle.std.specs.Prelude.{◌≡◌};
    ghost use Rattle.assign_ref.specs.declared.fail.ChangeFail.TheVariants.{NoMemory};

    ghost from_gives = { λ e f. f ≡ NoMemory e };

    fn from(e: AllocError) -> ChangeFail {
        ChangeFail::NoMemory(e)
    }
}
