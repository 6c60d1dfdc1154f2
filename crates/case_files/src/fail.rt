use std::alloc::{AllocError, AllocFailed};

/// Why a file of cases was not read.
#[derive(Drop)]
pub enum CasesFail {
    /// A line, counted from 1, and what is wrong there. Of a case as a whole it is the line that
    /// begins it, and of the whole file 0.
    Wrong(usize, Wrong),
    NoMemory(AllocError),
}

/// What is wrong with a file of cases.
#[derive(Clone, Copy)]
pub enum Wrong {
    NotText,
    NotAMark,
    NotHexadecimal,
    OutsidePart,
    OutsideCase,
    LateBefore,
    PartTwice,
    FileTwice,
    NameTwice,
    WordsNotText,
    NothingToRun,
    NothingWanted,
    NoCase,
}

impl Wrong {
    /// It in words.
    pub fn message(self) -> &'static str {
        match self {
            Wrong::NotText => "not UTF-8",
            Wrong::NotAMark => "not a line of a file of cases",
            Wrong::NotHexadecimal => "not pairs of hexadecimal digits",
            Wrong::OutsidePart => "text outside a part",
            Wrong::OutsideCase => "a part ahead of the first case",
            Wrong::LateBefore => "'before' behind a case",
            Wrong::PartTwice => "a part twice",
            Wrong::FileTwice => "a file twice",
            Wrong::NameTwice => "two cases of one name",
            Wrong::WordsNotText => "words that are not UTF-8",
            Wrong::NothingToRun => "a case without a script and without words",
            Wrong::NothingWanted => "a case that wants nothing",
            Wrong::NoCase => "no case",
        }
    }
}

impl From<AllocError> for CasesFail {
    fn from(error: AllocError) -> CasesFail {
        CasesFail::NoMemory(error)
    }
}

impl<T: Drop> From<AllocFailed<T>> for CasesFail {
    fn from(refused: AllocFailed<T>) -> CasesFail {
        CasesFail::NoMemory(AllocError::from(refused))
    }
}
