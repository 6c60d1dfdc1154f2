//! What came of the cases so far.
use std::alloc::{AllocError, Global};

/// How many files, cases and long scripts are wrong, and what the first wrong case has and wants.
#[derive(Drop)]
pub struct Tally {
    wrong: u64,
    first: String,
}

impl Tally {
    /// Nothing is wrong yet.
    pub fn new(alloc: Global) -> Tally {
        Tally {
            wrong: 0,
            first: String::new(alloc),
        }
    }

    pub fn wrong(&self) -> u64 {
        self.wrong
    }

    /// The first wrong case with what it has and wants; empty where none is.
    pub fn first(&self) -> &str {
        self.first.as_str()
    }

    /// One more is wrong.
    pub fn count(&mut self) {
        self.wrong = self.wrong.saturating_add(1);
    }

    /// Keeps what is told of a wrong case, if it is the first.
    pub fn keep(&mut self, told: &str) -> Result<(), AllocError> {
        if self.first.is_empty() {
            self.first.push_str(told)?;
        }
        Ok(())
    }
}
