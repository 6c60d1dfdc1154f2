use std::alloc::AllocError;

/// A comparison of a join's condition, X's cell on the left and Y's on the right.
#[derive(Clone, Copy)]
pub enum Cmp {
    Eq,
    Ge,
    Gt,
    Le,
    Lt,
}

/// A condition of a join: a column of X, a column of Y, and how their cells compare. Columns count
/// from 0.
#[derive(Clone, Copy)]
pub struct Cond {
    pub x: usize,
    pub y: usize,
    pub cmp: Cmp,
}

/// Which of the matches of a row are taken.
#[derive(Clone, Copy)]
pub enum Mult {
    All,
    First,
    Last,
}

/// What a row without a match gives: a row of NA, or nothing.
#[derive(Clone, Copy)]
pub enum NoMatch {
    Na,
    Skip,
}

/// How a join rolls, with the greatest distance. `None` is no bound.
#[derive(Clone, Copy)]
pub enum Roll {
    Forward(Option<u64>),
    Backward(Option<u64>),
    Nearest,
}

/// The way to the rows of X: all of them, in the order of the key, or in the order of an index.
#[derive(Clone, Copy)]
pub enum Access<'a> {
    Scan,
    Key,
    Index(&'a [u32]),
}

/// The pairs of a join, in order: a row of Y, and a row of X or none. Both lists have one length.
/// Rows count from 0.
#[derive(Drop)]
pub struct Pairs {
    pub y: Vec<u32>,
    pub x: Vec<Option<u32>>,
}

/// Why a join is refused.
#[derive(Drop)]
pub enum JoinFail {
    BadType { cond: usize },
    Cartesian { rows: u64, limit: u64 },
    TooManyRows,
    NoMemory(AllocError),
}

/// An aggregate of a column.
#[derive(Clone, Copy)]
pub enum Agg {
    Sum,
    Min,
    Max,
    Length,
    First,
    Last,
}
