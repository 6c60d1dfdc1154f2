use crate::Token;

/// A class of bytes: what a piece of a script goes on with.
#[derive(Clone, Copy)]
pub enum Class {
    /// A letter, a digit, `.` or `_`: what a name goes on with.
    Name,
    Digit,
    /// A space, a tab or a carriage return.
    Blank,
    /// Not a line feed: what a comment goes on with.
    Line,
    /// Neither a line feed nor a backquote: what a name between backquotes goes on with.
    Quoted,
}

/// What begins with a byte.
#[derive(Clone, Copy)]
pub enum Start {
    /// A name or a literal.
    Word,
    Number,
    Text,
    /// A name between backquotes.
    Quoted,
    Comment,
    /// A line feed.
    Feed,
    Blank,
    /// A symbol, or nothing.
    Sign,
}

/// A piece of a script. Layout is blanks, or a comment without its line feed.
#[derive(Drop)]
pub enum Piece {
    Layout,
    /// A line feed, which may be a token or none.
    Feed,
    Spelled(Token),
}

/// What a text begins with.
#[derive(Drop)]
pub enum First {
    /// A piece, and how many bytes it has.
    Found { piece: Piece, len: usize },
    /// No piece: the fault stands so many bytes after the first.
    Bad { offset: usize },
    /// An integer past the limit.
    PastLimit,
}

/// What stands before a piece: how many brackets are open, and whether the last token goes on
/// over a line feed.
#[derive(Clone, Copy)]
pub struct Before {
    pub depth: u32,
    pub joins: bool,
}
