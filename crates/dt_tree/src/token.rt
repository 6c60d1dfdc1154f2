use dt_base::Text;

/// A word that is a value.
#[derive(Clone, Copy)]
pub enum Literal {
    True,
    False,
    Na,
    /// `NA_integer_`
    NaInt,
    /// `NA_character_`
    NaChr,
    Null,
    /// `Inf`
    Infinite,
}

/// A symbol.
#[derive(Clone, Copy)]
pub enum Sign {
    /// `%in%`
    In,
    /// `%/%`
    Div,
    /// `%%`
    Mod,
    /// `<-`
    Arrow,
    /// `:=`
    Assign,
    /// `==`
    Eq,
    /// `!=`
    Ne,
    /// `<=`
    Le,
    /// `>=`
    Ge,
    /// `(`
    Open,
    /// `)`
    Shut,
    /// `[`
    OpenSquare,
    /// `]`
    ShutSquare,
    /// `,`
    Comma,
    /// `;`
    Semi,
    /// `+`
    Plus,
    /// `-`
    Minus,
    /// `*`
    Times,
    /// `<`
    Lt,
    /// `>`
    Gt,
    /// `&`
    And,
    /// `|`
    Or,
    /// `!`
    Bang,
    /// `:`
    Range,
    /// `~`
    Tilde,
    /// `=`
    Is,
}

/// One token of a script. A break is a line feed or `;`, with the least line that the next token
/// may stand on.
#[derive(Drop)]
pub enum Token {
    Name(Text),
    Word(Literal),
    Int(i64),
    Chr(Text),
    Sign(Sign),
    Break(u32),
}

/// A place in a script: the line, and the byte in its line. Both count from 1.
#[derive(Clone, Copy, PartialEq, Eq)]
pub struct Place {
    pub line: u32,
    pub byte: u32,
}

/// A token and the place of its first byte.
#[derive(Drop)]
pub struct Placed {
    pub at: Place,
    pub token: Token,
}
