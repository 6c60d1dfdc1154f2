use dt_base::{Cell, ColType, Text};
use dt_tree::{Arg, BinOp, Bracket, Expr, Second, Stmt, Tail};
use sqlite_items::Items;

/// A one-sided operator.
#[derive(Clone, Copy)]
pub enum Prefix {
    Not,
    Negate,
}

/// A token that ends all operators of what has come.
#[derive(Clone, Copy)]
pub enum End {
    /// `)`
    Round,
    /// `]`
    Square,
    Comma,
    /// The end of a line; the next token stands on this one.
    Break(u32),
    /// `:=`
    Assign,
    /// `~`
    Tilde,
}

/// A token as the grammar sees it.
#[derive(Drop)]
pub enum Symbol {
    Name(Text),
    Literal { cell: Cell, kind: ColType },
    Null,
    Infinite,
    Operator(BinOp),
    Bang,
    Arrow,
    Is,
    Open,
    OpenSquare,
    Semicolon,
    End(End),
}

/// What stands before a bracket: an expression that is no query, and the brackets behind it.
#[derive(Drop)]
pub struct Head {
    pub tree: Expr,
    pub brackets: Items<Bracket>,
}

/// What the items of a bracket have filled so far: nothing, i, j, or by as well, behind which only
/// items with a name may come.
#[derive(Drop)]
pub enum Filled {
    Nothing,
    UpToI {
        first: Option<Expr>,
    },
    UpToJ {
        first: Option<Expr>,
        second: Option<Second>,
    },
    UpToBy {
        first: Option<Expr>,
        second: Option<Second>,
        third: Option<Expr>,
        args: Items<Arg>,
    },
}

/// What has been begun and waits for an expression.
#[derive(Drop)]
pub enum Frame {
    /// A one-sided operator.
    Front(Prefix),
    /// A chain, up to its last operator.
    Left {
        first: Expr,
        rest: Items<Tail>,
        op: BinOp,
    },
    InParen,
    /// A call's argument, with its name where one is written.
    InCall {
        name: Text,
        args: Items<Arg>,
        target: Option<Text>,
    },
    /// An item of a bracket, without a name so far.
    InItem {
        head: Head,
        filled: Filled,
    },
    /// An item behind its name and `=`.
    InNamed {
        head: Head,
        filled: Filled,
        name: Text,
    },
    /// The second item behind `:=`.
    InAssign {
        head: Head,
        first: Option<Expr>,
        left: Expr,
    },
    /// A statement, behind those that are done.
    InStmt {
        done: Items<Stmt>,
        line: u32,
        target: Option<Text>,
    },
}

/// What a token makes of the innermost frame.
#[derive(Drop)]
pub enum Made {
    /// An expression has come in the frames around it.
    Have(Expr),
    /// A frame, in which an expression is to come.
    Want(Frame),
    /// A bracket, where the name of an item is to come.
    NeedName { head: Head, filled: Filled },
    /// A formula, where a name is to come.
    NeedWord(Formula),
}

/// A formula in the argument of a call, up to its last name: the call, its arguments so far, the
/// name of this one, and the names on both sides of `~`.
#[derive(Drop)]
pub struct Formula {
    pub call: Text,
    pub args: Items<Arg>,
    pub target: Option<Text>,
    pub left: Items<Text>,
    pub right: Items<Text>,
}

/// How far a script is read. The frames are what has been begun, the innermost last.
#[derive(Drop)]
pub enum State {
    /// An expression is to come.
    Want {
        frames: Vec<Frame>,
    },
    /// An expression has come, which brackets and operators may still go on with.
    Have {
        frames: Vec<Frame>,
        operand: Expr,
    },
    /// The name of an item is to come.
    NeedName {
        head: Head,
        filled: Filled,
        frames: Vec<Frame>,
    },
    /// The `=` behind the name of an item is to come.
    NeedIs {
        head: Head,
        filled: Filled,
        name: Text,
        frames: Vec<Frame>,
    },
    /// A name is to come, behind `~` or behind `+` in the names on its right.
    NeedWord {
        formula: Formula,
        frames: Vec<Frame>,
    },
    /// Names on the right of `~` have come, one or more.
    HaveWords {
        formula: Formula,
        frames: Vec<Frame>,
    },
}
