use dt_base::{Cell, ColType, Op, Text};
use sqlite_items::{Boxed, Items};

/// A two-sided operator.
#[derive(Clone, Copy)]
pub enum BinOp {
    Arith(Op),
    /// `%in%`
    In,
    /// `:`
    Range,
}

/// An operator and its right side.
#[cycle(tree)]
#[derive(Drop)]
pub struct Tail {
    pub op: BinOp,
    pub arg: Expr,
}

/// An argument, with its name where one is written.
#[cycle(tree)]
#[derive(Drop)]
pub struct Arg {
    pub name: Option<Text>,
    pub value: Expr,
}

/// What stands as j: a value, an assignment, or the call of `:=`.
#[cycle(tree)]
#[derive(Drop)]
pub enum Second {
    Value(Expr),
    Assign { left: Expr, right: Expr },
    AssignAll { args: Items<Arg> },
}

/// A bracket: i, j and by where they stand, and the arguments with a name.
#[cycle(tree)]
#[derive(Drop)]
pub struct Bracket {
    pub first: Option<Expr>,
    pub second: Option<Second>,
    pub third: Option<Expr>,
    pub args: Items<Arg>,
}

/// An expression. A chain has operators of one level, left to right.
#[cycle(tree)]
#[derive(Drop)]
pub enum Expr {
    Lit {
        cell: Cell,
        kind: ColType,
    },
    Null,
    Infinite,
    Name {
        name: Text,
    },
    Paren {
        inner: Boxed<Expr>,
    },
    Minus {
        arg: Boxed<Expr>,
    },
    Not {
        arg: Boxed<Expr>,
    },
    Chain {
        first: Boxed<Expr>,
        rest: Items<Tail>,
    },
    Call {
        name: Text,
        args: Items<Arg>,
    },
    Query {
        head: Boxed<Expr>,
        brackets: Items<Bracket>,
    },
    Formula {
        left: Items<Text>,
        right: Items<Text>,
    },
}

/// A statement: the line of its first token, the name that it assigns to, and its expression.
#[derive(Drop)]
pub struct Stmt {
    pub line: u32,
    pub target: Option<Text>,
    pub expr: Expr,
}

/// A script: its statements in order.
#[derive(Drop)]
pub struct Script {
    pub stmts: Items<Stmt>,
}
