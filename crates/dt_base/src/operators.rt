/// A two-sided operator whose sides are taken place by place.
#[derive(Clone, Copy)]
pub enum Op {
    Add,
    Sub,
    Mul,
    /// `%/%`
    Div,
    /// `%%`
    Mod,
    Eq,
    Ne,
    Lt,
    Le,
    Gt,
    Ge,
    And,
    Or,
}

/// A one-sided operator, or `is.na`.
#[derive(Clone, Copy)]
pub enum UnOp {
    Neg,
    Not,
    IsNa,
}
