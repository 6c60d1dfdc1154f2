//! The trees of a script, in a compact spelling: the operands of an operator stand in braces.
ghost use Rattle.std.specs.Prelude.{◌≤◌, length};

use crate::judge::Told;
use dt_base::{Cell, ColType, Op, Text};
use dt_script::{Arg, BinOp, Bracket, Expr, ParseFail, Script, Second, Stmt, Tail, parse};
use sqlite_items::Items;
use std::alloc::{AllocError, Global};

fn add_cell(out: &mut String, cell: &Cell, kind: ColType) -> Result<(), AllocError> {
    match cell {
        Cell::Na => out.push_str(match kind {
            ColType::Lgl => "NA",
            ColType::Int => "NA_integer_",
            ColType::Chr => "NA_character_",
        }),
        Cell::Lgl(true) => out.push_str("TRUE"),
        Cell::Lgl(false) => out.push_str("FALSE"),
        Cell::Int(number) => write!(out, "{number}"),
        Cell::Text(text) => {
            out.push_str("\"")?;
            out.push_str(text.as_str())?;
            out.push_str("\"")
        }
    }
}

fn sign(op: BinOp) -> &'static str {
    match op {
        BinOp::Arith(Op::Add) => "+",
        BinOp::Arith(Op::Sub) => "-",
        BinOp::Arith(Op::Mul) => "*",
        BinOp::Arith(Op::Div) => "%/%",
        BinOp::Arith(Op::Mod) => "%%",
        BinOp::Arith(Op::Eq) => "==",
        BinOp::Arith(Op::Ne) => "!=",
        BinOp::Arith(Op::Lt) => "<",
        BinOp::Arith(Op::Le) => "<=",
        BinOp::Arith(Op::Gt) => ">",
        BinOp::Arith(Op::Ge) => ">=",
        BinOp::Arith(Op::And) => "&",
        BinOp::Arith(Op::Or) => "|",
        BinOp::In => "%in%",
        BinOp::Range => ":",
    }
}

fn add_names(out: &mut String, names: &Items<Text>) -> Result<(), AllocError> {
    for (i, name) in names.as_slice().iter().enumerate() {
        if i > 0 {
            out.push_str("+")?;
        }
        out.push_str(name.as_str())?;
    }
    Ok(())
}

#[cycle(spelling)]
fn add_tail(out: &mut String, tail: &Tail) -> Result<(), AllocError> {
    out.push_str(sign(tail.op))?;
    add_expr(out, &tail.arg)
}

#[cycle(spelling)]
fn add_arg(out: &mut String, arg: &Arg) -> Result<(), AllocError> {
    if let Some(name) = &arg.name {
        out.push_str(name.as_str())?;
        out.push_str("=")?;
    }
    add_expr(out, &arg.value)
}

#[cycle(spelling)]
fn add_args(out: &mut String, args: &[Arg]) -> Result<(), AllocError> {
    for (i, arg) in args.iter().enumerate() {
        if i > 0 {
            out.push_str(",")?;
        }
        add_arg(out, arg)?;
    }
    Ok(())
}

#[cycle(spelling)]
fn add_item(out: &mut String, item: &Option<Expr>) -> Result<(), AllocError> {
    match item {
        Some(expr) => add_expr(out, expr),
        None => Ok(()),
    }
}

#[cycle(spelling)]
fn add_second(out: &mut String, second: &Second) -> Result<(), AllocError> {
    match second {
        Second::Value(expr) => add_expr(out, expr),
        Second::Assign { left, right } => {
            add_expr(out, left)?;
            out.push_str(":=")?;
            add_expr(out, right)
        }
        Second::AssignAll { args } => {
            out.push_str(":=(")?;
            add_args(out, args.as_slice())?;
            out.push_str(")")
        }
    }
}

/// `[i|j|by]`, and behind a further `|` the arguments with a name, where there are any.
#[cycle(spelling)]
fn add_bracket(out: &mut String, bracket: &Bracket) -> Result<(), AllocError> {
    out.push_str("[")?;
    add_item(out, &bracket.first)?;
    out.push_str("|")?;
    if let Some(second) = &bracket.second {
        add_second(out, second)?;
    }
    out.push_str("|")?;
    add_item(out, &bracket.third)?;
    if !bracket.args.is_empty() {
        out.push_str("|")?;
        add_args(out, bracket.args.as_slice())?;
    }
    out.push_str("]")
}

#[cycle(spelling)]
fn add_signed(out: &mut String, front: &str, arg: &Expr) -> Result<(), AllocError> {
    out.push_str(front)?;
    add_expr(out, arg)?;
    out.push_str("}")
}

#[cycle(spelling)]
fn add_tails(out: &mut String, rest: &[Tail]) -> Result<(), AllocError> {
    for tail in rest {
        add_tail(out, tail)?;
    }
    Ok(())
}

#[cycle(spelling)]
fn add_brackets(out: &mut String, brackets: &[Bracket]) -> Result<(), AllocError> {
    for bracket in brackets {
        add_bracket(out, bracket)?;
    }
    Ok(())
}

#[cycle(spelling)]
fn add_expr(out: &mut String, expr: &Expr) -> Result<(), AllocError> {
    match expr {
        Expr::Lit { cell, kind } => add_cell(out, cell, *kind),
        Expr::Null => out.push_str("NULL"),
        Expr::Infinite => out.push_str("Inf"),
        Expr::Name { name } => out.push_str(name.as_str()),
        Expr::Paren { inner } => {
            out.push_str("(")?;
            add_expr(out, inner.get())?;
            out.push_str(")")
        }
        Expr::Minus { arg } => add_signed(out, "{-", arg.get()),
        Expr::Not { arg } => add_signed(out, "{!", arg.get()),
        Expr::Chain { first, rest } => {
            out.push_str("{")?;
            add_expr(out, first.get())?;
            add_tails(out, rest.as_slice())?;
            out.push_str("}")
        }
        Expr::Call { name, args } => {
            out.push_str(name.as_str())?;
            out.push_str("(")?;
            add_args(out, args.as_slice())?;
            out.push_str(")")
        }
        Expr::Query { head, brackets } => {
            add_expr(out, head.get())?;
            add_brackets(out, brackets.as_slice())
        }
        Expr::Formula { left, right } => {
            add_names(out, left)?;
            out.push_str("~")?;
            add_names(out, right)
        }
    }
}

/// A statement as `LINE:TREE` or `LINE:TARGET<-TREE`.
fn add_stmt(out: &mut String, stmt: &Stmt) -> Result<(), AllocError> {
    write!(out, "{}:", stmt.line)?;
    if let Some(target) = &stmt.target {
        out.push_str(target.as_str())?;
        out.push_str("<-")?;
    }
    add_expr(out, &stmt.expr)?;
    out.push_str("\n")
}

/// Each statement on a line of its own.
fn spelling(alloc: Global, script: &Script) -> Result<String, AllocError> {
    let mut out = String::new(alloc);
    for stmt in script.stmts.as_slice() {
        add_stmt(&mut out, stmt)?;
    }
    Ok(out)
}

/// The line of a fault, as `dtq --check` puts it.
fn fault_line(alloc: Global, fail: ParseFail) -> Result<String, AllocError> {
    match fail {
        ParseFail::NotUtf8 => {
            String::from_str(alloc, "Error E18 at line 0: not UTF-8 in the script\n")
        }
        ParseFail::Syntax { line, byte } => {
            format!(in alloc; "Error E01 at line {line}: syntax at byte {byte}\n")
        }
        ParseFail::Number { line } => {
            format!(in alloc; "Error E22 at line {line}: number out of range\n")
        }
        ParseFail::TooDeep { line } => {
            format!(in alloc; "Error E21 at line {line}: brackets nested deeper than 64\n")
        }
        ParseFail::NoMemory(error) => Err(error),
    }
}

/// The trees that a script is read to.
pub fn told_trees(alloc: Global, script: &[u8]) -> Result<Told, AllocError>
    requires { length script.now ≤ 1_048_576 }
{
    match parse(alloc, script) {
        Ok(read) => Ok(Told::spelled(alloc, spelling(alloc, &read)?)),
        Err(fail) => Ok(Told::refused(alloc, fault_line(alloc, fail)?)),
    }
}
