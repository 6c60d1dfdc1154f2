//! The tokens of a script, spelled.
ghost use Rattle.std.specs.Prelude.{◌<◌, ◌^◌, length};

use crate::judge::Told;
use dt_tokens::{TokensFail, tokens};
use dt_tree::{Literal, Placed, ScriptFault, Sign, Token};
use std::alloc::{AllocError, Global};

fn literal(literal: Literal) -> &'static str {
    match literal {
        Literal::True => "TRUE",
        Literal::False => "FALSE",
        Literal::Na => "NA",
        Literal::NaInt => "NA_integer_",
        Literal::NaChr => "NA_character_",
        Literal::Null => "NULL",
        Literal::Infinite => "Inf",
    }
}

fn sign(sign: Sign) -> &'static str {
    match sign {
        Sign::In => "%in%",
        Sign::Div => "%/%",
        Sign::Mod => "%%",
        Sign::Arrow => "<-",
        Sign::Assign => ":=",
        Sign::Eq => "==",
        Sign::Ne => "!=",
        Sign::Le => "<=",
        Sign::Ge => ">=",
        Sign::Open => "(",
        Sign::Shut => ")",
        Sign::OpenSquare => "[",
        Sign::ShutSquare => "]",
        Sign::Comma => ",",
        Sign::Semi => ";",
        Sign::Plus => "+",
        Sign::Minus => "-",
        Sign::Times => "*",
        Sign::Lt => "<",
        Sign::Gt => ">",
        Sign::And => "&",
        Sign::Or => "|",
        Sign::Bang => "!",
        Sign::Range => ":",
        Sign::Tilde => "~",
        Sign::Is => "=",
    }
}

/// A token as `LINE.BYTE=TOKEN`. A name stands between backquotes, a text between double quotes
/// with its meaning, and a break is `/` with its line.
fn add_token(out: &mut String, placed: &Placed) -> Result<(), AllocError> {
    write!(out, "{}.{}=", placed.at.line, placed.at.byte)?;
    match &placed.token {
        Token::Name(name) => write!(out, "`{}`", name.as_str()),
        Token::Word(word) => out.push_str(literal(*word)),
        Token::Int(n) => write!(out, "{n}"),
        Token::Chr(text) => write!(out, "\"{}\"", text.as_str()),
        Token::Sign(symbol) => out.push_str(sign(*symbol)),
        Token::Break(line) => write!(out, "/{line}"),
    }
}

/// The tokens of each line of a script on one line.
fn spelling(alloc: Global, found: &[Placed]) -> Result<String, AllocError> {
    let mut out = String::new(alloc);
    let mut line = 0;
    for placed in found {
        if !out.is_empty() {
            out.push_str(if placed.at.line == line { " " } else { "\n" })?;
        }
        line = placed.at.line;
        add_token(&mut out, placed)?;
    }
    if !out.is_empty() {
        out.push_str("\n")?;
    }
    Ok(out)
}

/// A fault, with the line and the byte where it stands.
fn fault_line(alloc: Global, fault: ScriptFault) -> Result<String, AllocError> {
    let (what, at) = match fault {
        ScriptFault::NotUtf8 => return String::from_str(alloc, "not UTF-8\n"),
        ScriptFault::Syntax(at) => ("syntax", at),
        ScriptFault::Number(at) => ("number", at),
        ScriptFault::TooDeep(at) => ("too deep", at),
    };
    format!(in alloc; "{what} {}.{}\n", at.line, at.byte)
}

/// The tokens that a script is read to.
pub fn told_tokens(alloc: Global, script: &[u8]) -> Result<Told, AllocError>
    requires { length script.now < 2 ^ 31 }
{
    match tokens(alloc, script) {
        Ok(found) => Ok(Told::spelled(alloc, spelling(alloc, &found)?)),
        Err(TokensFail::Fault(fault)) => Ok(Told::refused(alloc, fault_line(alloc, fault)?)),
        Err(TokensFail::NoMemory(error)) => Err(error),
    }
}
