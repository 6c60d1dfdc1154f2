ghost use Rattle.std.specs.Prelude.{◌≡◌, ◌≤◌, ◌<◌, ◌^◌, length, IfOk, IfErr};
ghost use Rattle.run_model.specs.TokenView.{plain_tokens};
ghost use Rattle.run_model.specs.Grammar.{IsScript};
ghost use Rattle.run_model.specs.Tokens.{AreTokens};
ghost use Rattle.run_model.specs.TreeView.{script_of};
ghost use Rattle.dt_script.specs.Answers.{Reads, IsOnlyReading, FailsAs, fail_of};

use crate::place::place_of;
use crate::reading::read;
use dt_base::limits::MAX_SCRIPT_BYTES;
use dt_misplaced::misplaced_at;
use dt_tokens::{TokensFail, tokens};
use dt_tree::{Placed, Script, ScriptFault};
use std::alloc::{AllocError, Global};

/// Why a script is refused. Lines and bytes count from 1.
#[derive(Drop)]
pub enum ParseFail {
    /// The bytes are not UTF-8.
    NotUtf8,
    /// A bad character, escape or form of a number, a text without an end, a token with which no
    /// script goes on, or an assignment in a wrong place.
    Syntax { line: u32, byte: u32 },
    /// An integer past the limit.
    Number { line: u32 },
    /// Brackets nest too deep.
    TooDeep { line: u32 },
    /// Want of memory, which may come at any point of the call.
    NoMemory(AllocError),
}

/// The script that the tokens spell, or the number of the first token of an assignment in a wrong
/// place.
fn placed_right(
    alloc: Global,
    tokens: &[Placed],
    script: Script,
) -> Result<Result<Script, usize>, AllocError>
    requires { IsScript (plain_tokens tokens.now) (script_of script) }
    ensures { IfOk result (Reads (plain_tokens tokens.now)) }
{
    match misplaced_at(alloc, tokens, &script)? {
        None => Ok(Ok(script)),
        Some(at) => Ok(Err(at)),
    }
}

/// The script that the tokens are, or the number of the token at fault.
fn judged(alloc: Global, tokens: &[Placed]) -> Result<Result<Script, usize>, AllocError>
    ensures { IfOk result (Reads (plain_tokens tokens.now)) }
{
    match read(alloc, tokens)? {
        Ok(stmts) => placed_right(alloc, tokens, Script { stmts }),
        Err(at) => Ok(Err(at)),
    }
}

/// How a fault is told.
fn refused(fault: ScriptFault) -> ParseFail
    ensures { result ≡ fail_of fault }
{
    match fault {
        ScriptFault::NotUtf8 => ParseFail::NotUtf8,
        ScriptFault::Syntax(at) => ParseFail::Syntax {
            line: at.line,
            byte: at.byte,
        },
        ScriptFault::Number(at) => ParseFail::Number { line: at.line },
        ScriptFault::TooDeep(at) => ParseFail::TooDeep { line: at.line },
    }
}

/// The script that the bytes are, which are these tokens.
fn script_of_tokens(alloc: Global, bytes: &[u8], tokens: &[Placed]) -> Result<Script, ParseFail>
    requires small { length bytes.now < 2 ^ 31 }
    requires cut { AreTokens bytes.now tokens.now }
    ensures script { IfOk result (IsOnlyReading bytes.now) }
    ensures fault { IfErr result (FailsAs bytes.now) }
{
    match judged(alloc, tokens) {
        Ok(Ok(script)) => Ok(script),
        Ok(Err(at)) => {
            let place = place_of(bytes, tokens, at);
            Err(refused(ScriptFault::Syntax(place)))
        }
        Err(error) => Err(ParseFail::NoMemory(error)),
    }
}

/// The script that the bytes are.
///
/// Refused, in this order: bytes that are not UTF-8; the first bad character, escape or form of a
/// number, text without an end, or integer past the limit; the first bracket with which more than
/// 64 are open; the first token with which no script goes on, or the end where the script is not
/// whole; the first `:=` or `[` of an assignment in a wrong place. Lines count from 1, and bytes
/// from 1 in their line, after one byte order mark at the start is dropped. A fault at the end
/// stands behind the last byte.
///
/// Time and memory are linear in the bytes. The stack grows with the nesting alone. dtq's own rule,
/// docs/LANGUAGE.md, sections Tokens and Grammar.
pub fn parse(alloc: Global, bytes: &[u8]) -> Result<Script, ParseFail>
    requires { length bytes.now ≤ MAX_SCRIPT_BYTES }
    ensures script { IfOk result (IsOnlyReading bytes.now) }
    ensures fault { IfErr result (FailsAs bytes.now) }
{
    match tokens(alloc, bytes) {
        Ok(found) => script_of_tokens(alloc, bytes, found.as_slice()),
        Err(TokensFail::Fault(fault)) => Err(refused(fault)),
        Err(TokensFail::NoMemory(error)) => Err(ParseFail::NoMemory(error)),
    }
}
