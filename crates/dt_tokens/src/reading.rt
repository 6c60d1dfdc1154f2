ghost use Rattle.std.specs.Prelude.{◌≡◌, ◌≤◌, ◌<◌, ◌+◌, ◌^◌, length, drop, IfOk, IfErr, OnOk};
ghost use Rattle.std.specs.Prelude.{IsUtf8};
ghost use Rattle.run_model.specs.Tokens.{too_deep, unmarked, AreTokens};
ghost use Rattle.dt_tokens.specs.Fails.{FailsAs};

use crate::cut::{cut, deeper};
use dt_base::limits::MAX_NESTING;
use dt_tree::{Place, Placed, ScriptFault};
use std::alloc::{AllocError, Global};
use std::str;

/// Why the tokens of a script are not given.
#[derive(Drop)]
pub enum TokensFail {
    /// The script's first fault.
    Fault(ScriptFault),
    /// Want of memory, which may come at any point of the call.
    NoMemory(AllocError),
}

/// The text without a byte order mark at its start.
fn unmarked(s: &str) -> &[u8]
    ensures value { result.now ≡ unmarked s.now }
    ensures text { IsUtf8 result.now }
{
    let bytes = s.as_bytes();
    if bytes.starts_with(b"\xEF\xBB\xBF") {
        let (_, rest) = bytes.split_at(3);
        rest
    } else {
        bytes
    }
}

/// The place of the first token with which more than 64 brackets are open.
fn too_deep(tokens: &[Placed]) -> Option<Place>
    ensures { result ≡ too_deep 0 tokens.now }
{
    let mut depth = 0;
    for token in tokens {
        depth = deeper(depth, &token.token);
        if depth as usize > MAX_NESTING {
            return Some(token.at);
        }
    }
    None
}

/// The tokens of a script in order, each with the place of its first byte.
///
/// Lines count from 1, and bytes from 1 in their line, after one byte order mark at the start is
/// dropped. A break, which is a line feed or `;`, has the least line of the next token.
///
/// Refused, in this order: a script that is not UTF-8; the first bad character, escape or form of a
/// number, text without an end, or integer past the limit; the first bracket with which more than
/// 64 are open. Nothing is given then.
///
/// Time and memory are linear in the bytes. dtq's own rule, docs/LANGUAGE.md, section Tokens.
pub fn tokens(alloc: Global, script: &[u8]) -> Result<Vec<Placed>, TokensFail>
    requires { length script.now < 2 ^ 31 }
    ensures tokens { IfOk result (λ v. AreTokens script.now v.items) }
    ensures fault { IfErr result (FailsAs script.now) }
{
    let Ok(text) = str::from_utf8(script) else {
        return Err(TokensFail::Fault(ScriptFault::NotUtf8));
    };
    match cut(alloc, unmarked(text)) {
        Err(e) => Err(TokensFail::NoMemory(e)),
        Ok(Err(fault)) => Err(TokensFail::Fault(fault)),
        Ok(Ok(found)) => match too_deep(found.as_slice()) {
            Some(at) => Err(TokensFail::Fault(ScriptFault::TooDeep(at))),
            None => Ok(found),
        },
    }
}
