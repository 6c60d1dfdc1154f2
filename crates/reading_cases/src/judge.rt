//! What the script of a case is read to, held against what the case wants.
use crate::tokens::told_tokens;
use crate::trees::told_trees;
use case_files::{Case, SCRIPT_NAME, compare};
use dt_base::limits::MAX_SCRIPT_BYTES;
use std::alloc::{AllocError, Global};

/// What a script is read to: its spelling on `out`, or the line of its fault on `err`.
#[derive(Drop)]
pub struct Told {
    pub out: String,
    pub err: String,
}

impl Told {
    /// A script that reads.
    pub fn spelled(alloc: Global, out: String) -> Told {
        Told {
            out,
            err: String::new(alloc),
        }
    }

    /// A script that is refused.
    pub fn refused(alloc: Global, err: String) -> Told {
        Told {
            out: String::new(alloc),
            err,
        }
    }
}

/// What the words of a case ask for.
#[derive(Clone, Copy)]
enum Asked {
    Trees,
    Tokens,
}

/// The trees, where the case has no words of its own; the tokens where they are `tokens`.
fn asked_by(words: &[String]) -> Option<Asked> {
    let [word] = words else {
        return None;
    };
    match word.as_str() {
        SCRIPT_NAME => Some(Asked::Trees),
        "tokens" => Some(Asked::Tokens),
        _ => None,
    }
}

/// The script of a case that asks for its reading alone: it has no files and no status.
fn script_alone(case: &Case) -> Option<&[u8]> {
    let is_alone = case.status.is_none() && case.given.is_empty() && case.written.is_empty();
    match &case.script {
        Some(script) if is_alone => Some(script),
        _ => None,
    }
}

/// What the script of a case is read to; nothing where the case asks for anything else.
fn told_case(alloc: Global, case: &Case) -> Result<Option<Told>, AllocError> {
    let Some(script) = script_alone(case) else {
        return Ok(None);
    };
    if script.len() as u64 > MAX_SCRIPT_BYTES {
        return Ok(None);
    }
    match asked_by(&case.words) {
        Some(Asked::Trees) => Ok(Some(told_trees(alloc, script)?)),
        Some(Asked::Tokens) => Ok(Some(told_tokens(alloc, script)?)),
        None => Ok(None),
    }
}

/// All that differs from what the case wants, in words; nothing where it is right.
pub fn difference(alloc: Global, case: &Case) -> Result<String, AllocError> {
    let Some(Told { out, err }) = told_case(alloc, case)? else {
        return String::from_str(alloc, "it asks for more than a reading\n");
    };
    let mut told = String::new(alloc);
    compare(alloc, &mut told, "out", out.as_bytes(), &case.out)?;
    compare(alloc, &mut told, "err", err.as_bytes(), &case.err)?;
    Ok(told)
}
