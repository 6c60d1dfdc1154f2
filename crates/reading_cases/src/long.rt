//! Scripts that are too long to be written down: neither the stack nor the time runs out.
use crate::tally::Tally;
use dt_base::limits::MAX_SCRIPT_BYTES;
use dt_script::{ParseFail, parse};
use std::alloc::{AllocError, Global};
use std::io;

/// A script of a front, a part so many times, and a back, and how many statements it has.
#[derive(Clone, Copy)]
struct Long {
    name: &'static str,
    front: &'static str,
    part: &'static str,
    times: usize,
    back: &'static str,
    stmts: usize,
}

/// The last one is as long as a script may be: 32,768 lines of 32 bytes.
const LONG: [Long; 7] = [
    Long {
        name: "a bracket of many arguments",
        front: "D[a,b,c",
        part: ",k=1",
        times: 200_000,
        back: "]",
        stmts: 1,
    },
    Long {
        name: "a call of many arguments",
        front: "f(1",
        part: ",2",
        times: 500_000,
        back: ")",
        stmts: 1,
    },
    Long {
        name: "a chain of many operators",
        front: "1",
        part: "+2",
        times: 500_000,
        back: "",
        stmts: 1,
    },
    Long {
        name: "many statements",
        front: "",
        part: "x = 1\n",
        times: 170_000,
        back: "",
        stmts: 170_000,
    },
    Long {
        name: "many brackets behind one another",
        front: "D",
        part: "[1]",
        times: 300_000,
        back: "",
        stmts: 1,
    },
    Long {
        name: "a formula of many names",
        front: "f(a",
        part: "+a",
        times: 500_000,
        back: "~b)",
        stmts: 1,
    },
    Long {
        name: "the longest script",
        front: "",
        part: "abc <- 12L %in% 'x\\n y' # no ab\n",
        times: 32_768,
        back: "",
        stmts: 32_768,
    },
];

fn text_of(alloc: Global, long: &Long) -> Result<String, AllocError> {
    let mut script = String::from_str(alloc, long.front)?;
    for _ in 0..long.times {
        script.push_str(long.part)?;
    }
    script.push_str(long.back)?;
    Ok(script)
}

/// Whether the script is read to so many statements.
fn is_read(alloc: Global, long: &Long) -> Result<bool, AllocError> {
    let script = text_of(alloc, long)?;
    if script.len() as u64 > MAX_SCRIPT_BYTES {
        return Ok(false);
    }
    match parse(alloc, script.as_bytes()) {
        Ok(read) => Ok(read.stmts.len() == long.stmts),
        Err(ParseFail::NoMemory(error)) => Err(error),
        Err(_) => Ok(false),
    }
}

/// Reads the long scripts, and tells how many there are.
pub fn run_long<R: Print + Eprint + AllocGlobal>(rt: &R, tally: &mut Tally) -> io::Result<()> {
    for long in &LONG {
        if !is_read(rt.alloc(), long)? {
            tally.count();
            eprintln!(rt; "FAILED long script: {}", long.name)?;
        }
    }
    println!(rt; "long scripts: {}", LONG.len())
}
