//! The cases of a file, one after another.
use crate::judge::difference;
use crate::tally::Tally;
use case_files::{Case, CasesFail, read_cases};
use std::rt::Files;
use std::{fs, io};

/// Runs the cases of a file, and tells how many there are.
pub fn run_file<R: Files + Print + Eprint + AllocGlobal>(
    rt: &R,
    name: &str,
    tally: &mut Tally,
) -> io::Result<()> {
    let Ok(bytes) = fs::read(rt, name) else {
        tally.count();
        return eprintln!(rt; "{name}: the file can not be read");
    };
    match read_cases(rt.alloc(), &bytes) {
        Ok(cases) => run_cases(rt, name, &cases, tally),
        Err(CasesFail::Wrong(line, wrong)) => {
            tally.count();
            eprintln!(rt; "{name}, line {line}: {}", wrong.message())
        }
        Err(CasesFail::NoMemory(error)) => Err(io::Error::from(error)),
    }
}

fn run_cases<R: Print + Eprint + AllocGlobal>(
    rt: &R,
    file: &str,
    cases: &[Case],
    tally: &mut Tally,
) -> io::Result<()> {
    for case in cases {
        run_case(rt, file, case, tally)?;
    }
    println!(rt; "{file}: {} cases", cases.len())
}

/// Runs one case. If it is wrong, its name is told, and what it has and wants is kept.
fn run_case<R: Eprint + AllocGlobal>(
    rt: &R,
    file: &str,
    case: &Case,
    tally: &mut Tally,
) -> io::Result<()> {
    let told = difference(rt.alloc(), case)?;
    if told.is_empty() {
        return Ok(());
    }
    tally.count();
    let line = case.line;
    let name = case.name.as_str();
    let head = format!(in rt.alloc(); "FAILED {file}, line {line}: {name}\n{told}")?;
    tally.keep(head.as_str())?;
    eprintln!(rt; "FAILED {file}, line {line}: {name}")
}
