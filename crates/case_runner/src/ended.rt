//! One case is run.
use crate::folder::Folder;
use case_files::{Case, SCRIPT_NAME};
use dt_base::{Steps, Text};
use dt_run::{Status, run};
use dt_world::MemSink;
use std::alloc::{AllocError, Global};
use std::sync::ledger::Ledger;

/// What a run of a case left.
#[derive(Drop)]
pub struct Ended {
    pub status: Status,
    pub folder: Folder,
    pub out: MemSink,
    pub err: MemSink,
}

/// Runs the case over its script and its files in memory.
pub fn run_case<L: Ledger>(
    alloc: Global,
    case: &Case,
    steps: &mut Steps<L>,
) -> Result<Ended, AllocError> {
    let mut folder = Folder::new(alloc, files_before(alloc, case)?);
    let mut out = MemSink::new(alloc, Vec::new(alloc));
    let mut err = MemSink::new(alloc, Vec::new(alloc));
    let status = run(alloc, &case.words, &mut folder, &mut out, &mut err, steps);
    Ok(Ended {
        status,
        folder,
        out,
        err,
    })
}

/// The files that are there before the run: the script, if there is one, and those that are given.
fn files_before(alloc: Global, case: &Case) -> Result<Vec<(Text, Vec<u8>)>, AllocError> {
    let mut files = Vec::new(alloc);
    if let Some(script) = &case.script {
        add_file(alloc, &mut files, SCRIPT_NAME, script)?;
    }
    for file in &case.given {
        add_file(alloc, &mut files, file.0.as_str(), &file.1)?;
    }
    Ok(files)
}

fn add_file(
    alloc: Global,
    files: &mut Vec<(Text, Vec<u8>)>,
    name: &str,
    bytes: &[u8],
) -> Result<(), AllocError> {
    files.push((Text::make(alloc, name)?, bytes.to_vec(alloc)?))?;
    Ok(())
}
