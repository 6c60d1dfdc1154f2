//! What a run left, held against what its case wants.
use crate::ended::Ended;
use crate::folder::Folder;
use case_files::{Case, SCRIPT_NAME, compare};
use dt_base::Text;
use std::alloc::{AllocError, Global};

/// All that differs from what the case wants, in words; nothing where the run was right.
pub fn differences(alloc: Global, case: &Case, ended: Ended) -> Result<String, AllocError> {
    let Ended {
        status,
        mut folder,
        out,
        err,
    } = ended;
    let mut told = String::new(alloc);
    compare_status(alloc, &mut told, status.number(), case.wanted_status())?;
    compare(alloc, &mut told, "standard output", out.bytes(), &case.out)?;
    compare(alloc, &mut told, "standard error", err.bytes(), &case.err)?;
    compare_folder(alloc, &mut told, case, &mut folder)?;
    Ok(told)
}

fn compare_status(alloc: Global, told: &mut String, has: u8, wants: u8) -> Result<(), AllocError> {
    if has == wants {
        return Ok(());
    }
    let line = format!(in alloc; "the status is {has} and not {wants}\n")?;
    told.push_str(line.as_str())
}

/// Compares each file that must be there after the run, and finds those that must not.
fn compare_folder(
    alloc: Global,
    told: &mut String,
    case: &Case,
    folder: &mut Folder,
) -> Result<(), AllocError> {
    if let Some(script) = &case.script {
        compare_kept(alloc, told, case, folder, SCRIPT_NAME, script)?;
    }
    for file in &case.given {
        compare_kept(alloc, told, case, folder, file.0.as_str(), &file.1)?;
    }
    for file in &case.written {
        compare_file(alloc, told, folder, file.0.as_str(), &file.1)?;
    }
    find_others(alloc, told, case, folder)
}

/// A file that is there before the run has its bytes after it, where the case says nothing else.
fn compare_kept(
    alloc: Global,
    told: &mut String,
    case: &Case,
    folder: &mut Folder,
    name: &str,
    wants: &[u8],
) -> Result<(), AllocError> {
    if is_among(&case.written, name) {
        return Ok(());
    }
    compare_file(alloc, told, folder, name, wants)
}

fn compare_file(
    alloc: Global,
    told: &mut String,
    folder: &mut Folder,
    name: &str,
    wants: &[u8],
) -> Result<(), AllocError> {
    match folder.bytes(name)? {
        Some(has) => compare(alloc, told, name, &has, wants),
        None => tell_file(alloc, told, name, "is not there"),
    }
}

/// Tells the files that were written and that the case does not know.
fn find_others(
    alloc: Global,
    told: &mut String,
    case: &Case,
    folder: &Folder,
) -> Result<(), AllocError> {
    for name in folder.written() {
        if !is_known(case, name.as_str()) {
            tell_file(alloc, told, name.as_str(), "is written too")?;
        }
    }
    Ok(())
}

fn tell_file(alloc: Global, told: &mut String, name: &str, what: &str) -> Result<(), AllocError> {
    let line = format!(in alloc; "the file {name} {what}\n")?;
    told.push_str(line.as_str())
}

/// Whether the case says what this file holds after the run.
fn is_known(case: &Case, name: &str) -> bool {
    name == SCRIPT_NAME && case.script.is_some()
        || is_among(&case.given, name)
        || is_among(&case.written, name)
}

fn is_among(files: &[(Text, Vec<u8>)], name: &str) -> bool {
    files.iter().any(|file| file.0.as_str() == name)
}
