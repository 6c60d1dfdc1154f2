//! A case while its lines are read.
use crate::case::{Case, SCRIPT_NAME};
use crate::fail::{CasesFail, Wrong};
use crate::mark::Part;
use dt_base::Text;
use std::alloc::{AllocError, Global};

/// Where the lines of text go.
#[derive(Clone, Copy)]
enum Open {
    Nothing,
    Part(Part),
    Given,
    Written,
}

/// The parts of a case that were read so far.
#[derive(Drop)]
pub struct Draft {
    alloc: Global,
    name: Text,
    line: usize,
    script: Option<Vec<u8>>,
    words: Option<Vec<u8>>,
    status: Option<u8>,
    out: Option<Vec<u8>>,
    err: Option<Vec<u8>>,
    given: Vec<(Text, Vec<u8>)>,
    written: Vec<(Text, Vec<u8>)>,
    open: Open,
}

/// Begins a part, if it stands for the first time.
fn begin(alloc: Global, part: &mut Option<Vec<u8>>, line: usize) -> Result<(), CasesFail> {
    if part.is_some() {
        return Err(CasesFail::Wrong(line, Wrong::PartTwice));
    }
    *part = Some(Vec::new(alloc));
    Ok(())
}

/// More bytes of a part that was begun.
fn extend(part: &mut Option<Vec<u8>>, bytes: &[u8]) -> Result<(), AllocError> {
    match part {
        Some(held) => held.extend_from_slice(bytes),
        None => Ok(()),
    }
}

/// Whether one of the files has this name.
fn is_among(files: &[(Text, Vec<u8>)], name: &str) -> bool {
    files.iter().any(|file| file.0.as_str() == name)
}

/// Begins a file, if its name stands for the first time.
fn begin_file(
    alloc: Global,
    files: &mut Vec<(Text, Vec<u8>)>,
    name: &str,
    line: usize,
) -> Result<(), CasesFail> {
    if is_among(files, name) {
        return Err(CasesFail::Wrong(line, Wrong::FileTwice));
    }
    files.push((Text::make(alloc, name)?, Vec::new(alloc)))?;
    Ok(())
}

/// More bytes of the last file.
fn extend_last(files: &mut Vec<(Text, Vec<u8>)>, bytes: &[u8]) -> Result<(), AllocError> {
    match files.last_mut() {
        Some(file) => file.1.extend_from_slice(bytes),
        None => Ok(()),
    }
}

impl Draft {
    /// A case of this name, which begins on this line and has no part yet.
    pub fn new(alloc: Global, name: &str, line: usize) -> Result<Draft, AllocError> {
        Ok(Draft {
            alloc,
            name: Text::make(alloc, name)?,
            line,
            script: None,
            words: None,
            status: None,
            out: None,
            err: None,
            given: Vec::new(alloc),
            written: Vec::new(alloc),
            open: Open::Nothing,
        })
    }

    /// A part of it follows.
    pub fn begin_part(&mut self, part: Part, line: usize) -> Result<(), CasesFail> {
        self.open = Open::Part(part);
        match part {
            Part::Script => begin(self.alloc, &mut self.script, line),
            Part::Words => begin(self.alloc, &mut self.words, line),
            Part::Output => begin(self.alloc, &mut self.out, line),
            Part::Errors => begin(self.alloc, &mut self.err, line),
        }
    }

    /// A file follows that is there before the run.
    pub fn begin_given(&mut self, name: &str, line: usize) -> Result<(), CasesFail> {
        self.open = Open::Given;
        begin_file(self.alloc, &mut self.given, name, line)
    }

    /// A file follows that is there after it.
    pub fn begin_written(&mut self, name: &str, line: usize) -> Result<(), CasesFail> {
        self.open = Open::Written;
        begin_file(self.alloc, &mut self.written, name, line)
    }

    /// The exit number. It ends the part before it.
    pub fn set_status(&mut self, number: u8, line: usize) -> Result<(), CasesFail> {
        if self.status.is_some() {
            return Err(CasesFail::Wrong(line, Wrong::PartTwice));
        }
        self.status = Some(number);
        self.open = Open::Nothing;
        Ok(())
    }

    /// More bytes of the part that was begun last.
    pub fn add(&mut self, bytes: &[u8], line: usize) -> Result<(), CasesFail> {
        match self.open {
            Open::Nothing => return Err(CasesFail::Wrong(line, Wrong::OutsidePart)),
            Open::Part(Part::Script) => extend(&mut self.script, bytes)?,
            Open::Part(Part::Words) => extend(&mut self.words, bytes)?,
            Open::Part(Part::Output) => extend(&mut self.out, bytes)?,
            Open::Part(Part::Errors) => extend(&mut self.err, bytes)?,
            Open::Given => extend_last(&mut self.given, bytes)?,
            Open::Written => extend_last(&mut self.written, bytes)?,
        }
        Ok(())
    }

    /// What is wrong with it as a whole, if anything is.
    fn wrong(&self) -> Option<Wrong> {
        let wants_text = self.out.is_some() || self.err.is_some();
        if self.script.is_none() && self.words.is_none() {
            Some(Wrong::NothingToRun)
        } else if !wants_text && self.status.is_none() && self.written.is_empty() {
            Some(Wrong::NothingWanted)
        } else if self.script.is_some() && is_among(&self.given, SCRIPT_NAME) {
            Some(Wrong::FileTwice)
        } else {
            None
        }
    }

    /// The case, whose script stands behind these statements.
    pub fn finished(self, before: &[u8]) -> Result<Case, CasesFail> {
        if let Some(wrong) = self.wrong() {
            return Err(CasesFail::Wrong(self.line, wrong));
        }
        let Draft {
            alloc,
            name,
            line,
            script,
            words,
            status,
            out,
            err,
            given,
            written,
            open: _,
        } = self;
        Ok(Case {
            name,
            line,
            script: whole_script(alloc, before, script)?,
            words: all_words(alloc, words, line)?,
            status,
            out: out.unwrap_or(Vec::new(alloc)),
            err: err.unwrap_or(Vec::new(alloc)),
            given,
            written,
        })
    }
}

/// A script behind the statements that stand ahead of it.
fn whole_script(
    alloc: Global,
    before: &[u8],
    script: Option<Vec<u8>>,
) -> Result<Option<Vec<u8>>, AllocError> {
    match script {
        Some(own) => {
            let mut whole = Vec::from_slice(alloc, before)?;
            whole.extend_from_slice(&own)?;
            Ok(Some(whole))
        }
        None => Ok(None),
    }
}

/// The words of the part, or else the script's name.
fn all_words(alloc: Global, words: Option<Vec<u8>>, line: usize) -> Result<Vec<String>, CasesFail> {
    match words {
        None => Ok(words_in(alloc, SCRIPT_NAME)?),
        Some(bytes) => match str::from_utf8(&bytes) {
            Ok(text) => Ok(words_in(alloc, text)?),
            Err(_) => Err(CasesFail::Wrong(line, Wrong::WordsNotText)),
        },
    }
}

/// The lines of a text, each without its line feed.
fn words_in(alloc: Global, text: &str) -> Result<Vec<String>, AllocError> {
    let mut words = Vec::new(alloc);
    for line in text.split_inclusive('\n') {
        let word = line.strip_suffix('\n').unwrap_or(line);
        words.push(String::from_str(alloc, word)?)?;
    }
    Ok(words)
}
