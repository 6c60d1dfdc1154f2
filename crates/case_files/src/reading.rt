//! A file of cases, line by line.
use crate::case::Case;
use crate::draft::Draft;
use crate::fail::{CasesFail, Wrong};
use crate::mark::{Mark, Part, bytes_of, mark_of};
use std::alloc::Global;

/// What was read of a file so far.
#[derive(Drop)]
struct Reading {
    alloc: Global,
    /// The statements ahead of each script.
    before: Option<Vec<u8>>,
    cases: Vec<Case>,
    /// The case whose lines are read.
    draft: Option<Draft>,
}

/// The cases of a file, in their order. The first line that is wrong refuses it.
pub fn read_cases(alloc: Global, bytes: &[u8]) -> Result<Vec<Case>, CasesFail> {
    let mut reading = Reading {
        alloc,
        before: None,
        cases: Vec::new(alloc),
        draft: None,
    };
    let mut number = 0usize;
    for line in bytes.split(|b| *b == b'\n') {
        number = number.saturating_add(1);
        reading.take(line, number)?;
    }
    reading.end_case()?;
    let Reading { cases, .. } = reading;
    if cases.is_empty() {
        return Err(CasesFail::Wrong(0, Wrong::NoCase));
    }
    Ok(cases)
}

impl Reading {
    /// One more line.
    fn take(&mut self, bytes: &[u8], line: usize) -> Result<(), CasesFail> {
        let Ok(text) = str::from_utf8(bytes) else {
            return Err(CasesFail::Wrong(line, Wrong::NotText));
        };
        let Some(mark) = mark_of(text) else {
            return Err(CasesFail::Wrong(line, Wrong::NotAMark));
        };
        match mark {
            Mark::Nothing => Ok(()),
            Mark::Before => self.begin_before(line),
            Mark::Case(name) => self.begin_case(name, line),
            Mark::Line(text) => self.add_line(text, line),
            Mark::Piece(text) => self.add(text.as_bytes(), line),
            Mark::Bytes(pairs) => self.add_pairs(pairs, line),
            Mark::Opens(part) => self.begin_part(part, line),
            Mark::Given(name) => self.begin_given(name, line),
            Mark::Written(name) => self.begin_written(name, line),
            Mark::Status(number) => self.set_status(number, line),
        }
    }

    fn begin_before(&mut self, line: usize) -> Result<(), CasesFail> {
        if self.draft.is_some() {
            return Err(CasesFail::Wrong(line, Wrong::LateBefore));
        }
        if self.before.is_some() {
            return Err(CasesFail::Wrong(line, Wrong::PartTwice));
        }
        self.before = Some(Vec::new(self.alloc));
        Ok(())
    }

    /// Ends the case before, and begins one of this name.
    fn begin_case(&mut self, name: &str, line: usize) -> Result<(), CasesFail> {
        self.end_case()?;
        if self.cases.iter().any(|case| case.name.as_str() == name) {
            return Err(CasesFail::Wrong(line, Wrong::NameTwice));
        }
        self.draft = Some(Draft::new(self.alloc, name, line)?);
        Ok(())
    }

    /// Ends the case whose lines were read, if there is one.
    fn end_case(&mut self) -> Result<(), CasesFail> {
        let Some(draft) = self.draft.take() else {
            return Ok(());
        };
        let case = match &self.before {
            Some(before) => draft.finished(before)?,
            None => draft.finished(&[])?,
        };
        self.cases.push(case)?;
        Ok(())
    }

    fn begin_part(&mut self, part: Part, line: usize) -> Result<(), CasesFail> {
        match &mut self.draft {
            Some(draft) => draft.begin_part(part, line),
            None => Err(CasesFail::Wrong(line, Wrong::OutsideCase)),
        }
    }

    fn begin_given(&mut self, name: &str, line: usize) -> Result<(), CasesFail> {
        match &mut self.draft {
            Some(draft) => draft.begin_given(name, line),
            None => Err(CasesFail::Wrong(line, Wrong::OutsideCase)),
        }
    }

    fn begin_written(&mut self, name: &str, line: usize) -> Result<(), CasesFail> {
        match &mut self.draft {
            Some(draft) => draft.begin_written(name, line),
            None => Err(CasesFail::Wrong(line, Wrong::OutsideCase)),
        }
    }

    fn set_status(&mut self, number: u8, line: usize) -> Result<(), CasesFail> {
        match &mut self.draft {
            Some(draft) => draft.set_status(number, line),
            None => Err(CasesFail::Wrong(line, Wrong::OutsideCase)),
        }
    }

    fn add_line(&mut self, text: &str, line: usize) -> Result<(), CasesFail> {
        self.add(text.as_bytes(), line)?;
        self.add(b"\n", line)
    }

    fn add_pairs(&mut self, pairs: &str, line: usize) -> Result<(), CasesFail> {
        match bytes_of(self.alloc, pairs)? {
            Some(bytes) => self.add(&bytes, line),
            None => Err(CasesFail::Wrong(line, Wrong::NotHexadecimal)),
        }
    }

    /// More bytes of the part that was begun last.
    fn add(&mut self, bytes: &[u8], line: usize) -> Result<(), CasesFail> {
        if let Some(draft) = &mut self.draft {
            return draft.add(bytes, line);
        }
        match &mut self.before {
            Some(before) => Ok(before.extend_from_slice(bytes)?),
            None => Err(CasesFail::Wrong(line, Wrong::OutsidePart)),
        }
    }
}
