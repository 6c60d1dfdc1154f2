//! What one line of a file of cases says.
use std::alloc::{AllocError, Global};

/// A part of a case that stands in it once.
#[derive(Clone, Copy)]
pub enum Part {
    Script,
    Words,
    Output,
    Errors,
}

/// What a line says.
#[derive(Clone, Copy)]
pub enum Mark<'a> {
    /// It is empty, or a remark.
    Nothing,
    /// The statements ahead of each script follow.
    Before,
    /// A case of this name begins.
    Case(&'a str),
    /// A part of the case follows.
    Opens(Part),
    /// The bytes of a file follow that is there before the run.
    Given(&'a str),
    /// The bytes of a file follow that is there after it.
    Written(&'a str),
    /// The exit number.
    Status(u8),
    /// A line of the part, without its line feed.
    Line(&'a str),
    /// A piece of the part.
    Piece(&'a str),
    /// Pairs of hexadecimal digits.
    Bytes(&'a str),
}

/// What a line says, if it is one of a file of cases.
pub fn mark_of(line: &str) -> Option<Mark<'_>> {
    if line.is_empty() || line == "#" || line.starts_with("# ") {
        return Some(Mark::Nothing);
    }
    if let Some(text) = line.strip_prefix('|') {
        return Some(Mark::Line(text));
    }
    if let Some(text) = line.strip_prefix('>') {
        return Some(Mark::Piece(text));
    }
    if let Some(text) = line.strip_prefix('=') {
        return Some(Mark::Bytes(text));
    }
    match line.split_once(' ') {
        Some((word, rest)) => mark_with(word, rest),
        None => mark_alone(line),
    }
}

fn mark_alone(word: &str) -> Option<Mark<'_>> {
    match word {
        "before" => Some(Mark::Before),
        "script" => Some(Mark::Opens(Part::Script)),
        "words" => Some(Mark::Opens(Part::Words)),
        "out" => Some(Mark::Opens(Part::Output)),
        "err" => Some(Mark::Opens(Part::Errors)),
        _ => None,
    }
}

/// A mark with what stands behind it, which is not empty.
fn mark_with<'a>(word: &str, rest: &'a str) -> Option<Mark<'a>> {
    if rest.is_empty() {
        return None;
    }
    match word {
        "case" => Some(Mark::Case(rest)),
        "file" => Some(Mark::Given(rest)),
        "wrote" => Some(Mark::Written(rest)),
        "status" => status(rest),
        _ => None,
    }
}

/// An exit number in digits.
fn status<'a>(text: &str) -> Option<Mark<'a>> {
    if !text.bytes().all(|b| b.is_ascii_digit()) {
        return None;
    }
    match text.parse::<u8>() {
        Ok(number) => Some(Mark::Status(number)),
        Err(_) => None,
    }
}

/// The bytes that pairs of hexadecimal digits with a blank between them stand for, if they are
/// such.
pub fn bytes_of(alloc: Global, pairs: &str) -> Result<Option<Vec<u8>>, AllocError> {
    let mut bytes = Vec::new(alloc);
    for pair in pairs.split(' ') {
        match byte_of(pair) {
            Some(byte) => bytes.push(byte)?,
            None => return Ok(None),
        }
    }
    Ok(Some(bytes))
}

fn byte_of(pair: &str) -> Option<u8> {
    if pair.len() == 2 && pair.bytes().all(|b| b.is_ascii_hexdigit()) {
        u8::from_str_radix(pair, 16).ok()
    } else {
        None
    }
}
