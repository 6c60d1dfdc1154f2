//! The lines of faults and warnings. The texts of the codes stand here in one table.
ghost use Rattle.std.specs.Prelude.{◌≡◌, ◌++◌, ℕ, List, OnOk, IfOk, decimal};
ghost use Rattle.run_model.specs.Messages.{code_name, group_text, text_of, fault_text, line_start};
ghost use Rattle.run_model.specs.Messages.{printed_fault, warn_name, warn_text, warn_line};
ghost use Rattle.run_model.specs.Messages.{printed_warns};
ghost use Rattle.std.specs.List.{flat_map};
ghost use Rattle.message_lines.specs.Filled.{source_text, filling, filled};
ghost use Rattle.message_lines.specs.Given.{line_if_given};

use crate::numbers::push_number;
use dt_base::{Code, Fault, Warn, Warns};
use std::alloc::{AllocError, Global};

/// The letters of the codes, by their numbers.
const CODES: [&str; 24] = [
    "E01", "E02", "E03", "E04", "E05", "E06", "E07", "E08", "E09", "E10", "E11", "E12", "E13",
    "E14", "E15", "E16", "E17", "E18", "E19", "E20", "E21", "E22", "E23", "E24",
];

fn code_letters(code: Code) -> &'static str
    ensures { result.now ≡ code_name code }
{
    CODES[code as usize]
}

/// What a code says. `$` stands for the name of a fault, `#` and `&` for its numbers, `@` for its
/// place in a grouped query, and `~` for what is not UTF-8.
fn code_words(code: Code) -> &'static str
    ensures { (what : List ℕ) (n m : ℕ) → filled what n m result.now ≡ text_of code what n m }
{
    match code {
        Code::E01 => "syntax at byte #",
        Code::E02 => "unknown name '$'",
        Code::E03 => "unknown column '$'",
        Code::E04 => "wrong type in $",
        Code::E05 => "length # where & is wanted",
        Code::E06 => "integer overflow in $@",
        Code::E07 => "more than 16777216 rows",
        Code::E08 => "more than 67108864 cells",
        Code::E09 => "more than # columns",
        Code::E10 => "no key",
        Code::E11 => "join of # rows where & are permitted",
        Code::E12 => "duplicate name '$'",
        Code::E13 => "positive and negative positions mixed",
        Code::E14 => "bad interval in $, row #",
        Code::E15 => "no file '$'",
        Code::E16 => "file '$' is longer than # bytes",
        Code::E17 => "record # has another number of fields",
        Code::E18 => "not UTF-8 in ~",
        Code::E19 => "bad argument '$'",
        Code::E20 => "'$' is not a table",
        Code::E21 => "brackets nested deeper than 64",
        Code::E22 => "number out of range",
        Code::E23 => "y has no key of two columns",
        Code::E24 => "columns differ",
    }
}

fn push_words(out: &mut Vec<u8>, words: &str) -> Result<(), AllocError>
    ensures { OnOk result (out.new.items ≡ out.old.items ++ words.now) }
{
    out.extend_from_slice(words.as_bytes())
}

fn push_told(out: &mut Vec<u8>, before: &str, what: &str, after: &str) -> Result<(), AllocError>
    ensures { OnOk result (out.new.items ≡ out.old.items ++ (before.now ++ what.now ++ after.now)) }
{
    push_words(out, before)?;
    push_words(out, what)?;
    push_words(out, after)
}

fn push_counted(out: &mut Vec<u8>, before: &str, n: u64) -> Result<(), AllocError>
    ensures { OnOk result (out.new.items ≡ out.old.items ++ (before.now ++ decimal n)) }
{
    push_words(out, before)?;
    push_number(out, n)
}

fn push_group(out: &mut Vec<u8>, group: u64, expression: u64) -> Result<(), AllocError>
    ensures { OnOk result (out.new.items ≡ out.old.items ++ group_text group expression) }
{
    if group == 0 {
        return Ok(());
    }
    push_counted(out, " (group ", group)?;
    push_counted(out, ", expression ", expression)?;
    push_words(out, ")")
}

fn push_source(out: &mut Vec<u8>, n: u64) -> Result<(), AllocError>
    ensures { OnOk result (out.new.items ≡ out.old.items ++ source_text n) }
{
    if n == 0 {
        push_words(out, "the script")
    } else {
        push_counted(out, "record ", n)
    }
}

/// Adds a byte of a code's words, or what it stands for.
fn push_filled(out: &mut Vec<u8>, f: &Fault, byte: u8) -> Result<(), AllocError>
    ensures { OnOk result (out.new.items ≡ out.old.items
        ++ filling f.now.what f.now.n f.now.m byte) }
{
    match byte {
        b'$' => push_words(out, f.what.as_str()),
        b'#' => push_number(out, f.n),
        b'&' => push_number(out, f.m),
        b'@' => push_group(out, f.n, f.m),
        b'~' => push_source(out, f.n),
        _ => Ok(out.push(byte)?),
    }
}

fn push_fault_text(out: &mut Vec<u8>, f: &Fault) -> Result<(), AllocError>
    ensures { OnOk result (out.new.items ≡ out.old.items ++ fault_text f.now) }
{
    for byte in code_words(f.code).as_bytes() {
        push_filled(out, f, *byte)?;
    }
    Ok(())
}

fn push_line_start(
    out: &mut Vec<u8>,
    kind: &str,
    letters: &str,
    line: u32,
) -> Result<(), AllocError>
    ensures { OnOk result (out.new.items ≡ out.old.items ++ line_start kind.now letters.now line) }
{
    push_told(out, kind, letters, " at line ")?;
    push_number(out, u64::from(line))?;
    push_words(out, ": ")
}

/// The line of a fault: its code, the line of the script, and what it says. Lines count from 1; 0
/// stands where the script itself could not be read.
///
/// A name stands as it is. `E06` tells a group and an expression where `n` is not 0, both counted
/// from 1; `E18` with `n` 0 speaks of the script, and else of record `n`.
///
/// dtq's own rule, docs/LANGUAGE.md, section Faults and
/// warnings.
pub fn fault_line(alloc: Global, line: u32, f: &Fault) -> Result<Vec<u8>, AllocError>
    ensures { IfOk result (λ v. v.items ≡ printed_fault line f.now) }
{
    let mut out = Vec::new(alloc);
    push_line_start(&mut out, "Error ", code_letters(f.code), line)?;
    push_fault_text(&mut out, f)?;
    push_words(&mut out, "\n")?;
    Ok(out)
}

/// All warnings, by their numbers.
const WARNINGS: [Warn; 6] = [
    Warn::W01,
    Warn::W02,
    Warn::W03,
    Warn::W04,
    Warn::W05,
    Warn::W06,
];

/// The letters of the warnings, by their numbers.
const WARNING_CODES: [&str; 6] = ["W01", "W02", "W03", "W04", "W05", "W06"];

fn warn_letters(warn: Warn) -> &'static str
    ensures { result.now ≡ warn_name warn }
{
    WARNING_CODES[warn as usize]
}

fn warn_words(warn: Warn) -> &'static str
    ensures { result.now ≡ warn_text warn }
{
    match warn {
        Warn::W01 => "integer became TRUE",
        Warn::W02 => "text became NA",
        Warn::W03 => "min or max of nothing",
        Warn::W04 => "dcast counts duplicates",
        Warn::W05 => "melt joins several types",
        Warn::W06 => "column names repaired",
    }
}

fn push_warning(out: &mut Vec<u8>, line: u32, warn: Warn) -> Result<(), AllocError>
    ensures { OnOk result (out.new.items ≡ out.old.items ++ warn_line line warn) }
{
    push_line_start(out, "Warning ", warn_letters(warn), line)?;
    push_told(out, "", warn_words(warn), "\n")
}

/// Adds the line of a warning, if it is one of these.
fn push_if_given(out: &mut Vec<u8>, line: u32, warns: Warns, warn: Warn) -> Result<(), AllocError>
    ensures { OnOk result (out.new.items ≡ out.old.items ++ line_if_given line warns warn) }
{
    if warns.has(warn) {
        push_warning(out, line, warn)
    } else {
        Ok(())
    }
}

/// Adds the lines of those of some warnings that are in the set.
fn push_given(out: &mut Vec<u8>, line: u32, warns: Warns, among: &[Warn]) -> Result<(), AllocError>
    ensures { OnOk result (out.new.items ≡ out.old.items
        ++ flat_map (line_if_given line warns) among.now) }
{
    for warn in among {
        push_if_given(out, line, warns, *warn)?;
    }
    Ok(())
}

/// The lines of a statement's warnings: each of the set once, in the order of their numbers. The
/// empty set has no line. Lines of the script count from 1.
///
/// dtq's own rule, docs/LANGUAGE.md, section Faults and
/// warnings.
pub fn warn_lines(alloc: Global, line: u32, warns: Warns) -> Result<Vec<u8>, AllocError>
    ensures { IfOk result (λ v. v.items ≡ printed_warns line warns) }
{
    let mut out = Vec::new(alloc);
    push_given(&mut out, line, warns, &WARNINGS)?;
    Ok(out)
}
