//! Vectors and NULL.
ghost use Rattle.std.specs.Prelude.{◌≡◌, ◌+◌, ◌<◌, ◌++◌, ◌∷◌, OnOk, IfOk, All, length};
ghost use Rattle.std.specs.List.{flat_map};
ghost use Rattle.na_vector.specs.Words.{int_cell, lgl_cell, text_cell, IsLglWord};
ghost use Rattle.run_model.specs.Printed.{vector_byte, element, empty_vector_text, printed_vector};
ghost use Rattle.run_model.specs.Printed.{null_text as printed_null};
ghost use Rattle.dt_print.specs.Elements.{int_part, lgl_part, text_part};

use crate::cells::push_vector_byte;
use cell_text::{push_integer, truth_text};
use dt_base::limits::NA_WORD;
use dt_base::{ColType, Steps, Text};
use na_vector::{Column, NA_LGL};
use std::alloc::{AllocError, Global};
use std::sync::ledger::Ledger;

fn push_int(out: &mut Vec<u8>, word: i64) -> Result<(), AllocError>
    ensures { OnOk result (out.new.items ≡ out.old.items ++ int_part word) }
{
    out.push(b' ')?;
    if word == NA_WORD {
        out.extend_from_slice(b"NA")
    } else {
        push_integer(out, word)
    }
}

fn push_lgl(out: &mut Vec<u8>, word: u8) -> Result<(), AllocError>
    requires { IsLglWord word }
    ensures { OnOk result (out.new.items ≡ out.old.items ++ lgl_part word) }
{
    out.push(b' ')?;
    if word == NA_LGL {
        out.extend_from_slice(b"NA")
    } else {
        out.extend_from_slice(truth_text(word == 1).as_bytes())
    }
}

fn push_quoted(out: &mut Vec<u8>, text: &str) -> Result<(), AllocError>
    ensures { OnOk result (out.new.items ≡ out.old.items ++ flat_map vector_byte text.now) }
{
    for byte in text.as_bytes() {
        push_vector_byte(out, *byte)?;
    }
    Ok(())
}

fn push_text(out: &mut Vec<u8>, text: &Option<Text>) -> Result<(), AllocError>
    ensures { OnOk result (out.new.items ≡ out.old.items ++ text_part text.now) }
{
    match text {
        None => out.extend_from_slice(b" NA")?,
        Some(text) => {
            out.extend_from_slice(b" \"")?;
            push_quoted(out, text.as_str())?;
            out.push(b'"')?;
        }
    }
    Ok(())
}

fn push_ints(out: &mut Vec<u8>, words: &[i64]) -> Result<(), AllocError>
    ensures { OnOk result (out.new.items ≡ out.old.items ++ flat_map int_part words.now) }
{
    for word in words {
        push_int(out, *word)?;
    }
    Ok(())
}

fn push_lgls(out: &mut Vec<u8>, words: &[u8]) -> Result<(), AllocError>
    requires { All IsLglWord words.now }
    ensures { OnOk result (out.new.items ≡ out.old.items ++ flat_map lgl_part words.now) }
{
    for word in words {
        push_lgl(out, *word)?;
    }
    Ok(())
}

fn push_texts(out: &mut Vec<u8>, texts: &[Option<Text>]) -> Result<(), AllocError>
    ensures { OnOk result (out.new.items ≡ out.old.items ++ flat_map text_part texts.now) }
{
    for text in texts {
        push_text(out, text)?;
    }
    Ok(())
}

fn push_elements<L: Ledger>(
    out: &mut Vec<u8>,
    v: &Column,
    steps: &mut Steps<L>,
) -> Result<(), AllocError>
    ensures text { OnOk result
        (out.new.items ≡ out.old.items ++ flat_map (λ c. 32 ∷ element c) v.now.vector.cells) }
    ensures touches { OnOk result (steps.new ≡ steps.old + length v.now.vector.cells) }
{
    match v.kind() {
        ColType::Lgl => push_lgls(out, v.lgls(steps))?,
        ColType::Int => push_ints(out, v.ints(steps))?,
        ColType::Chr => push_texts(out, v.texts(steps))?,
    }
    Ok(())
}

fn empty_vector(alloc: Global, kind: ColType) -> Result<Vec<u8>, AllocError>
    ensures { IfOk result (λ b. b.items ≡ empty_vector_text kind) }
{
    match kind {
        ColType::Lgl => Vec::from_slice(alloc, b"logical(0)\n"),
        ColType::Int => Vec::from_slice(alloc, b"integer(0)\n"),
        ColType::Chr => Vec::from_slice(alloc, b"character(0)\n"),
    }
}

/// A vector, printed on one line: `[1]`, and each element after a blank.
///
/// Texts stand in double quotes, with a backslash before a quote and before a backslash; NA stands
/// without quotes. A vector without elements tells its type. One touch for each element.
///
/// From R's way to print; one line for all elements is dtq's own, docs/LANGUAGE.md, section
/// Printing.
pub fn vector_text<L: Ledger>(
    alloc: Global,
    v: &Column,
    steps: &mut Steps<L>,
) -> Result<Vec<u8>, AllocError>
    ensures text { IfOk result
        (λ b. b.items ≡ printed_vector v.now.vector.kind v.now.vector.cells) }
    ensures touches { OnOk result (steps.new ≡ steps.old + length v.now.vector.cells) }
{
    if v.len() == 0 {
        return empty_vector(alloc, v.kind());
    }
    let mut out = Vec::from_slice(alloc, b"[1]")?;
    push_elements(&mut out, v, steps)?;
    out.push(b'\n')?;
    Ok(out)
}

/// NULL, printed.
pub fn null_text(alloc: Global) -> Result<Vec<u8>, AllocError>
    ensures { IfOk result (λ b. b.items ≡ printed_null) }
{
    Vec::from_slice(alloc, b"NULL\n")
}
