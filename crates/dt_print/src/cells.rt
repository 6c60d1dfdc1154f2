//! The text of one cell.
ghost use Rattle.std.specs.Prelude.{◌≡◌, ◌++◌, OnOk};
ghost use Rattle.dt_base.specs.Cell.{seen};
ghost use Rattle.run_model.specs.Printed.{begins_character, characters, table_byte, name_text};
ghost use Rattle.run_model.specs.Printed.{na_text, cell_text, vector_byte};

use cell_text::{push_integer, truth_text};
use dt_base::{CellRef, ColType};
use std::alloc::AllocError;

fn begins_one(byte: u8) -> bool
    ensures { result ≡ begins_character byte }
{
    byte < 128 || byte >= 192
}

/// How many characters a text in UTF-8 has.
pub fn width_of(text: &[u8]) -> usize
    ensures { result ≡ characters text.now }
{
    text.iter().filter(|byte| begins_one(**byte)).count()
}

fn push_table_byte(out: &mut Vec<u8>, byte: u8) -> Result<(), AllocError>
    ensures { OnOk result (out.new.items ≡ out.old.items ++ table_byte byte) }
{
    match byte {
        b'\n' => out.extend_from_slice(b"\\n")?,
        b'\r' => out.extend_from_slice(b"\\r")?,
        b'\t' => out.extend_from_slice(b"\\t")?,
        _ => out.push(byte)?,
    }
    Ok(())
}

pub fn push_vector_byte(out: &mut Vec<u8>, byte: u8) -> Result<(), AllocError>
    ensures { OnOk result (out.new.items ≡ out.old.items ++ vector_byte byte) }
{
    match byte {
        b'"' => out.extend_from_slice(b"\\\""),
        b'\\' => out.extend_from_slice(b"\\\\"),
        _ => push_table_byte(out, byte),
    }
}

/// Adds a text as it stands in a table.
pub fn push_name(out: &mut Vec<u8>, text: &str) -> Result<(), AllocError>
    ensures { OnOk result (out.new.items ≡ out.old.items ++ name_text text.now) }
{
    for byte in text.as_bytes() {
        push_table_byte(out, *byte)?;
    }
    Ok(())
}

fn na_word(kind: ColType) -> &'static str
    ensures { result.now ≡ na_text kind }
{
    match kind {
        ColType::Lgl | ColType::Int => "NA",
        ColType::Chr => "<NA>",
    }
}

/// Adds a cell of a column of this type as it stands in a table.
pub fn push_cell(out: &mut Vec<u8>, kind: ColType, cell: CellRef<'_>) -> Result<(), AllocError>
    ensures { OnOk result (out.new.items ≡ out.old.items ++ cell_text kind (seen cell.entry)) }
{
    match cell {
        CellRef::Na => out.extend_from_slice(na_word(kind).as_bytes()),
        CellRef::Lgl(b) => out.extend_from_slice(truth_text(b).as_bytes()),
        CellRef::Int(n) => push_integer(out, n),
        CellRef::Text(text) => push_name(out, text),
    }
}
