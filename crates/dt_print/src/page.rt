//! A page: what is printed so far, and room for the text of one cell.
ghost use Rattle.std.specs.Prelude.{◌≡◌, ◌++◌, ◌∷◌, ◌+◌, ◌<◌, ◌^◌, [], OnOk, IfOk, replicate};
ghost use Rattle.dt_base.specs.Cell.{seen};
ghost use Rattle.run_model.specs.Printed.{characters, aligned, cell_text, name_text, label};
ghost use Rattle.dt_print.specs.Lines.{part};

use crate::cells::{push_cell, push_name, width_of};
use dt_base::{CellRef, ColType};
use message_lines::push_number;
use std::alloc::{AllocError, Global};

/// What is printed so far. `cell` is room for the text of one cell, so that its characters can be
/// counted before its blanks are put.
#[derive(Drop)]
pub struct Page {
    pub text: Vec<u8>,
    cell: Vec<u8>,
}

/// Adds so many blanks.
pub fn push_blanks(out: &mut Vec<u8>, count: usize) -> Result<(), AllocError>
    ensures { OnOk result (out.new.items ≡ out.old.items ++ replicate count 32) }
{
    for _ in 0..count {
        out.push(b' ')?;
    }
    Ok(())
}

/// Adds a text with blanks before it, so that it is `width` characters wide.
pub fn push_aligned(out: &mut Vec<u8>, text: &[u8], width: usize) -> Result<(), AllocError>
    ensures { OnOk result (out.new.items ≡ out.old.items ++ aligned width text.now) }
{
    push_blanks(out, width.saturating_sub(width_of(text)))?;
    out.extend_from_slice(text)
}

/// Adds a blank and an aligned text.
fn push_part(out: &mut Vec<u8>, text: &[u8], width: usize) -> Result<(), AllocError>
    ensures { OnOk result (out.new.items ≡ out.old.items ++ part width text.now) }
{
    out.push(b' ')?;
    push_aligned(out, text, width)
}

/// Makes the buffer hold the text of a cell.
fn put_cell(buffer: &mut Vec<u8>, kind: ColType, cell: CellRef<'_>) -> Result<(), AllocError>
    ensures { OnOk result (buffer.new.items ≡ cell_text kind (seen cell.entry)) }
{
    buffer.clear();
    push_cell(buffer, kind, cell)
}

/// Makes the buffer hold the text of a name.
fn put_name(buffer: &mut Vec<u8>, name: &str) -> Result<(), AllocError>
    ensures { OnOk result (buffer.new.items ≡ name_text name.now) }
{
    buffer.clear();
    push_name(buffer, name)
}

/// Makes the buffer hold the label of the row at a place.
fn put_label(buffer: &mut Vec<u8>, place: usize) -> Result<(), AllocError>
    requires { place + 1 < 2 ^ 64 }
    ensures { OnOk result (buffer.new.items ≡ label (place + 1)) }
{
    buffer.clear();
    push_number(buffer, place as u64 + 1)?;
    buffer.push(b':')?;
    Ok(())
}

impl Page {
    pub fn new(alloc: Global) -> Page
        ensures { result.text.items ≡ [] }
    {
        Page {
            text: Vec::new(alloc),
            cell: Vec::new(alloc),
        }
    }

    /// What was printed. It takes no memory.
    pub fn into_text(self) -> Vec<u8>
        ensures { result.items ≡ self.text.items }
    {
        self.text
    }

    /// How wide a cell is. The printed text stays.
    pub fn cell_width(&mut self, kind: ColType, cell: CellRef<'_>) -> Result<usize, AllocError>
        ensures width { IfOk result (λ w. w ≡ characters (cell_text kind (seen cell.entry))) }
        ensures same { self.new.text.items ≡ self.old.text.items }
    {
        put_cell(&mut self.cell, kind, cell)?;
        Ok(width_of(&self.cell))
    }

    /// How wide a name is. The printed text stays.
    pub fn name_width(&mut self, name: &str) -> Result<usize, AllocError>
        ensures width { IfOk result (λ w. w ≡ characters (name_text name.now)) }
        ensures same { self.new.text.items ≡ self.old.text.items }
    {
        put_name(&mut self.cell, name)?;
        Ok(width_of(&self.cell))
    }

    /// How wide the label of the row at a place is. The printed text stays.
    pub fn label_width(&mut self, place: usize) -> Result<usize, AllocError>
        requires { place + 1 < 2 ^ 64 }
        ensures width { IfOk result (λ w. w ≡ characters (label (place + 1))) }
        ensures same { self.new.text.items ≡ self.old.text.items }
    {
        put_label(&mut self.cell, place)?;
        Ok(width_of(&self.cell))
    }

    /// Adds a blank and a cell, aligned.
    pub fn push_cell(
        &mut self,
        kind: ColType,
        cell: CellRef<'_>,
        width: usize,
    ) -> Result<(), AllocError>
        ensures { OnOk result (self.new.text.items ≡ self.old.text.items
            ++ part width (cell_text kind (seen cell.entry))) }
    {
        put_cell(&mut self.cell, kind, cell)?;
        push_part(&mut self.text, &self.cell, width)
    }

    /// Adds a blank and a name, aligned.
    pub fn push_name(&mut self, name: &str, width: usize) -> Result<(), AllocError>
        ensures { OnOk result (self.new.text.items ≡ self.old.text.items
            ++ part width (name_text name.now)) }
    {
        put_name(&mut self.cell, name)?;
        push_part(&mut self.text, &self.cell, width)
    }

    /// Adds the label of the row at a place, aligned.
    pub fn push_label(&mut self, place: usize, width: usize) -> Result<(), AllocError>
        requires { place + 1 < 2 ^ 64 }
        ensures { OnOk result (self.new.text.items ≡ self.old.text.items
            ++ aligned width (label (place + 1))) }
    {
        put_label(&mut self.cell, place)?;
        push_aligned(&mut self.text, &self.cell, width)
    }
}
