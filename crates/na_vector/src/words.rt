ghost use Rattle.std.specs.Prelude.{◌≡◌, ◌<◌};
ghost use Rattle.dt_base.specs.Cell.{seen, IsOfType};
ghost use Rattle.na_vector.specs.Words.{int_cell, lgl_cell, text_cell, IsLglWord};

use dt_base::limits::NA_WORD;
use dt_base::{Cell, CellRef, ColType, Text};

/// The word that stands for NA in a column of logicals. FALSE is 0 and TRUE is 1.
pub const NA_LGL: u8 = 2;

pub fn int_ref(n: i64) -> CellRef<'static>
    ensures { seen result ≡ int_cell n }
{
    if n == NA_WORD {
        CellRef::Na
    } else {
        CellRef::Int(n)
    }
}

pub fn lgl_ref(b: u8) -> CellRef<'static>
    requires { IsLglWord b }
    ensures { seen result ≡ lgl_cell b }
{
    if b == NA_LGL {
        CellRef::Na
    } else {
        CellRef::Lgl(b == 1)
    }
}

pub fn text_ref(t: &Option<Text>) -> CellRef<'_>
    ensures { seen result ≡ text_cell t.now }
{
    match t {
        None => CellRef::Na,
        Some(t) => CellRef::Text(t.as_str()),
    }
}

pub fn int_word(v: Cell) -> i64
    requires { IsOfType ColType.Int v }
    ensures { int_cell result ≡ v }
{
    match v {
        Cell::Int(n) => n,
        _ => NA_WORD,
    }
}

pub fn lgl_word(v: Cell) -> u8
    requires { IsOfType ColType.Lgl v }
    ensures word { lgl_cell result ≡ v }
    ensures small { IsLglWord result }
{
    match v {
        Cell::Lgl(b) => b as u8,
        _ => NA_LGL,
    }
}

pub fn text_word(v: Cell) -> Option<Text>
    requires { IsOfType ColType.Chr v }
    ensures { text_cell result ≡ v }
{
    match v {
        Cell::Text(t) => Some(t),
        _ => None,
    }
}
