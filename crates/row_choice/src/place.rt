ghost use Rattle.std.specs.Prelude.{◌≡◌};
ghost use Rattle.row_model.specs.Rows.{is_below_or_zero, is_below_zero};
ghost use Rattle.na_vector.specs.Words.{int_cell};
ghost use Rattle.row_choice.specs.Places.{place_cell};

use dt_base::limits::NA_WORD;

/// What an integer says of the rows of a table, which a script counts from 1 and this from 0.
#[derive(Clone, Copy)]
pub enum Place {
    /// A row of NA.
    Na,
    /// No row: 0.
    Zero,
    /// This row.
    Row(u64),
    /// All but this row: a negative number.
    Out(u64),
}

/// What a stored integer says of the rows.
pub fn place_of(word: i64) -> Place
    ensures { place_cell result ≡ int_cell word }
{
    if word == NA_WORD {
        return Place::Na;
    }
    if word == 0 {
        return Place::Zero;
    }
    let p = word.unsigned_abs() - 1;
    if word < 0 {
        Place::Out(p)
    } else {
        Place::Row(p)
    }
}

pub fn is_below_zero(word: i64) -> bool
    ensures { result ≡ is_below_zero (int_cell word) }
{
    match place_of(word) {
        Place::Out(_) => true,
        Place::Na | Place::Zero | Place::Row(_) => false,
    }
}

pub fn is_below_or_zero(word: i64) -> bool
    ensures { result ≡ is_below_or_zero (int_cell word) }
{
    match place_of(word) {
        Place::Out(_) | Place::Zero => true,
        Place::Na | Place::Row(_) => false,
    }
}
