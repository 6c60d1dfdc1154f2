ghost use Rattle.std.specs.Prelude.{◌≡◌, ◌+◌, ◌<◌, ◌++◌, ◌∷◌, ℕ, List, [], All, IfOk, OnOk, true};
ghost use Rattle.std.specs.Prelude.{false, map, replicate};
ghost use Rattle.std.specs.Str.{is_utf8};
ghost use Rattle.csv_edge.specs.Filling.{Gains, goes_on};
ghost use Rattle.csv_edge.specs.declared.filling.Filling.TheVariants as so_far;
ghost use Rattle.dt_base.specs.declared.cell.ColType.TheVariants as ty;
ghost use Rattle.na_vector.specs.Words.{lgl_cell, int_cell, text_cell, IsLglWord};
ghost use Rattle.run_model.specs.CsvCells as cells;

use crate::typed::{int_word, is_missing, is_text, lgl_word, text_of, text_word};
use dt_base::Text;
use dt_base::limits::NA_WORD;
use std::alloc::{AllocError, Global};
use std::mem;

/// A column while its file is read: the lowest type that suits its fields so far, and their words.
#[derive(Drop)]
pub(crate) enum Filling {
    /// So many fields, and none of them tells a type.
    Missing(usize),
    Lgl(Vec<u8>),
    Int(Vec<i64>),
    Chr(Vec<Option<Text>>),
    /// Texts, as a later field told: the words of those before it are not their texts, so all texts
    /// are taken when the records are read again.
    Late(Vec<Option<Text>>),
}

/// Takes the next field of a column, and tells whether it is UTF-8: its type and its word, or,
/// where the records are read again, the text of a column that was told late.
pub(crate) fn take(
    alloc: Global,
    column: &mut Filling,
    field: &[u8],
    again: bool,
) -> Result<bool, AllocError>
    ensures text { IfOk result (λ text. text ≡ is_utf8 field.now) }
    ensures gains { IfOk result
        (λ text. text ≡ true → Gains again column.old column.new (field.now ∷ [])) }
{
    if again {
        take_text(alloc, column, field)
    } else {
        take_word(alloc, column, field)
    }
}

/// Whether the column wants the second reading.
pub(crate) fn is_late(column: &Filling) -> bool
    ensures { result ≡ false → (fields : List (List ℕ)) → Gains true column.now column.now fields }
{
    match column {
        Filling::Late(_) => true,
        Filling::Missing(_) | Filling::Lgl(_) | Filling::Int(_) | Filling::Chr(_) => false,
    }
}

/// Adds the text of a field to a column that was told late, and leaves any other.
fn take_text(alloc: Global, column: &mut Filling, field: &[u8]) -> Result<bool, AllocError>
    ensures text { IfOk result (λ text. text ≡ is_utf8 field.now) }
    ensures gains { IfOk result
        (λ text. text ≡ true → Gains true column.old column.new (field.now ∷ [])) }
{
    match column {
        Filling::Late(texts) => push_chr(alloc, texts, field),
        Filling::Missing(_) | Filling::Lgl(_) | Filling::Int(_) | Filling::Chr(_) => {
            Ok(is_text(field))
        }
    }
}

/// Adds the word of a field to a column that it suits; the column changes its type where it does
/// not.
fn take_word(alloc: Global, column: &mut Filling, field: &[u8]) -> Result<bool, AllocError>
    ensures text { IfOk result (λ text. text ≡ is_utf8 field.now) }
    ensures gains { IfOk result
        (λ text. text ≡ true → Gains false column.old column.new (field.now ∷ [])) }
{
    if push_word(alloc, column, field)? {
        return Ok(true);
    }
    change(alloc, column, field)
}

/// Adds the word of a field that suits the column's type, and tells whether it does. What is a word
/// of another type than text is UTF-8, so only texts are looked at for that.
fn push_word(alloc: Global, column: &mut Filling, field: &[u8]) -> Result<bool, AllocError>
    ensures text { IfOk result (λ took. took ≡ true → is_utf8 field.now ≡ true) }
    ensures gains { IfOk result
        (λ took. took ≡ true → Gains false column.old column.new (field.now ∷ [])) }
    ensures other { IfOk result
        (λ took. took ≡ false → is_utf8 field.now ≡ true → goes_on column.old field.now ≡ false) }
    ensures same { IfOk result (λ took. took ≡ false → column.new ≡ column.old) }
{
    match column {
        Filling::Missing(count) => count_missing(count, field),
        Filling::Lgl(words) => push_lgl(words, field),
        Filling::Int(words) => push_int(words, field),
        Filling::Chr(texts) => push_chr(alloc, texts, field),
        Filling::Late(_) => Ok(is_text(field)),
    }
}

/// Changes the type of a column behind a field that does not suit it, where the field is UTF-8.
#[cold]
fn change(alloc: Global, column: &mut Filling, field: &[u8]) -> Result<bool, AllocError>
    requires { is_utf8 field.now ≡ true → goes_on column.old field.now ≡ false }
    ensures text { IfOk result (λ text. text ≡ is_utf8 field.now) }
    ensures gains { IfOk result
        (λ text. text ≡ true → Gains false column.old column.new (field.now ∷ [])) }
{
    let Some(text) = text_of(field) else {
        return Ok(false);
    };
    let changed = changed(alloc, column, text)?;
    drop(mem::replace(column, changed));
    Ok(true)
}

/// Counts a field that tells no type. A count that no number holds is want of memory.
fn count_missing(count: &mut usize, field: &[u8]) -> Result<bool, AllocError>
    ensures suits { IfOk result (λ suited. suited ≡ cells.is_missing field.now) }
    ensures more { IfOk result (λ suited. suited ≡ true → count.new ≡ count.old + 1) }
    ensures same { IfOk result (λ suited. suited ≡ false → count.new ≡ count.old) }
{
    if !is_missing(field) {
        return Ok(false);
    }
    let Some(more) = count.checked_add(1) else {
        return Err(AllocError);
    };
    *count = more;
    Ok(true)
}

/// Adds the word of a field that suits a column of logicals.
fn push_lgl(words: &mut Vec<u8>, field: &[u8]) -> Result<bool, AllocError>
    ensures suits { IfOk result (λ suited. suited ≡ cells.suits ty.Lgl field.now) }
    ensures cells { IfOk result
        (λ suited. suited ≡ true → map lgl_cell words.new.items ≡ map lgl_cell words.old.items
        ++ cells.field_cell ty.Lgl field.now ∷ []) }
    ensures words { IfOk result
        (λ suited. suited ≡ true → All IsLglWord words.old.items → All IsLglWord words.new.items) }
    ensures same { IfOk result (λ suited. suited ≡ false → words.new ≡ words.old) }
{
    let Some(word) = lgl_word(field) else {
        return Ok(false);
    };
    words.push(word)?;
    Ok(true)
}

/// Adds the word of a field that suits a column of integers.
fn push_int(words: &mut Vec<i64>, field: &[u8]) -> Result<bool, AllocError>
    ensures suits { IfOk result (λ suited. suited ≡ cells.suits ty.Int field.now) }
    ensures cells { IfOk result
        (λ suited. suited ≡ true → map int_cell words.new.items ≡ map int_cell words.old.items
        ++ cells.field_cell ty.Int field.now ∷ []) }
    ensures same { IfOk result (λ suited. suited ≡ false → words.new ≡ words.old) }
{
    let Some(word) = int_word(field) else {
        return Ok(false);
    };
    words.push(word)?;
    Ok(true)
}

/// Adds the text of a field to a column of texts, which any field suits, and tells whether it is
/// UTF-8.
#[inline(never)]
fn push_chr(alloc: Global, texts: &mut Vec<Option<Text>>, field: &[u8]) -> Result<bool, AllocError>
    ensures text { IfOk result (λ took. took ≡ is_utf8 field.now) }
    ensures cells { IfOk result
        (λ took. took ≡ true → map text_cell texts.new.items ≡ map text_cell texts.old.items
        ++ cells.field_cell ty.Chr field.now ∷ []) }
    ensures same { IfOk result (λ took. took ≡ false → texts.new ≡ texts.old) }
{
    let Some(text) = text_of(field) else {
        return Ok(false);
    };
    push_text(alloc, texts, text)?;
    Ok(true)
}

/// Adds the text of a field.
fn push_text(alloc: Global, texts: &mut Vec<Option<Text>>, field: &str) -> Result<(), AllocError>
    ensures { OnOk result (map text_cell texts.new.items ≡ map text_cell texts.old.items
        ++ cells.field_cell ty.Chr field.now ∷ []) }
{
    let text = text_word(alloc, field)?;
    texts.push(text)?;
    Ok(())
}

/// The column behind a field that does not suit its type so far.
fn changed(alloc: Global, column: &Filling, field: &str) -> Result<Filling, AllocError>
    requires { goes_on column.now field.now ≡ false }
    ensures { IfOk result (λ after. Gains false column.now after (field.now ∷ [])) }
{
    match column {
        Filling::Missing(count) => first_told(alloc, *count, field),
        Filling::Lgl(_) | Filling::Int(_) | Filling::Chr(_) | Filling::Late(_) => {
            Ok(Filling::Late(Vec::new(alloc)))
        }
    }
}

/// The column behind the first field that tells a type, which so many fields stand before.
fn first_told(alloc: Global, count: usize, field: &str) -> Result<Filling, AllocError>
    requires { cells.is_missing field.now ≡ false }
    ensures { IfOk result (λ after. Gains false (so_far.Missing count) after (field.now ∷ [])) }
{
    if let Some(word) = lgl_word(field.as_bytes()) {
        return Ok(Filling::Lgl(first_lgl(alloc, count, word)?));
    }
    if let Some(word) = int_word(field.as_bytes()) {
        return Ok(Filling::Int(first_int(alloc, count, word)?));
    }
    first_text(alloc, count, field)
}

/// The column behind a first text. A field before it may be empty or NA, and is not kept.
fn first_text(alloc: Global, count: usize, field: &str) -> Result<Filling, AllocError>
    requires lgl { cells.suits ty.Lgl field.now ≡ false }
    requires int { cells.suits ty.Int field.now ≡ false }
    ensures { IfOk result (λ after. Gains false (so_far.Missing count) after (field.now ∷ [])) }
{
    let mut texts = Vec::new(alloc);
    if count > 0 {
        return Ok(Filling::Late(texts));
    }
    push_text(alloc, &mut texts, field)?;
    Ok(Filling::Chr(texts))
}

/// So many words for NA, and a word behind them.
fn first_lgl(alloc: Global, count: usize, word: u8) -> Result<Vec<u8>, AllocError>
    ensures { IfOk result (λ words. words.items ≡ replicate count 2 ++ word ∷ []) }
{
    let mut words = vec![in alloc; 2u8; count]?;
    words.push(word)?;
    Ok(words)
}

/// So many words for NA, and a word behind them.
fn first_int(alloc: Global, count: usize, word: i64) -> Result<Vec<i64>, AllocError>
    ensures { IfOk result (λ words. words.items ≡ replicate count NA_WORD ++ word ∷ []) }
{
    let mut words = vec![in alloc; NA_WORD; count]?;
    words.push(word)?;
    Ok(words)
}
