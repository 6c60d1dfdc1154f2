ghost use Rattle.std.specs.Prelude.{◌≡◌, ◌<◌, IfOk, map, length, All, Some};
ghost use Rattle.dt_model.specs.Vector.{IsWithin, picked};
ghost use Rattle.na_vector.specs.Words.{int_cell, lgl_cell, text_cell, IsLglWord};

use crate::words::NA_LGL;
use dt_base::Text;
use dt_base::limits::NA_WORD;
use std::alloc::{AllocError, Global};

fn int_at(words: &[i64], place: Option<u32>) -> i64
    requires { IsWithin (length words.now) place }
    ensures { int_cell result ≡ picked (map int_cell words.now) place }
{
    match place {
        Some(p) => words[p as usize],
        None => NA_WORD,
    }
}

fn lgl_at(words: &[u8], place: Option<u32>) -> u8
    requires within { IsWithin (length words.now) place }
    requires small { All IsLglWord words.now }
    ensures cell { lgl_cell result ≡ picked (map lgl_cell words.now) place }
    ensures small { IsLglWord result }
{
    match place {
        Some(p) => words[p as usize],
        None => NA_LGL,
    }
}

fn text_at(texts: &[Option<Text>], place: Option<u32>) -> Result<Option<Text>, AllocError>
    requires { IsWithin (length texts.now) place }
    ensures { IfOk result (λ t. text_cell t ≡ picked (map text_cell texts.now) place) }
{
    match place {
        Some(p) => copied_text(&texts[p as usize]),
        None => Ok(None),
    }
}

fn copied_text(text: &Option<Text>) -> Result<Option<Text>, AllocError>
    ensures { IfOk result (λ t. t ≡ text.now) }
{
    match text {
        Some(t) => Ok(Some(t.copy()?)),
        None => Ok(None),
    }
}

pub fn gather_ints(
    alloc: Global,
    words: &[i64],
    rows: &[Option<u32>],
) -> Result<Vec<i64>, AllocError>
    requires { All (IsWithin (length words.now)) rows.now }
    ensures { IfOk result (λ v. map int_cell v.items
        ≡ map (picked (map int_cell words.now)) rows.now) }
{
    let mut out = Vec::with_capacity(alloc, rows.len())?;
    for row in rows {
        out.push(int_at(words, *row))?;
    }
    Ok(out)
}

pub fn gather_lgls(alloc: Global, words: &[u8], rows: &[Option<u32>]) -> Result<Vec<u8>, AllocError>
    requires within { All (IsWithin (length words.now)) rows.now }
    requires small { All IsLglWord words.now }
    ensures cells { IfOk result
        (λ v. map lgl_cell v.items ≡ map (picked (map lgl_cell words.now)) rows.now) }
    ensures small { IfOk result (λ v. All IsLglWord v.items) }
{
    let mut out = Vec::with_capacity(alloc, rows.len())?;
    for row in rows {
        out.push(lgl_at(words, *row))?;
    }
    Ok(out)
}

pub fn gather_texts(
    alloc: Global,
    texts: &[Option<Text>],
    rows: &[Option<u32>],
) -> Result<Vec<Option<Text>>, AllocError>
    requires { All (IsWithin (length texts.now)) rows.now }
    ensures { IfOk result (λ v. map text_cell v.items
        ≡ map (picked (map text_cell texts.now)) rows.now) }
{
    let mut out = Vec::with_capacity(alloc, rows.len())?;
    for row in rows {
        out.push(text_at(texts, *row)?)?;
    }
    Ok(out)
}

/// Each of these rows, as a place that is there.
pub fn row_places(alloc: Global, rows: &[u32]) -> Result<Vec<Option<u32>>, AllocError>
    ensures { IfOk result (λ places. places.items ≡ map Some rows.now) }
{
    let mut places = Vec::with_capacity(alloc, rows.len())?;
    for row in rows {
        places.push(Some(*row))?;
    }
    Ok(places)
}

pub fn copied_texts(alloc: Global, texts: &[Option<Text>]) -> Result<Vec<Option<Text>>, AllocError>
    ensures { IfOk result (λ v. v.items ≡ texts.now) }
{
    let mut out = Vec::with_capacity(alloc, texts.len())?;
    for text in texts {
        out.push(copied_text(text)?)?;
    }
    Ok(out)
}
