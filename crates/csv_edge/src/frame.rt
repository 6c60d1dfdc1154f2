ghost use Rattle.std.specs.Prelude.{◌≡◌, ◌≤◌, All, IfOk, length, map, replicate};
ghost use Rattle.csv_edge.specs.Columns.{first_length};
ghost use Rattle.csv_edge.specs.Filling.{filled_vector, IsSound};
ghost use Rattle.dt_base.specs.declared.limits.TheConstants.{MAX_ROWS};
ghost use Rattle.na_vector.specs.Frame.{vectors_of};
ghost use Rattle.na_vector.specs.Words.{lgl_vector};

use crate::filling::Filling;
use na_vector::{Column, Frame};
use std::alloc::{AllocError, Global};

/// The frame of these columns.
pub(crate) fn frame_of(alloc: Global, columns: Vec<Filling>) -> Result<Frame, AllocError>
    requires sound { All IsSound columns.items }
    requires one_length { All (λ column. length (filled_vector column).cells
        ≡ first_length columns.items) columns.items }
    requires short { first_length columns.items ≤ MAX_ROWS }
    ensures vectors { IfOk result
        (λ frame. vectors_of frame.columns ≡ map filled_vector columns.items) }
    ensures rows { IfOk result (λ frame. frame.rows ≡ first_length columns.items) }
{
    let mut frame = Frame::new(alloc);
    frame.reserve_cols(columns.len())?;
    for column in columns {
        frame.push_col(column_of(alloc, column)?)?;
    }
    Ok(frame)
}

/// The column of the words that were gathered.
fn column_of(alloc: Global, column: Filling) -> Result<Column, AllocError>
    requires sound { IsSound column }
    requires short { length (filled_vector column).cells ≤ MAX_ROWS }
    ensures { IfOk result (λ made. made.vector ≡ filled_vector column) }
{
    match column {
        Filling::Missing(count) => missing_column(alloc, count),
        Filling::Lgl(words) => Ok(Column::from_lgls(words)),
        Filling::Int(words) => Ok(Column::from_ints(words)),
        Filling::Chr(texts) | Filling::Late(texts) => Column::from_texts(texts),
    }
}

/// A column of so many logicals, all of them NA.
fn missing_column(alloc: Global, count: usize) -> Result<Column, AllocError>
    requires { count ≤ MAX_ROWS }
    ensures { IfOk result (λ made. made.vector ≡ lgl_vector (replicate count 2)) }
{
    let words = vec![in alloc; 2u8; count]?;
    Ok(Column::from_lgls(words))
}
