ghost use Rattle.std.specs.Prelude.{◌≡◌, ◌<◌, ◌≤◌, ◌++◌, ◌∷◌, [], All, IfErr, IfOk, List, ℕ, OnOk};
ghost use Rattle.std.specs.Prelude.{length, map, string_bytes};
ghost use Rattle.dt_base.specs.declared.cell.Cell.TheVariants as is;
ghost use Rattle.dt_base.specs.declared.limits.TheConstants.{MAX_ROWS};
ghost use Rattle.dt_model.specs.Table.{name_at, names_at};
ghost use Rattle.dt_table.specs.Plain.{plain};
ghost use Rattle.dt_table.specs.Table.{IsTable};
ghost use Rattle.eval_fail.specs.Answers.{AnswersAs, IsOwn};
ghost use Rattle.na_vector.specs.Words.{text_cell};
ghost use Rattle.session_model.specs.Indices.{behind, joined};
ghost use Rattle.session_model.specs.Orders.{texts_given, texts_or_null, told_of};
ghost use Rattle.table_report.specs.Told.{indices_named, texts_in, told_seen};

use dt_base::limits::MAX_ROWS;
use dt_base::{Code, Text};
use dt_table::Table;
use eval_fail::{EvalFail, stop, stop_unbuilt};
use func_table::Func;
use na_vector::Column;
use std::alloc::{AllocError, Global};

/// What stands between the names of an index.
const BETWEEN: &str = "__";

/// One more text.
fn add(texts: &mut Vec<Option<Text>>, text: Text) -> Result<(), AllocError>
    ensures { OnOk result
        (texts_in texts.new.items ≡ texts_in texts.old.items ++ is.Text text ∷ []) }
{
    Ok(texts.push(Some(text))?)
}

/// The names of these columns, as texts of their own.
fn name_texts(alloc: Global, table: &Table, cols: &[usize]) -> Result<Vec<Option<Text>>, AllocError>
    requires { All (λ c. c < length table.now.names) cols.now }
    ensures { IfOk result
        (λ v. texts_in v.items ≡ map is.Text (names_at table.now.names cols.now)) }
{
    let mut texts = Vec::new(alloc);
    for c in cols {
        add(&mut texts, table.name(*c).copy()?)?;
    }
    Ok(texts)
}

/// The names of these columns behind a text, each with `__` before it.
fn names_behind(text: String, table: &Table, cols: &[usize]) -> Result<Text, AllocError>
    requires { All (λ c. c < length table.now.names) cols.now }
    ensures { IfOk result
        (λ t. t ≡ string_bytes text ++ behind (names_at table.now.names cols.now)) }
{
    let mut text = text;
    for c in cols {
        text.push_str(BETWEEN)?;
        text.push_str(table.name(*c).as_str())?;
    }
    Ok(Text::from_string(text))
}

/// The names of the columns of an index, as one text.
fn index_text(alloc: Global, table: &Table, cols: &[usize]) -> Result<Text, AllocError>
    requires { All (λ c. c < length table.now.names) cols.now }
    ensures { IfOk result (λ t. t ≡ joined (names_at table.now.names cols.now)) }
{
    match cols.split_first() {
        None => Text::make(alloc, ""),
        Some((first, rest)) => {
            let name = String::from_str(alloc, table.name(*first).as_str())?;
            names_behind(name, table, rest)
        }
    }
}

/// Each index as one text.
fn index_texts(alloc: Global, table: &Table) -> Result<Vec<Option<Text>>, AllocError>
    requires { IsTable table.now }
    ensures { IfOk result (λ v. texts_in v.items ≡ map is.Text (indices_named table.now)) }
{
    let mut texts = Vec::new(alloc);
    for k in 0..table.index_count() {
        add(&mut texts, index_text(alloc, table, &table.index(k).cols)?)?;
    }
    Ok(texts)
}

/// A vector of texts, or none where there is none of them.
fn texts_or_none(alloc: Global, texts: Vec<Option<Text>>) -> Result<Option<Column>, EvalFail>
    ensures answer { (names : List (List ℕ)) → texts_in texts.items ≡ map is.Text names
        → AnswersAs told_seen (texts_or_null names) result }
    ensures own { IfErr result IsOwn }
{
    if texts.is_empty() {
        return Ok(None);
    }
    if texts.len() > MAX_ROWS {
        return Err(stop(alloc, Code::E07, ""));
    }
    match Column::from_texts(texts) {
        Ok(column) => Ok(Some(column)),
        Err(error) => Err(EvalFail::NoMemory(error)),
    }
}

/// The columns of the key.
fn key_report(alloc: Global, table: &Table) -> Result<Option<Column>, EvalFail>
    ensures answer { AnswersAs told_seen (told_of Func.Key (plain table.now)) result }
    ensures own { IfErr result IsOwn }
{
    let texts = name_texts(alloc, table, table.key())?;
    texts_or_none(alloc, texts)
}

/// The indices.
fn index_report(alloc: Global, table: &Table) -> Result<Option<Column>, EvalFail>
    ensures answer { AnswersAs told_seen (told_of Func.Indices (plain table.now)) result }
    ensures own { IfErr result IsOwn }
{
    let _ = table.names();
    let texts = index_texts(alloc, table)?;
    texts_or_none(alloc, texts)
}

/// What `key` or `indices` tells of a table: the names of the key's columns, or the names of each
/// index as one text, with `__` between them; none where there is no key, or no index.
///
/// More than 16,777,216 of them, which no script makes, are E07. It touches nothing. The manual's
/// pages setkey and setindex.
pub fn report(alloc: Global, f: Func, table: &Table) -> Result<Option<Column>, EvalFail>
    ensures answer { AnswersAs told_seen (told_of f (plain table.now)) result }
    ensures own { IfErr result IsOwn }
{
    match f {
        Func::Key => key_report(alloc, table),
        Func::Indices => index_report(alloc, table),
        _ => Err(stop_unbuilt(alloc)),
    }
}
