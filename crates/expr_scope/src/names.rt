ghost use Rattle.std.specs.Prelude.{◌≡◌, ◌<◌, false, is_some, length, IfSome, IfErr};
ghost use Rattle.eval_fail.specs.Answers.{Answers, AnswersAs, IsOwn, is_of_file};
ghost use Rattle.dt_model.specs.Table.{place_of};
ghost use Rattle.expr_scope.specs.Scope.{env_of, IsScope, vector_lent, table_lent, column_seen};
ghost use Rattle.expr_scope.specs.Scope.{columns_of};
ghost use Rattle.session_model.specs.Columns.{is_column};
ghost use Rattle.session_model.specs.Expression.{kind_in};
ghost use Rattle.expr_model.specs.Surroundings.{column_named, var_vector, var_table};
ghost use Rattle.expr_model.specs.Surroundings.{bracket_vector, group_vector, special_vector};
ghost use Rattle.expr_model.specs.Surroundings.{name_vector};

use crate::{Scope, Vars};
use dt_base::{Code, ColName, ColType};
use dt_table::Table;
use eval_fail::{EvalFail, stop};
use func_table::{Special, special_named};
use na_vector::{Column, Frame};
use std::alloc::Global;

/// The vector that a script's name gives. Where a table has the name it is E04 with it; an unknown
/// name has this code.
#[tactic(auto, using(crate::proofs::Bindings::bindings))]
pub fn var_vector<'a, V: Vars>(
    alloc: Global,
    vars: &'a V,
    code: Code,
    name: &str,
) -> Result<&'a Column, EvalFail>
    requires { is_of_file code ≡ false }
    ensures answer { AnswersAs vector_lent
        (var_vector code name.now (V.bound vars.entry.now name.now)) result }
    ensures own { IfErr result IsOwn }
{
    match vars.vector(name) {
        Some(column) => Ok(column),
        None => match vars.table(name) {
            Some(_) => Err(stop(alloc, Code::E04, name)),
            None => Err(stop(alloc, code, name)),
        },
    }
}

/// The table that a script's name gives. Where a vector has the name it is E20 with it, and an
/// unknown name is E02.
#[tactic(auto, using(crate::proofs::Bindings::bindings))]
pub fn var_table<'a, V: Vars>(alloc: Global, vars: &'a V, name: &str) -> Result<&'a Table, EvalFail>
    ensures answer { AnswersAs table_lent (var_table name.now (V.bound vars.entry.now name.now))
        result }
    ensures own { IfErr result IsOwn }
{
    match vars.table(name) {
        Some(table) => Ok(table),
        None => match vars.vector(name) {
            Some(_) => Err(stop(alloc, Code::E20, name)),
            None => Err(stop(alloc, Code::E02, name)),
        },
    }
}

/// The first place of a name, in range.
fn place_in(names: &[ColName], name: &str) -> Option<usize>
    ensures place { result ≡ place_of name.now names.now }
    ensures within { IfSome result (λ c. c < length names.now) }
{
    names.iter().position(|n| n.as_str() == name)
}

/// The column of a name, if there is one.
fn column_named<'a>(names: &[ColName], frame: &'a Frame, name: &str) -> Option<&'a Column>
    requires { length names.now ≡ length frame.now.columns }
    ensures { column_seen result ≡ column_named name.now (columns_of names.now frame.entry.now) }
{
    match place_in(names, name) {
        Some(c) => Some(frame.col(c)),
        None => None,
    }
}

/// Whether a column of the frame has the name.
fn stands_in(names: &[ColName], frame: &Frame, name: &str) -> bool
    requires { length names.now ≡ length frame.now.columns }
    ensures { result ≡ is_some (column_named name.now (columns_of names.now frame.now)) }
{
    match column_named(names, frame, name) {
        Some(_) => true,
        None => false,
    }
}

/// Whether a column has the name: one of the rows, or of the one row that all rows share.
///
/// A list names the column that a bare name gives after it. The manual's page data.table.
pub fn is_column<V: Vars>(s: &Scope<'_, V>, name: &str) -> bool
    requires { IsScope s.now }
    ensures { result ≡ is_column (env_of V.bound s.now) name.now }
{
    stands_in(s.single_names, s.single, name) || stands_in(s.names, s.wide, name)
}

/// The column of the rows that has the name, if there is one. It is lent and no cell is looked at.
///
/// It serves lists of names, as `DT[, c("a", "b")]`. The manual's page data.table.
pub fn row_column<'a, V: Vars>(s: &Scope<'a, V>, name: &str) -> Option<&'a Column>
    requires { IsScope s.now }
    ensures { column_seen result ≡ column_named name.now (env_of V.bound s.now).rows }
{
    column_named(s.names, s.wide, name)
}

/// The vector that a name gives in a bracket, special names apart: the columns of the one row come
/// before the rows', and these before the script's vectors. Any other name is E03 with it.
pub fn bracket_vector<'a, V: Vars>(
    alloc: Global,
    s: &Scope<'a, V>,
    name: &str,
) -> Result<&'a Column, EvalFail>
    requires { IsScope s.now }
    ensures answer { AnswersAs vector_lent (bracket_vector (env_of V.bound s.now) name.now) result }
    ensures own { IfErr result IsOwn }
{
    if let Some(column) = column_named(s.single_names, s.single, name) {
        return Ok(column);
    }
    if let Some(column) = column_named(s.names, s.wide, name) {
        return Ok(column);
    }
    var_vector(alloc, s.vars, Code::E03, name)
}

/// The type of `.GRP`. Where there are no groups it is E03.
fn group_kind(alloc: Global, group: u64) -> Result<ColType, EvalFail>
    ensures answer { Answers (kind_in (group_vector group)) result }
    ensures own { IfErr result IsOwn }
{
    if group == 0 {
        return Err(stop(alloc, Code::E03, ".GRP"));
    }
    Ok(ColType::Int)
}

/// The type of a special name: all are integers, but `.SD`, which is no vector.
fn special_kind<V: Vars>(
    alloc: Global,
    s: &Scope<'_, V>,
    special: Special,
) -> Result<ColType, EvalFail>
    ensures answer { Answers (kind_in (special_vector (env_of V.bound s.now) special)) result }
    ensures own { IfErr result IsOwn }
{
    match special {
        Special::Count => Ok(ColType::Int),
        Special::Places => Ok(ColType::Int),
        Special::Group => group_kind(alloc, s.group),
        Special::Rows => Err(stop(alloc, Code::E04, ".SD")),
    }
}

fn outside_kind<V: Vars>(alloc: Global, vars: &V, name: &str) -> Result<ColType, EvalFail>
    ensures answer { Answers (kind_in (var_vector Code.E02 name.now (V.bound vars.now name.now)))
        result }
    ensures own { IfErr result IsOwn }
{
    Ok(var_vector(alloc, vars, Code::E02, name)?.kind())
}

fn bracket_kind<V: Vars>(alloc: Global, s: &Scope<'_, V>, name: &str) -> Result<ColType, EvalFail>
    requires { IsScope s.now }
    ensures answer { Answers (kind_in (bracket_vector (env_of V.bound s.now) name.now)) result }
    ensures own { IfErr result IsOwn }
{
    Ok(bracket_vector(alloc, s, name)?.kind())
}

/// The type of what a name gives where a vector is wanted. It looks at no cell.
pub fn name_kind<V: Vars>(alloc: Global, s: &Scope<'_, V>, name: &str) -> Result<ColType, EvalFail>
    requires { IsScope s.now }
    ensures answer { Answers (kind_in (name_vector (env_of V.bound s.now) name.now)) result }
    ensures own { IfErr result IsOwn }
{
    if !s.inside {
        return outside_kind(alloc, s.vars, name);
    }
    match special_named(name) {
        Some(special) => special_kind(alloc, s, special),
        None => bracket_kind(alloc, s, name),
    }
}
