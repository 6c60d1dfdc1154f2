ghost use Rattle.std.specs.Prelude.{◌≡◌, ◌<◌, ◌++◌, ◌∷◌, [], OnOk, IfOk, IfSome, All, None, Some};
ghost use Rattle.std.specs.Prelude.{length, map};
ghost use Rattle.dt_model.specs.Table.{place_of};
ghost use Rattle.dt_table.specs.Table.{IsFilled};
ghost use Rattle.expr_scope.specs.Scope.{columns_of, column_seen, env_of, IsScope};
ghost use Rattle.expr_model.specs.Surroundings.{column_named};
ghost use Rattle.func_table.specs.Special.{special_of};
ghost use Rattle.session_model.specs.Columns.{numbered_name, special_name, form_name};
ghost use Rattle.session_model.specs.Columns.{unwritten_name, column_name, item_name, item_names};
ghost use Rattle.session_model.specs.Form.{BareName};
ghost use Rattle.session_model.specs.Meaning.{meaning, arg_meaning};

use crate::lists::add;
use arg_bind::bare_name;
use dt_base::{ColName, Text};
use dt_tree::{Arg, Expr};
use expr_eval::{Scope, Vars, is_column};
use func_table::{Special, special_named};
use na_vector::{Column, Frame};
use std::alloc::{AllocError, Global};

/// The first place of a name, in range.
#[tactic(auto, using(crate::proofs::TextFacts::found_filled))]
fn place_in(names: &[ColName], name: &str) -> Option<usize>
    ensures place { result ≡ place_of name.now names.now }
    ensures within { IfSome result (λ c. c < length names.now) }
    ensures filled { All IsFilled names.now → IfSome result (λ c. IsFilled name.now) }
{
    names.iter().position(|n| n.as_str() == name)
}

/// The column of a name, if there is one.
pub fn column_named<'a>(names: &[ColName], frame: &'a Frame, name: &str) -> Option<&'a Column>
    requires { length names.now ≡ length frame.now.columns }
    ensures vector { column_seen result ≡ column_named name.now
        (columns_of names.now frame.entry.now) }
    ensures rows { IfSome result (λ c. length c.now.vector.cells ≡ frame.entry.now.rows) }
    ensures filled { All IsFilled names.now → IfSome result (λ c. IsFilled name.now) }
{
    match place_in(names, name) {
        Some(c) => Some(frame.col(c)),
        None => None,
    }
}

/// V and the place.
fn numbered_name(alloc: Global, place: usize) -> Result<ColName, AllocError>
    ensures name { IfOk result (λ n. n ≡ numbered_name place) }
    ensures filled { IfOk result IsFilled }
{
    Ok(Text::from_string(format!(in alloc; "V{place}")?))
}

/// The same name.
fn own_name(alloc: Global, name: &str) -> Result<ColName, AllocError>
    ensures name { IfOk result (λ n. n ≡ name.now) }
    ensures filled { IsFilled name.now → IfOk result IsFilled }
{
    Text::make(alloc, name)
}

/// The name that a bare name gives which is no special one: a column keeps its name.
fn plain_name<V: Vars>(
    alloc: Global,
    s: &Scope<'_, V>,
    place: usize,
    name: &str,
) -> Result<ColName, AllocError>
    requires { IsScope s.now }
    ensures name { IfOk result (λ n. n ≡ special_name (env_of V.bound s.now) place name.now None) }
    ensures filled { IsFilled name.now → IfOk result IsFilled }
{
    if is_column(s, name) {
        return own_name(alloc, name);
    }
    numbered_name(alloc, place)
}

/// The name that a bare name gives: `.N` is `N`, and any other special name has its number.
fn special_name<V: Vars>(
    alloc: Global,
    s: &Scope<'_, V>,
    place: usize,
    name: &str,
) -> Result<ColName, AllocError>
    requires { IsScope s.now }
    ensures name { IfOk result
        (λ n. n ≡ special_name (env_of V.bound s.now) place name.now (special_of name.now)) }
    ensures filled { IsFilled name.now → IfOk result IsFilled }
{
    match special_named(name) {
        Some(Special::Count) => own_name(alloc, "N"),
        Some(Special::Places) => numbered_name(alloc, place),
        Some(Special::Group) => numbered_name(alloc, place),
        Some(Special::Rows) => numbered_name(alloc, place),
        None => plain_name(alloc, s, place, name),
    }
}

/// The name that a bare name gives in a bracket; an empty one counts as none.
fn bare_column<V: Vars>(
    alloc: Global,
    s: &Scope<'_, V>,
    place: usize,
    name: &str,
) -> Result<ColName, AllocError>
    requires { IsScope s.now }
    ensures name { IfOk result
        (λ n. n ≡ form_name (env_of V.bound s.now) place (BareName name.now)) }
    ensures filled { IfOk result IsFilled }
{
    if name.is_empty() {
        return numbered_name(alloc, place);
    }
    special_name(alloc, s, place, name)
}

/// The name that an expression gives in a bracket.
#[tactic(auto, using(crate::proofs::Written::name_forms))]
fn form_name<V: Vars>(
    alloc: Global,
    s: &Scope<'_, V>,
    place: usize,
    e: &Expr,
) -> Result<ColName, AllocError>
    requires { IsScope s.now }
    ensures name { IfOk result
        (λ n. n ≡ form_name (env_of V.bound s.now) place (meaning e.now).form) }
    ensures filled { IfOk result IsFilled }
{
    match bare_name(e) {
        Some(name) => bare_column(alloc, s, place, name),
        None => numbered_name(alloc, place),
    }
}

/// The name where none is written. Outside brackets it is V and the place.
fn unwritten_name<V: Vars>(
    alloc: Global,
    s: &Scope<'_, V>,
    place: usize,
    e: &Expr,
) -> Result<ColName, AllocError>
    requires { IsScope s.now }
    ensures name { IfOk result
        (λ n. n ≡ unwritten_name (env_of V.bound s.now) place (meaning e.now).form) }
    ensures filled { IfOk result IsFilled }
{
    if s.inside {
        return form_name(alloc, s, place, e);
    }
    numbered_name(alloc, place)
}

/// The name that is written; an empty one counts as none.
fn written_name<V: Vars>(
    alloc: Global,
    s: &Scope<'_, V>,
    place: usize,
    name: &str,
    e: &Expr,
) -> Result<ColName, AllocError>
    requires { IsScope s.now }
    ensures name { IfOk result
        (λ n. n ≡ column_name (env_of V.bound s.now) place (Some name.now) (meaning e.now).form) }
    ensures filled { IfOk result IsFilled }
{
    if name.is_empty() {
        return unwritten_name(alloc, s, place, e);
    }
    Text::make(alloc, name)
}

/// The name of the column that an item gives at a place, counted from 1.
fn item_name<V: Vars>(
    alloc: Global,
    s: &Scope<'_, V>,
    place: usize,
    arg: &Arg,
) -> Result<ColName, AllocError>
    requires { IsScope s.now }
    ensures name { IfOk result
        (λ n. n ≡ item_name (env_of V.bound s.now) place (arg_meaning arg.now)) }
    ensures filled { IfOk result IsFilled }
{
    match &arg.name {
        Some(name) => written_name(alloc, s, place, name.as_str(), &arg.value),
        None => unwritten_name(alloc, s, place, &arg.value),
    }
}

/// Puts the name of the column that an item gives behind the others.
fn push_name<V: Vars>(
    alloc: Global,
    names: &mut Vec<ColName>,
    s: &Scope<'_, V>,
    place: usize,
    arg: &Arg,
) -> Result<(), AllocError>
    requires { IsScope s.now }
    ensures names { OnOk result
        (names.new.items ≡ names.old.items ++ item_name (env_of V.bound s.now) place
        (arg_meaning arg.now) ∷ []) }
    ensures filled { All IsFilled names.old.items → OnOk result (All IsFilled names.new.items) }
{
    let name = item_name(alloc, s, place, arg)?;
    add(names, name)
}

/// The names of the columns that these items give.
///
/// A column has the name that is written. In a bracket a bare column keeps its name, and `.N` is
/// `N`; any other is V and its place, counted from 1. dtq's own rule, docs/LANGUAGE.md, section
/// "Brackets".
pub fn item_names<V: Vars>(
    alloc: Global,
    s: &Scope<'_, V>,
    args: &[Arg],
) -> Result<Vec<ColName>, AllocError>
    requires { IsScope s.now }
    ensures names { IfOk result
        (λ v. v.items ≡ item_names (env_of V.bound s.now) 1 (map arg_meaning args.now)) }
    ensures filled { IfOk result (λ v. All IsFilled v.items) }
    ensures count { IfOk result (λ v. length v.items ≡ length args.now) }
{
    let mut names = Vec::new(alloc);
    for (i, arg) in args.iter().enumerate() {
        push_name(alloc, &mut names, s, i + 1, arg)?;
    }
    Ok(names)
}
