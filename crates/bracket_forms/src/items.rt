ghost use Rattle.std.specs.Prelude.{◌≡◌, ◌++◌, ◌∷◌, [], OnOk};

use dt_base::{Cmp, Mult, NoMatch, Roll};
use dt_tree::Expr;
use std::alloc::AllocError;

/// A condition of a join: the name of a column of X, the name of a column of Y, and how their
/// cells compare.
#[derive(Clone, Copy)]
pub struct OnItem<'a> {
    pub x: &'a str,
    pub y: &'a str,
    pub cmp: Cmp,
}

/// An expression of by, with its name.
#[derive(Clone, Copy)]
pub struct Item<'a> {
    pub name: Option<&'a str>,
    pub value: &'a Expr,
}

/// What stands as by: nothing, `.EACHI`, the names of columns as texts, or expressions.
#[derive(Drop)]
pub enum By<'a> {
    No,
    EachRow,
    Texts(Vec<&'a str>),
    Items(Vec<Item<'a>>),
}

/// What the arguments of a bracket ask.
#[derive(Drop)]
pub struct Asked<'a> {
    pub by: By<'a>,
    /// keyby
    pub sorted: bool,
    pub on: Option<Vec<OnItem<'a>>>,
    pub mult: Mult,
    pub nomatch: NoMatch,
    pub roll: Option<Roll>,
    /// rollends
    pub ends: Option<(bool, bool)>,
    /// allow.cartesian
    pub cartesian: bool,
    /// .SDcols
    pub sd: Option<&'a Expr>,
    /// The words of the arguments as written, and `by` for a third item.
    pub words: Vec<&'a str>,
}

/// What stands beside an argument: whether there is a j, and whether by or roll stands anywhere.
#[derive(Clone, Copy)]
pub struct Beside {
    pub j: bool,
    pub by: bool,
    pub roll: bool,
}

/// One more word, or text.
pub fn add_word<'a>(words: &mut Vec<&'a str>, word: &'a str) -> Result<(), AllocError>
    ensures { OnOk result (words.new.items ≡ words.old.items ++ word.entry ∷ []) }
{
    words.push(word)?;
    Ok(())
}
