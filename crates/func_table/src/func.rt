ghost use Rattle.std.specs.Prelude.{◌≡◌};
ghost use Rattle.func_table.specs.Calls.{arity_of, formals_of, func_of, is_later, is_list, kind_of};
ghost use Rattle.func_table.specs.Calls.{later_of, word_of};

use crate::Formal;
use crate::rows::named;

/// A function or command that has a row of its own. `is_later` tells which of them nothing serves
/// yet.
#[derive(Clone, Copy)]
pub enum Func {
    DataTable,
    Fread,
    Copy,
    Library,
    Print,
    Fwrite,
    Rm,
    Set,
    /// `setnames`
    SetNames,
    /// `setkey`
    SetKey,
    /// `setorder`
    SetOrder,
    /// `setindex`
    SetIndex,
    /// `options`
    SetOptions,
    Key,
    Indices,
    Order,
    /// `c`
    Combine,
    /// `is.na`
    IsNa,
    /// `fifelse`
    Fifelse,
    AsLogical,
    AsInteger,
    AsCharacter,
    Sum,
    Min,
    Max,
    Any,
    All,
    First,
    Last,
    Length,
    Nrow,
    Ncol,
    Names,
}

/// What a call is: it gives a new table; it is a whole statement; it gives a vector from vectors,
/// or one that tells of a table; it tells of a table's orders, as a whole statement's value alone;
/// or it gives rows in an order, as the i of a bracket alone.
#[derive(Clone, Copy, PartialEq, Eq)]
pub enum Kind {
    Table,
    Command,
    Vector,
    Description,
    Report,
    Rows,
}

/// How arguments are bound: to formals; one or more of them as columns, whose names are free; one
/// or more of them, which have no names; to formals, with any number behind them, which have no
/// names; or one or more of them to formals, each by its name.
#[derive(Clone, Copy)]
pub enum Arity {
    Fixed,
    Columns,
    Unnamed,
    More,
    Named,
}

/// What a call is that the language has and nothing serves yet: it gives a vector; or it gives
/// none, or stands only where a rule of its own says.
#[derive(Clone, Copy)]
pub enum Later {
    Vector,
    NoVector,
}

/// The functions by their words, in the order of the variants.
static FUNCS: [(&str, Func); 33] = [
    ("data.table", Func::DataTable),
    ("fread", Func::Fread),
    ("copy", Func::Copy),
    ("library", Func::Library),
    ("print", Func::Print),
    ("fwrite", Func::Fwrite),
    ("rm", Func::Rm),
    ("set", Func::Set),
    ("setnames", Func::SetNames),
    ("setkey", Func::SetKey),
    ("setorder", Func::SetOrder),
    ("setindex", Func::SetIndex),
    ("options", Func::SetOptions),
    ("key", Func::Key),
    ("indices", Func::Indices),
    ("order", Func::Order),
    ("c", Func::Combine),
    ("is.na", Func::IsNa),
    ("fifelse", Func::Fifelse),
    ("as.logical", Func::AsLogical),
    ("as.integer", Func::AsInteger),
    ("as.character", Func::AsCharacter),
    ("sum", Func::Sum),
    ("min", Func::Min),
    ("max", Func::Max),
    ("any", Func::Any),
    ("all", Func::All),
    ("first", Func::First),
    ("last", Func::Last),
    ("length", Func::Length),
    ("nrow", Func::Nrow),
    ("ncol", Func::Ncol),
    ("names", Func::Names),
];

/// Their formals, in the same order and in that in which arguments are looked at.
static FORMALS: [&[Formal]; 33] = [
    &[], // data.table
    &[Formal::File], // fread
    &[Formal::Table], // copy
    &[Formal::Package], // library
    &[Formal::Value], // print
    &[Formal::Table, Formal::File], // fwrite
    &[Formal::Name], // rm
    &[Formal::D, Formal::I, Formal::J, Formal::NewValue], // set
    &[Formal::D, Formal::Old, Formal::New], // setnames
    &[Formal::D], // setkey
    &[Formal::D], // setorder
    &[Formal::D], // setindex
    &[Formal::AutoIndex, Formal::UseIndex], // options
    &[Formal::D], // key
    &[Formal::D], // indices
    &[], // order
    &[], // c
    &[Formal::X], // is.na
    &[Formal::Test, Formal::Yes, Formal::No], // fifelse
    &[Formal::X], // as.logical
    &[Formal::X], // as.integer
    &[Formal::X], // as.character
    &[Formal::X, Formal::NaRm], // sum
    &[Formal::X, Formal::NaRm], // min
    &[Formal::X, Formal::NaRm], // max
    &[Formal::X], // any
    &[Formal::X], // all
    &[Formal::X], // first
    &[Formal::X], // last
    &[Formal::X], // length
    &[Formal::D], // nrow
    &[Formal::D], // ncol
    &[Formal::D], // names
];

/// The calls that nothing serves yet, with what they are.
static LATER: [(&str, Later); 9] = [
    ("cumsum", Later::Vector),
    ("shift", Later::Vector),
    ("rleid", Later::Vector),
    ("frank", Later::Vector),
    ("melt", Later::NoVector),
    ("dcast", Later::NoVector),
    ("foverlaps", Later::NoVector),
    ("lapply", Later::NoVector),
    ("J", Later::NoVector),
];

/// The function of this name, where there is one.
pub fn func_named(name: &str) -> Option<Func>
    ensures { result ≡ func_of name.now }
{
    named(&FUNCS, name)
}

/// The name of a function.
pub fn func_word(f: Func) -> &'static str
    ensures { result.now ≡ word_of f }
{
    FUNCS[f as usize].0
}

/// What the call of a function is.
pub fn kind_of(f: Func) -> Kind
    ensures { result ≡ kind_of f }
{
    match f {
        Func::DataTable | Func::Fread | Func::Copy => Kind::Table,
        Func::Library | Func::Print | Func::Fwrite | Func::Rm => Kind::Command,
        Func::Set | Func::SetNames | Func::SetKey | Func::SetOrder => Kind::Command,
        Func::SetIndex | Func::SetOptions => Kind::Command,
        Func::Key | Func::Indices => Kind::Report,
        Func::Order => Kind::Rows,
        Func::Nrow | Func::Ncol | Func::Names => Kind::Description,
        _ => Kind::Vector,
    }
}

/// How the arguments of a function are bound.
pub fn arity_of(f: Func) -> Arity
    ensures { result ≡ arity_of f }
{
    match f {
        Func::DataTable => Arity::Columns,
        Func::Combine | Func::Order => Arity::Unnamed,
        Func::SetKey | Func::SetOrder | Func::SetIndex => Arity::More,
        Func::SetOptions => Arity::Named,
        _ => Arity::Fixed,
    }
}

/// The formals of a function, in the order in which its arguments are looked at.
pub fn formals(f: Func) -> &'static [Formal]
    ensures { result.now ≡ formals_of f }
{
    FORMALS[f as usize]
}

/// Whether the language has a call of this name that nothing serves yet.
pub fn is_later(name: &str) -> bool
    ensures { result ≡ is_later name.now }
{
    named(&LATER, name).is_some()
}

/// Whether this names the list of a bracket, `.( )` or `list( )`.
pub fn is_list(name: &str) -> bool
    ensures { result ≡ is_list name.now }
{
    name == "." || name == "list"
}

/// What a call of this name is, where the language has one that is no served function.
pub fn later_named(name: &str) -> Option<Later>
    ensures { result ≡ later_of name.now }
{
    if is_list(name) {
        return Some(Later::NoVector);
    }
    named(&LATER, name)
}
