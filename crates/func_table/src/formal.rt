ghost use Rattle.std.specs.Prelude.{◌≡◌};
ghost use Rattle.func_table.specs.Calls.{name_of, is_needed, is_flag};

/// An argument that a call has, one for each name that arguments have in the language.
#[derive(Clone, Copy, PartialEq, Eq)]
pub enum Formal {
    File,
    Name,
    Package,
    Table,
    /// The argument of `print`, which has no name.
    Value,
    X,
    Test,
    Yes,
    No,
    /// `na.rm`
    NaRm,
    /// A name that is bound to a table.
    D,
    /// The rows of `set`.
    I,
    /// The columns of `set`.
    J,
    /// The argument of `set` that has the name `value`.
    NewValue,
    Old,
    New,
    /// The option `datatable.auto.index`.
    AutoIndex,
    /// The option `datatable.use.index`.
    UseIndex,
}

/// The names of the arguments, in the order of the variants.
static NAMES: [&str; 18] = [
    "file",
    "name",
    "package",
    "table",
    "",
    "x",
    "test",
    "yes",
    "no",
    "na.rm",
    "D",
    "i",
    "j",
    "value",
    "old",
    "new",
    "datatable.auto.index",
    "datatable.use.index",
];

/// The name of the argument. It is empty where no script can name it.
pub fn formal_word(f: Formal) -> &'static str
    ensures { result.now ≡ name_of f }
{
    NAMES[f as usize]
}

/// Whether a call lacks something without this argument.
pub fn is_needed(f: Formal) -> bool
    ensures { result ≡ is_needed f }
{
    !is_flag(f) && f != Formal::I
}

/// Whether the argument is a flag: TRUE or FALSE, as written.
pub fn is_flag(f: Formal) -> bool
    ensures { result ≡ is_flag f }
{
    matches!(f, Formal::NaRm | Formal::AutoIndex | Formal::UseIndex)
}
