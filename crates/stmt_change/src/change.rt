ghost use Rattle.std.specs.Prelude.{◌≡◌};
ghost use Rattle.stmt_change.specs.Effects.{changes_options, changes_table, names_change};
ghost use Rattle.stmt_change.specs.Effects.{no_change};

use dt_base::{ColName, Text};
use dt_table::{Index, Table};
use func_table::Options;
use na_vector::Column;
use table_heap::Id;

/// A change of a table that names are bound to: it gets an index behind its others, where there is
/// one; then columns are written, replaced, added or deleted, where there is such a change.
#[derive(Drop)]
pub struct Altered {
    pub id: Id,
    pub index: Option<Index>,
    pub parts: Option<dt_table::Change>,
}

/// How a table that has a name becomes another, under all its names.
#[derive(Drop)]
pub enum TableChange {
    Nothing,
    Altered(Altered),
    /// These columns get these names, in the order of both lists.
    Rename {
        id: Id,
        cols: Vec<usize>,
        names: Vec<ColName>,
    },
    /// The rows stand in another order: another table is in its place.
    Reordered {
        id: Id,
        table: Table,
    },
    /// The rows stand as they stood; this is the key, and all indices go.
    Keyed {
        id: Id,
        key: Vec<usize>,
    },
    /// The key is forgotten.
    Unkeyed {
        id: Id,
    },
    /// All indices go.
    Unindexed {
        id: Id,
    },
}

/// How a name changes.
#[derive(Drop)]
pub enum NameChange {
    Nothing,
    /// The name is bound to a new table.
    BindNew { name: Text, table: Table },
    /// The name is bound to a vector.
    BindVector { name: Text, column: Column },
    /// The name is bound to a table that has a name.
    Alias { name: Text, id: Id },
    /// The name is removed.
    Remove { name: Text },
}

/// The change that a statement makes: of a table first, then of a name, then of the options.
#[derive(Drop)]
pub struct Change {
    pub table: TableChange,
    pub name: NameChange,
    pub options: Option<Options>,
}

impl Change {
    /// Nothing changes.
    pub fn nothing() -> Change
        ensures { result ≡ no_change }
    {
        Change::of_name(NameChange::Nothing)
    }

    /// A table changes.
    pub fn of_table(table: TableChange) -> Change
        ensures { result ≡ changes_table table }
    {
        Change {
            table,
            name: NameChange::Nothing,
            options: None,
        }
    }

    /// The options change.
    pub fn of_options(options: Options) -> Change
        ensures { result ≡ changes_options options }
    {
        Change {
            table: TableChange::Nothing,
            name: NameChange::Nothing,
            options: Some(options),
        }
    }

    /// A name changes.
    pub fn of_name(name: NameChange) -> Change
        ensures { result ≡ names_change name }
    {
        Change {
            table: TableChange::Nothing,
            name,
            options: None,
        }
    }
}
