ghost use Rattle.std.specs.Prelude.{◌≡◌, List, ℕ, Option};
ghost use Rattle.std.specs.Option.{option_copied};
ghost use Rattle.expr_scope.specs.Scope.{vector_seen, vector_bound, table_seen, table_bound};
ghost use Rattle.expr_model.specs.Surroundings.{Var};

use dt_base::ColName;
use dt_table::Table;
use na_vector::{Column, Frame};

/// The script's names: each is bound to a vector, to a table, or to nothing.
pub trait Vars {
    /// What a name is bound to.
    ghost bound: { Self → List ℕ → Option Var };

    /// The vector of this name; none where the name is bound to no vector.
    fn vector(&self, name: &str) -> Option<&Column>
        ensures { vector_seen (option_copied result) ≡ vector_bound (bound self.now name.now) };

    /// The table of this name; none where the name is bound to no table.
    fn table(&self, name: &str) -> Option<&Table>
        ensures { table_seen (option_copied result) ≡ table_bound (bound self.now name.now) };
}

/// The surroundings of an expression.
///
/// There are as many names as columns, and as many positions as rows. A number is at most the
/// greatest integer of a cell.
#[derive(Drop)]
pub struct Scope<'a, V: Vars> {
    /// The columns of the rows, and their names.
    pub names: &'a [ColName],
    pub wide: &'a Frame,
    /// The columns of the one row that all rows share, as a group's, and their names. They come
    /// before the others.
    pub single_names: &'a [ColName],
    pub single: &'a Frame,
    /// `.I`: where each row stands in the table, counted from 0, or none for a row of NA.
    pub positions: &'a [Option<u32>],
    /// `.N`.
    pub count: u64,
    /// `.GRP`, counted from 1, and 0 where there are no groups.
    pub group: u64,
    /// Whether the expression stands in a bracket.
    pub inside: bool,
    /// The columns of `.SD`. No vector is made of them, so only what applies a function to each
    /// looks at them.
    pub sd: &'a [usize],
    /// The script's names.
    pub vars: &'a V,
}
