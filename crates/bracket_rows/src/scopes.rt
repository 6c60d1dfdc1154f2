ghost use Rattle.std.specs.Prelude.{◌≡◌, [], All, length};
ghost use Rattle.bracket_rows.specs.Scopes.{IsOverRows};
ghost use Rattle.dt_table.specs.Plain.{plain};
ghost use Rattle.dt_table.specs.Table.{IsFilled};
ghost use Rattle.expr_scope.specs.Scope.{columns_of, env_of, IsScope};
ghost use Rattle.row_model.specs.Rows.{all_rows};
ghost use Rattle.expr_model.specs.Surroundings.{in_rows};
ghost use Rattle.session_model.specs.Found.{whole_rows};

use dt_base::ColName;
use dt_table::Table;
use expr_eval::{Scope, Vars};
use na_vector::Frame;

/// What an expression meets in a bracket without groups: these columns, whose rows stand at these
/// places of the table. `none` is a frame without columns.
pub fn scope_over<'a, V: Vars>(
    names: &'a [ColName],
    frame: &'a Frame,
    positions: &'a [Option<u32>],
    none: &'a Frame,
    vars: &'a V,
) -> Scope<'a, V>
    requires named { length names.now ≡ length frame.now.columns }
    requires positions { length positions.now ≡ frame.now.rows }
    requires none { none.now.columns ≡ [] }
    requires filled { All IsFilled names.now }
    ensures scope { IsScope result }
    ensures rows { IsOverRows result }
    ensures env { env_of V.bound result ≡ in_rows (columns_of names.entry.now frame.entry.now)
        positions.entry.now (V.bound vars.entry.now) }
{
    let count = frame.rows();
    Scope {
        names,
        wide: frame,
        single_names: &[],
        single: none,
        positions,
        count: count as u64,
        group: 0,
        inside: true,
        sd: &[],
        vars,
    }
}

/// What an expression meets in a bracket over all rows of a table, which stand at `all`. `none` is
/// a frame without columns.
pub fn whole_scope<'a, V: Vars>(
    x: &'a Table,
    all: &'a [Option<u32>],
    none: &'a Frame,
    vars: &'a V,
) -> Scope<'a, V>
    requires all { all.now ≡ all_rows x.now.frame.rows }
    requires count { length all.now ≡ x.now.frame.rows }
    requires none { none.now.columns ≡ [] }
    ensures scope { IsScope result }
    ensures rows { IsOverRows result }
    ensures env { env_of V.bound result ≡ whole_rows (plain x.entry.now) (V.bound vars.entry.now) }
{
    scope_over(x.names(), x.frame(), all, none, vars)
}
