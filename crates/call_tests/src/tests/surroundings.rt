ghost use Rattle.std.specs.Prelude.{◌≡◌, ◌<◌, ◌≤◌, IfSome, length};
ghost use Rattle.dt_base.specs.declared.limits.TheConstants.{MAX_ROWS};
ghost use Rattle.expr_scope.specs.Scope.{IsScope};

use dt_base::{ColName, Text};
use dt_table::Table;
use expr_eval::{Scope, Vars};
use na_vector::{Column, Frame};
use std::alloc::{AllocError, Global};

/// The names of a script that has bound none.
pub struct NoNames;

impl Vars for NoNames {
    ghost use Rattle.std.specs.Prelude.{None};

    ghost bound = { λ _ _. None };

    fn vector(&self, _name: &str) -> Option<&Column> {
        None
    }

    fn table(&self, _name: &str) -> Option<&Table> {
        None
    }
}

/// The parts of a bracket: three rows with the column `a`, and the one row that they share, with
/// the column `g`.
#[derive(Drop)]
pub struct Rows {
    pub names: Vec<ColName>,
    pub wide: Frame,
    pub single_names: Vec<ColName>,
    pub single: Frame,
    pub positions: Vec<Option<u32>>,
}

/// One column of these integers.
fn one_column(alloc: Global, words: Vec<i64>) -> Result<Frame, AllocError>
    requires { length words.items ≤ MAX_ROWS }
{
    let mut frame = Frame::new(alloc);
    frame.push_col(Column::from_ints(words))?;
    Ok(frame)
}

/// One name.
fn one_name(alloc: Global, name: &str) -> Result<Vec<ColName>, AllocError> {
    let text = Text::make(alloc, name)?;
    vec![in alloc; text].map_err(AllocError::from)
}

/// `a` is 5, NA and -7, and `g` is 4.
pub fn parts(alloc: Global) -> Result<Rows, AllocError> {
    let names = one_name(alloc, "a")?;
    let wide = one_column(alloc, vec![in alloc; 5i64, i64::MIN, -7]?)?;
    let single_names = one_name(alloc, "g")?;
    let single = one_column(alloc, vec![in alloc; 4i64]?)?;
    let positions = vec![in alloc; Some(0u32), Some(1), Some(2)].map_err(AllocError::from)?;
    Ok(Rows {
        names,
        wide,
        single_names,
        single,
        positions,
    })
}

/// The surroundings of these parts: in the group of this number, or in none where it is 0.
pub fn scope<'a>(rows: &'a Rows, script: &'a NoNames, group: u32) -> Option<Scope<'a, NoNames>>
    ensures { IfSome result IsScope }
{
    let fits = rows.names.len() == rows.wide.width()
        && rows.single_names.len() == rows.single.width()
        && rows.positions.len() == rows.wide.rows();
    if !fits {
        return None;
    }
    Some(Scope {
        names: &rows.names,
        wide: &rows.wide,
        single_names: &rows.single_names,
        single: &rows.single,
        positions: &rows.positions,
        count: 3,
        group: group as u64,
        inside: true,
        sd: &[],
        vars: script,
    })
}
