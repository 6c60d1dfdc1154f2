ghost use Rattle.std.specs.Prelude.{◌≡◌, IfOk, None, length, true};
ghost use Rattle.bracket_rows.specs.Found.{found_of, is_chosen, AreFound, IsAround};
ghost use Rattle.na_vector.specs.Frame.{vectors_of};

use crate::found::Found;
use crate::scopes::scope_over;
use dt_base::Steps;
use dt_table::Table;
use expr_eval::{Scope, Vars};
use na_vector::Frame;
use row_choice::all_rows;
use std::alloc::{AllocError, Global};
use std::sync::ledger::Ledger;

/// What an expression meets over the rows that were found: the rows that i chose, gathered, or the
/// table's own columns. It is lent by `scope`.
#[derive(Drop)]
pub struct Surroundings {
    /// The rows that were gathered; without i none.
    frame: Option<Frame>,
    /// Without i, where all rows stand.
    all: Vec<Option<u32>>,
    /// No column.
    none: Frame,
}

/// The columns of the rows of a table that were found, as columns of their own.
///
/// It touches a cell for each row in each column.
#[tactic(auto, using(crate::proofs::WhatIsMet::founds))]
pub fn found_columns<L: Ledger>(
    alloc: Global,
    x: &Table,
    found: &Found,
    steps: &mut Steps<L>,
) -> Result<Frame, AllocError>
    requires { AreFound x.now found.now }
    ensures vectors { IfOk result
        (λ f. vectors_of f.columns ≡ (found_of x.now found.now).columns.vectors) }
    ensures rows { IfOk result (λ f. f.rows ≡ length (found_of x.now found.now).places) }
{
    match &found.positions {
        Some(positions) => x.frame().gather(alloc, positions, steps),
        None => x.frame().copy(alloc, steps),
    }
}

/// The rows that i chose, gathered.
#[tactic(auto, using(crate::proofs::WhatIsMet::founds))]
fn chosen<L: Ledger>(
    alloc: Global,
    x: &Table,
    found: &Found,
    steps: &mut Steps<L>,
) -> Result<Surroundings, AllocError>
    requires rows { AreFound x.now found.now }
    requires chosen { is_chosen found.now ≡ true }
    ensures around { IfOk result (IsAround x.now found.now) }
{
    let frame = found_columns(alloc, x, found, steps)?;
    Ok(Surroundings {
        frame: Some(frame),
        all: Vec::new(alloc),
        none: Frame::new(alloc),
    })
}

/// All rows, as they stand.
#[tactic(auto, using(crate::proofs::WhatIsMet::founds))]
fn whole(alloc: Global, x: &Table, found: &Found) -> Result<Surroundings, AllocError>
    requires { found.now.positions ≡ None }
    ensures around { IfOk result (IsAround x.now found.now) }
{
    let all = all_rows(alloc, x.frame().rows())?;
    Ok(Surroundings {
        frame: None,
        all,
        none: Frame::new(alloc),
    })
}

/// What an expression meets over the rows of a table that were found.
///
/// Where there is an i its rows are gathered, which touches a cell for each of them in each column.
/// Without i nothing is touched, and the table's own columns are met.
pub fn surround<L: Ledger>(
    alloc: Global,
    x: &Table,
    found: &Found,
    steps: &mut Steps<L>,
) -> Result<Surroundings, AllocError>
    requires { AreFound x.now found.now }
    ensures around { IfOk result (IsAround x.now found.now) }
{
    match &found.positions {
        Some(_) => chosen(alloc, x, found, steps),
        None => whole(alloc, x, found),
    }
}

impl Surroundings {
    ghost use Rattle.std.specs.Prelude.{◌≡◌};
    ghost use Rattle.bracket_rows.specs.Found.{found_of, met_frame, met_places, IsAround};
    ghost use Rattle.bracket_rows.specs.Scopes.{IsOverRows};
    ghost use Rattle.expr_scope.specs.Scope.{env_of, IsScope};
    ghost use Rattle.session_model.specs.Found.{rows_env};

    /// The columns: those that were gathered, or the table's own.
    fn frame<'a>(&'a self, x: &'a Table) -> &'a Frame
        ensures { result.now ≡ met_frame x.entry.now self.entry.now }
    {
        match &self.frame {
            Some(frame) => frame,
            None => x.frame(),
        }
    }

    /// Where their rows stand.
    fn places<'a>(&'a self, found: &'a Found) -> &'a [Option<u32>]
        ensures { result.now ≡ met_places found.entry.now self.entry.now }
    {
        match &found.positions {
            Some(positions) => positions.as_slice(),
            None => self.all.as_slice(),
        }
    }

    /// The surroundings as `expr_eval` takes them, where the script has these names.
    #[tactic(auto, using(crate::proofs::WhatIsMet::around))]
    pub fn scope<'a, V: Vars>(&'a self, x: &'a Table, found: &'a Found, vars: &'a V) -> Scope<'a, V>
        requires { IsAround x.now found.now self.now }
        ensures scope { IsScope result }
        ensures rows { IsOverRows result }
        ensures env { env_of V.bound result
            ≡ rows_env (found_of x.entry.now found.entry.now) (V.bound vars.entry.now) }
    {
        scope_over(
            x.names(),
            self.frame(x),
            self.places(found),
            &self.none,
            vars,
        )
    }
}
