ghost use Rattle.std.specs.Prelude.{◌≡◌, ◌≤◌, ◌<◌, ◌++◌, ◌∷◌, [], Some, All, length, IfOk, OnOk};
ghost use Rattle.std.specs.Prelude.{if◌then◌else◌};
ghost use Rattle.dt_base.specs.declared.limits.TheConstants.{MAX_ROWS};
ghost use Rattle.dt_model.specs.Vector.{IsWithin};
ghost use Rattle.row_model.specs.Rows.{all_rows};

use std::alloc::{AllocError, Global};

/// Adds a row, if it is chosen.
pub fn push_if(out: &mut Vec<Option<u32>>, p: usize, chosen: bool) -> Result<(), AllocError>
    requires { p < MAX_ROWS }
    ensures { OnOk result (out.new.items ≡ out.old.items ++ (if chosen then Some p ∷ [] else [])) }
{
    if chosen {
        out.push(Some(p as u32))?;
    }
    Ok(())
}

/// All rows of a table, in order, counted from 0: what a bracket with an empty i chooses.
///
/// From the manual's page data.table, argument i.
#[tactic(auto, using(crate::proofs::Ranges::all_of_a_table))]
pub fn all_rows(alloc: Global, rows: usize) -> Result<Vec<Option<u32>>, AllocError>
    requires { rows ≤ MAX_ROWS }
    ensures rows { IfOk result (λ v. v.items ≡ all_rows rows) }
    ensures within { IfOk result (λ v. All (IsWithin rows) v.items) }
    ensures count { IfOk result (λ v. length v.items ≡ rows) }
{
    let mut out = Vec::with_capacity(alloc, rows)?;
    for p in 0..rows {
        out.push(Some(p as u32))?;
    }
    Ok(out)
}
