ghost use Rattle.std.specs.Prelude.{◌≡◌, ◌==◌, ◌++◌, ◌∷◌, [], OnOk, if◌then◌else◌};

use std::alloc::AllocError;

/// Where the cell for a place stands: a column's only cell serves every place. It is 0 for a column
/// of one cell, else the place itself.
pub fn place_in(len: usize, p: usize) -> usize
    ensures { result ≡ (if len == 1 then 0 else p) }
{
    if len == 1 { 0 } else { p }
}

/// One more at the end of the list.
pub fn push<W: Drop>(list: &mut Vec<W>, x: W) -> Result<(), AllocError>
    ensures { OnOk result (list.new.items ≡ list.old.items ++ x ∷ []) }
{
    list.push(x)?;
    Ok(())
}
