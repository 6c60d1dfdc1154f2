ghost use Rattle.std.specs.Prelude.{◌≡◌, ◌+◌, ◌*◌, ◌<◌, ◌≤◌, ◌↔◌, All, IsTrue, false, length};
ghost use Rattle.dt_base.specs.Cell.{seen};
ghost use Rattle.na_vector.specs.Frame.{vectors_of};
ghost use Rattle.order_model.specs.Order.{type_rank, cell_cmp, row_cmp, rising};
ghost use Rattle.order_model.specs.Places.{IsTrueKey};

use dt_base::{CellRef, Steps};
use na_vector::Frame;
use std::cmp::Ordering;
use std::sync::ledger::Ledger;

fn rank(c: CellRef<'_>) -> u8
    ensures { result ≡ type_rank (seen c.entry) }
{
    match c {
        CellRef::Na => 0,
        CellRef::Lgl(_) => 1,
        CellRef::Int(_) => 2,
        CellRef::Text(_) => 3,
    }
}

fn compare(a: CellRef<'_>, b: CellRef<'_>) -> Ordering
    ensures { result ≡ cell_cmp false false (seen a.entry) (seen b.entry) }
{
    match (a, b) {
        (CellRef::Lgl(x), CellRef::Lgl(y)) => x.cmp(&y),
        (CellRef::Int(x), CellRef::Int(y)) => x.cmp(&y),
        (CellRef::Text(x), CellRef::Text(y)) => x.cmp(y),
        (a, b) => rank(a).cmp(&rank(b)),
    }
}

/// The order of two rows over these columns. It touches at most two cells of each.
fn compare_rows<L: Ledger>(
    f: &Frame,
    cols: &[usize],
    r: usize,
    s: usize,
    steps: &mut Steps<L>,
) -> Ordering
    requires cols { All (λ c. c < length f.now.columns) cols.now }
    requires first { r < f.now.rows }
    requires second { s < f.now.rows }
    ensures order { result ≡ row_cmp (rising (vectors_of f.now.columns) cols.now) r s }
    ensures touches { steps.new ≤ steps.old + 2 * length cols.now }
{
    for c in cols {
        let col = f.col(*c);
        let order = compare(col.cell(r, steps), col.cell(s, steps));
        if order.is_ne() {
            return order;
        }
    }
    Ordering::Equal
}

/// Whether a key over these columns is true: no row stands above the next one, where cells rise and
/// NA stands first. It takes no memory, and touches at most two cells for each row and column.
pub fn is_sorted<L: Ledger>(f: &Frame, cols: &[usize], steps: &mut Steps<L>) -> bool
    requires { All (λ c. c < length f.now.columns) cols.now }
    ensures answer { IsTrue result ↔
        IsTrueKey (rising (vectors_of f.now.columns) cols.now) f.now.rows }
    ensures touches { steps.new ≤ steps.old + f.now.rows * (2 * length cols.now) }
{
    for row in 0..f.rows().saturating_sub(1) {
        if compare_rows(f, cols, row, row + 1, steps).is_gt() {
            return false;
        }
    }
    true
}
