ghost use Rattle.std.specs.Prelude.{◌≡◌, ◌==◌, ℕ, length, map};
ghost use Rattle.std.specs.List.{IsDistinct, list_any};
ghost use Rattle.dt_table.specs.Change.{cols_of, indices_changed, is_named, key_changed};
ghost use Rattle.dt_table.specs.Change.{parts_seen, stays_before};

use crate::apply::{is_named, stays_before};
use crate::{Index, Part};

/// The key up to its first column that a part names, by the places that its columns have then.
/// No two parts name one column.
pub fn cut_key(key: &mut Vec<usize>, parts: &[Part])
    requires once { IsDistinct (λ (a b : ℕ). a == b) (cols_of (parts_seen parts.now)) }
    ensures { key.new.items ≡ key_changed (parts_seen parts.now) key.old.items }
{
    let mut k = 0;
    while k < key.len() && !is_named(parts, key[k]) {
        key[k] = stays_before(parts, key[k]);
        k += 1;
    }
    key.truncate(k);
}

/// Whether a part names one of these columns.
fn is_touched(cols: &[usize], parts: &[Part]) -> bool
    ensures { result ≡ list_any (is_named (parts_seen parts.now)) cols.now }
{
    for c in cols {
        if is_named(parts, *c) {
            return true;
        }
    }
    false
}

/// The columns by the places that they have then.
fn move_columns(cols: &mut Vec<usize>, parts: &[Part])
    requires once { IsDistinct (λ (a b : ℕ). a == b) (cols_of (parts_seen parts.now)) }
    ensures { cols.new.items ≡ map (stays_before (parts_seen parts.now)) cols.old.items }
{
    for k in 0..cols.len() {
        cols[k] = stays_before(parts, cols[k]);
    }
}

/// The indices of which no part names a column, by the places that their columns have then.
pub fn cut_indices(indices: &mut Vec<Index>, parts: &[Part])
    requires once { IsDistinct (λ (a b : ℕ). a == b) (cols_of (parts_seen parts.now)) }
    ensures { indices.new.items ≡ indices_changed (parts_seen parts.now) indices.old.items }
{
    let mut k = 0;
    while k < indices.len() {
        if is_touched(&indices[k].cols, parts) {
            let _ = indices.remove(k);
        } else {
            move_columns(&mut indices[k].cols, parts);
            k += 1;
        }
    }
}
