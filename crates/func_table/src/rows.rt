ghost use Rattle.std.specs.Prelude.{◌≡◌, map};
ghost use Rattle.func_table.specs.Rows.{looked};
ghost use Rattle.func_table.specs.Seen.{row_seen};

/// What the first row with this word names.
pub fn named<T: Copy>(rows: &[(&'static str, T)], word: &str) -> Option<T>
    ensures { result ≡ looked word.now (map row_seen rows.now) }
{
    for (name, what) in rows {
        if word == *name {
            return Some(*what);
        }
    }
    None
}
