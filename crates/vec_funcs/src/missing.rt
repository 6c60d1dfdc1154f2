ghost use Rattle.std.specs.Prelude.{◌≡◌, map};
ghost use Rattle.std.specs.List.{list_any};
ghost use Rattle.dt_model.specs.Coercion.{is_na};
ghost use Rattle.vector_model.specs.Functions.{meets_na};

use na_words::Word;

/// Whether some word is NA.
pub fn has_na<A: Word>(words: &[A]) -> bool
    ensures { result ≡ list_any is_na (map A.cell words.now) }
{
    for x in words {
        if x.is_na() {
            return true;
        }
    }
    false
}

/// Whether some word is NA, and NA is not left out.
pub fn meets_na<A: Word>(na_rm: bool, words: &[A]) -> bool
    ensures { result ≡ meets_na na_rm (map A.cell words.now) }
{
    !na_rm && has_na(words)
}
