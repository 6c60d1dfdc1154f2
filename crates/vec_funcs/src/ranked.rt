ghost use Rattle.std.specs.Prelude.{◌≡◌, not};
ghost use Rattle.std.specs.Ordering.{int_cmp};
ghost use Rattle.dt_model.specs.Coercion.{is_na};
ghost use Rattle.dt_model.specs.Operations.{number, order_of};
ghost use Rattle.vector_model.specs.Functions.{extreme_type, is_less, is_before};
ghost use Rattle.na_vector.specs.Words.{int_cell};
ghost use Rattle.vec_funcs.specs.Ranks.{has_rank, ranked_lgl, ranked_int, ranked_text};

use dt_base::Text;
use dt_base::limits::NA_WORD;
use na_words::{Number, Word};

/// A word with a place in the order of its cells.
pub trait Ranked: Word {
    /// Whether it stands before the other one: NA stands neither before nor behind.
    fn is_before(&self, other: &Self) -> bool
        ensures { result ≡ is_before (extreme_type Self.kind) (Self.cell self.now)
            (Self.cell other.now) };

    /// Its cell is NA, or has a place in the order.
    ghost ranked: { (x : Self) →
        has_rank (extreme_type Self.Word.kind) (Self.Word.cell x)
        ≡ not (is_na (Self.Word.cell x)) };
}

/// Whether an integer is less than another one, where neither is NA.
fn is_less(x: i64, y: i64) -> bool
    ensures { result ≡ is_less (order_of int_cmp (number (int_cell x)) (number (int_cell y))) }
{
    x != NA_WORD && y != NA_WORD && x < y
}

impl Ranked for u8 {
    ghost ranked = { ranked_lgl };

    fn is_before(&self, other: &u8) -> bool {
        is_less(self.number(), other.number())
    }
}

impl Ranked for i64 {
    ghost ranked = { ranked_int };

    fn is_before(&self, other: &i64) -> bool {
        is_less(*self, *other)
    }
}

impl Ranked for Option<Text> {
    ghost ranked = { ranked_text };

    fn is_before(&self, other: &Option<Text>) -> bool {
        match (self, other) {
            (Some(x), Some(y)) => x.as_str() < y.as_str(),
            _ => false,
        }
    }
}
