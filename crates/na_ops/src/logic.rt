ghost use Rattle.std.specs.Prelude.{◌≡◌};
ghost use Rattle.dt_model.specs.Operations.{Gives, both_true, one_true};
ghost use Rattle.na_common.specs.Answers.{Answers, vector_of};
ghost use Rattle.na_ops.specs.Families.{logic_answer};
ghost use Rattle.na_words.specs.Shown.{shown, IsShown};

use crate::places::{Kernel, over};
use na_common::OpFail;
use na_vector::Column;
use na_words::{NA_LGL, Words};
use std::alloc::Global;

/// `&`
pub struct Both;

/// `|`
pub struct Either;

impl Kernel<u8, u8, u8> for Both {
    ghost table = { λ a b. Gives (both_true a b) };

    fn at(x: &u8, y: &u8) -> Option<u8> {
        Some(match (*x, *y) {
            (1, 1) => 1,
            (1, NA_LGL) | (NA_LGL, 1) | (NA_LGL, NA_LGL) => NA_LGL,
            _ => 0,
        })
    }
}

impl Kernel<u8, u8, u8> for Either {
    ghost table = { λ a b. Gives (one_true a b) };

    fn at(x: &u8, y: &u8) -> Option<u8> {
        Some(match (*x, *y) {
            (1, _) | (_, 1) => 1,
            (NA_LGL, _) | (_, NA_LGL) => NA_LGL,
            _ => 0,
        })
    }
}

/// The operation on two columns.
pub fn connect<K: Kernel<u8, u8, u8>>(
    alloc: Global,
    a: Words<'_>,
    b: Words<'_>,
) -> Result<Column, OpFail>
    requires left { IsShown a }
    requires right { IsShown b }
    ensures { Answers vector_of (logic_answer K.table (shown a.entry) (shown b.entry)) result }
{
    match (a, b) {
        (Words::Lgl(x), Words::Lgl(y)) => over::<u8, u8, u8, K>(alloc, x, y),
        _ => Err(OpFail::BadType),
    }
}
