ghost use Rattle.std.specs.Prelude.{◌≡◌, Ok, IfErr};
ghost use Rattle.eval_fail.specs.Answers.{AnswersAs, IsOwn};
ghost use Rattle.session_model.specs.Expression.{quiet};
ghost use Rattle.expr_model.specs.Surroundings.{one_cell};
ghost use Rattle.session_model.specs.Form.{literal_cell};
ghost use Rattle.valued.specs.Valued.{valued_of};

use dt_base::limits::NA_WORD;
use dt_base::{Cell, ColType, Text};
use eval_fail::EvalFail;
use na_words::NA_LGL;
use std::alloc::Global;
use valued::{Valued, one};

/// A logical literal; any other cell counts as NA.
fn lgl_literal(alloc: Global, cell: &Cell) -> Result<Valued, EvalFail>
    ensures answer { AnswersAs valued_of
        (quiet (Ok (one_cell ColType.Lgl (literal_cell ColType.Lgl cell.now)))) result }
    ensures own { IfErr result IsOwn }
{
    match cell {
        Cell::Lgl(b) => one::<u8>(alloc, *b as u8),
        Cell::Na | Cell::Int(_) | Cell::Text(_) => one::<u8>(alloc, NA_LGL),
    }
}

/// An integer literal; any other cell counts as NA.
fn int_literal(alloc: Global, cell: &Cell) -> Result<Valued, EvalFail>
    ensures answer { AnswersAs valued_of
        (quiet (Ok (one_cell ColType.Int (literal_cell ColType.Int cell.now)))) result }
    ensures own { IfErr result IsOwn }
{
    match cell {
        Cell::Int(n) => one::<i64>(alloc, *n),
        Cell::Na | Cell::Lgl(_) | Cell::Text(_) => one::<i64>(alloc, NA_WORD),
    }
}

fn text_value(alloc: Global, text: &Text) -> Result<Valued, EvalFail>
    ensures answer { AnswersAs valued_of (quiet (Ok (one_cell ColType.Chr (Cell.Text text.now))))
        result }
    ensures own { IfErr result IsOwn }
{
    let text = text.copy()?;
    one::<Option<Text>>(alloc, Some(text))
}

/// A text literal; any other cell counts as NA.
fn text_literal(alloc: Global, cell: &Cell) -> Result<Valued, EvalFail>
    ensures answer { AnswersAs valued_of
        (quiet (Ok (one_cell ColType.Chr (literal_cell ColType.Chr cell.now)))) result }
    ensures own { IfErr result IsOwn }
{
    match cell {
        Cell::Text(text) => text_value(alloc, text),
        Cell::Na | Cell::Lgl(_) | Cell::Int(_) => one::<Option<Text>>(alloc, None),
    }
}

/// The vector of a literal: one cell of its type.
pub fn literal_value(alloc: Global, kind: ColType, cell: &Cell) -> Result<Valued, EvalFail>
    ensures answer { AnswersAs valued_of (quiet (Ok (one_cell kind (literal_cell kind cell.now))))
        result }
    ensures own { IfErr result IsOwn }
{
    match kind {
        ColType::Lgl => lgl_literal(alloc, cell),
        ColType::Int => int_literal(alloc, cell),
        ColType::Chr => text_literal(alloc, cell),
    }
}
