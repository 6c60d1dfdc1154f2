ghost use Rattle.std.specs.Prelude.{◌≡◌, ◌∷◌, [], IfOk, IfErr};
ghost use Rattle.vector_model.specs.Functions.{plain, warned};
ghost use Rattle.eval_fail.specs.Answers.{AnswersAs, IsOwn};
ghost use Rattle.na_words.specs.Shown.{vector_from};
ghost use Rattle.valued.specs.Valued.{valued_of};

use dt_base::Warns;
use eval_fail::EvalFail;
use na_vector::Column;
use na_words::Target;
use std::alloc::{AllocError, Global};

/// What a function gives: a column of its own, and the warnings that it comes with.
#[derive(Drop)]
pub struct Valued {
    pub column: Column,
    pub warns: Warns,
}

/// The column of one word.
fn single<W: Target + Drop>(alloc: Global, word: W) -> Result<Column, AllocError>
    requires { W.fine word }
    ensures { IfOk result (λ c. c.vector ≡ vector_from W.kind (W.cell word ∷ [])) }
{
    let mut words = Vec::new(alloc);
    words.push(word)?;
    W::column(words)
}

/// A column of one word, with these warnings.
pub fn one_warned<W: Target + Drop>(
    alloc: Global,
    word: W,
    warns: Warns,
) -> Result<Valued, EvalFail>
    requires { W.fine word }
    ensures answer { AnswersAs valued_of (warned warns W.kind (W.cell word ∷ [])) result }
    ensures own { IfErr result IsOwn }
{
    match single::<W>(alloc, word) {
        Ok(column) => Ok(Valued { column, warns }),
        Err(e) => Err(EvalFail::NoMemory(e)),
    }
}

/// A column of one word, without a warning.
pub fn one<W: Target + Drop>(alloc: Global, word: W) -> Result<Valued, EvalFail>
    requires { W.fine word }
    ensures answer { AnswersAs valued_of (plain W.kind (W.cell word ∷ [])) result }
    ensures own { IfErr result IsOwn }
{
    one_warned::<W>(alloc, word, Warns::none())
}
