ghost use Rattle.std.specs.Prelude.{◌≡◌, IfErr};
ghost use Rattle.bracket_forms.specs.Items.{asked_seen};
ghost use Rattle.eval_fail.specs.Answers.{Answers, IsOwn};
ghost use Rattle.session_model.specs.Asked.{first_wanting};
ghost use Rattle.session_model.specs.Found.{joins_nothing};
ghost use Rattle.session_model.specs.Meaning.{bracket_meaning};
ghost use Rattle.session_model.specs.Query.{is_empty, ungrouped};

use bracket_forms::{Asked, By, first_wanting};
use dt_base::Code;
use dt_tree::Bracket;
use eval_fail::{EvalFail, stop, stop_unbuilt};
use std::alloc::Global;

/// Whether a bracket has nothing in it: no i, no j, no by and no argument with a name.
///
/// Such a bracket gives the table before it, also behind an assignment. dtq's own rule,
/// docs/LANGUAGE.md, section "Brackets".
#[tactic(auto, using(crate::proofs::Empty::nothing))]
pub fn is_empty(q: &Bracket) -> bool
    ensures { result ≡ is_empty (bracket_meaning q.now) }
{
    q.first.is_none() && q.second.is_none() && q.third.is_none() && q.args.as_slice().is_empty()
}

/// The fault of the first argument that wants a join, if there is one: E19 with its word.
pub fn joins_nothing(alloc: Global, q: &Asked<'_>) -> Result<(), EvalFail>
    ensures answer { Answers (joins_nothing (first_wanting (asked_seen q.now))) result }
    ensures own { IfErr result IsOwn }
{
    match first_wanting(q) {
        Some(word) => Err(stop(alloc, Code::E19, word)),
        None => Ok(()),
    }
}

/// Groups and the columns of `.SD` are not served.
pub fn ungrouped(alloc: Global, q: &Asked<'_>) -> Result<(), EvalFail>
    ensures answer { Answers (ungrouped (asked_seen q.now)) result }
    ensures own { IfErr result IsOwn }
{
    match &q.by {
        By::No => match &q.sd {
            None => Ok(()),
            Some(_) => Err(stop_unbuilt(alloc)),
        },
        By::EachRow => Err(stop_unbuilt(alloc)),
        By::Texts(_) | By::Items(_) => Err(stop_unbuilt(alloc)),
    }
}
