ghost use Rattle.std.specs.Prelude.{◌≡◌, [], All, Ok, Err, IfErr, OnOk, if◌then◌else◌};
ghost use Rattle.std.specs.List.{list_any};
ghost use Rattle.std.specs.Str.{bytes_eq};
ghost use Rattle.dt_base.specs.Fault.{fault};
ghost use Rattle.dt_base.specs.declared.fault.Code.TheVariants.{E19};
ghost use Rattle.dt_model.specs.Table.{name_at};
ghost use Rattle.dt_table.specs.Table.{IsFilled};
ghost use Rattle.eval_fail.specs.Answers.{Answers, IsOwn};

use dt_base::{Code, ColName};
use eval_fail::{EvalFail, stop};
use std::alloc::Global;

/// The name at a place; past the end it is empty, as no column's is.
pub fn name_at(names: &[ColName], k: usize) -> &str
    ensures { result.now ≡ name_at names.now k }
{
    match names.get(k) {
        Some(name) => name.as_str(),
        None => "",
    }
}

/// Whether this is one of the names.
pub fn is_among(names: &[ColName], name: &str) -> bool
    ensures { result ≡ list_any (bytes_eq name.now) names.now }
{
    for other in names {
        if name == other.as_str() {
            return true;
        }
    }
    false
}

/// No name is empty, or E19 with this word.
#[tactic(auto, using(crate::proofs::Filled::filled_names))]
pub fn check_filled(alloc: Global, names: &[ColName], word: &str) -> Result<(), EvalFail>
    ensures answer { Answers
        (if list_any (bytes_eq []) names.now then Err (fault E19 word.now) else Ok tt) result }
    ensures filled { OnOk result (All IsFilled names.now) }
    ensures own { IfErr result IsOwn }
{
    if is_among(names, "") {
        return Err(stop(alloc, Code::E19, word));
    }
    Ok(())
}
