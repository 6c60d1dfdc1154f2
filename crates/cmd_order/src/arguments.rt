ghost use Rattle.std.specs.Prelude.{◌≡◌, ◌++◌, ◌∷◌, [], IfErr, IfOk, OnOk, Ok, cond, is_none, map};
ghost use Rattle.cmd_order.specs.Columns.{forms_behind};
ghost use Rattle.eval_fail.specs.Answers.{AnswersAs, IsOwn};
ghost use Rattle.session_model.specs.Binding.{is_free};
ghost use Rattle.session_model.specs.Expression.{names_in};
ghost use Rattle.session_model.specs.Meaning.{arg_meaning};
ghost use Rattle.session_model.specs.Orders.{columns_written, is_null_alone};
ghost use Rattle.written_forms.specs.Seen.{form_seen};

use arg_bind::next;
use dt_tree::Arg;
use eval_fail::EvalFail;
use func_table::Formal;
use std::alloc::{AllocError, Global};
use written_forms::{Written, form_of};

/// One more form.
fn add<'a>(forms: &mut Vec<Written<'a>>, form: Written<'a>) -> Result<(), AllocError>
    ensures { OnOk result (forms.new.items ≡ forms.old.items ++ form.entry ∷ []) }
{
    Ok(forms.push(form)?)
}

/// How many arguments without a name stand before the columns: one, unless D is given by its name.
fn tables_before(args: &[Arg]) -> usize
    ensures { result ≡ cond (is_free (names_in (map arg_meaning args.now)) Formal.D) 1 0 }
{
    next(args, 0, Formal::D)
}

fn is_unnamed(arg: &Arg) -> bool
    ensures { result ≡ is_none (arg_meaning arg.now).name }
{
    arg.name.is_none()
}

/// An argument's value, as it is written.
fn argument_form(arg: &Arg) -> Written<'_>
    ensures { form_seen result ≡ (arg_meaning arg.now).means.form }
{
    form_of(&arg.value)
}

/// The arguments without a name, as they are written, but the first `left` of them.
fn forms_behind<'a>(
    alloc: Global,
    left: usize,
    args: &'a [Arg],
) -> Result<Vec<Written<'a>>, AllocError>
    ensures { IfOk result
        (λ v. map form_seen v.items ≡ forms_behind left (map arg_meaning args.now)) }
{
    let mut left = left;
    let mut forms = Vec::new(alloc);
    for arg in args {
        if is_unnamed(arg) {
            if left == 0 {
                add(&mut forms, argument_form(arg))?;
            } else {
                left -= 1;
            }
        }
    }
    Ok(forms)
}

/// The arguments behind D, as they are written.
pub fn columns_written<'a>(alloc: Global, args: &'a [Arg]) -> Result<Vec<Written<'a>>, EvalFail>
    ensures forms { AnswersAs (λ v. map form_seen v.items)
        (Ok (columns_written (map arg_meaning args.now))) result }
    ensures own { IfErr result IsOwn }
{
    match forms_behind(alloc, tables_before(args), args) {
        Ok(forms) => Ok(forms),
        Err(error) => Err(EvalFail::NoMemory(error)),
    }
}

/// Whether the word NULL stands alone in the place of columns.
pub fn is_null_alone(forms: &[Written<'_>]) -> bool
    ensures { result ≡ is_null_alone (map form_seen forms.now) }
{
    matches!(forms, [Written::NullWord])
}
