ghost use Rattle.std.specs.Prelude.{◌≡◌, ◌<◌, ◌++◌, ◌∷◌, [], IfOk, IfSome, length, map};
ghost use Rattle.std.specs.Prelude.{OnOk, option_map};
ghost use Rattle.std.specs.Option.{option_copied};
ghost use Rattle.session_model.specs.Meaning.{arg_meaning};
ghost use Rattle.session_model.specs.Items.{arg_texts_from, arg_texts};
ghost use Rattle.written_forms.specs.Texts.{bare_text, call_texts, lent_texts};

use arg_bind::text_literal;
use dt_tree::Arg;
use std::alloc::{AllocError, Global};

/// The name that an argument has.
pub fn name_of(arg: &Arg) -> Option<&str>
    ensures { option_copied result ≡ (arg_meaning arg.now).name }
{
    match &arg.name {
        Some(name) => Some(name.as_str()),
        None => None,
    }
}

/// The text of an argument that is a text literal without a name.
pub fn bare_text(arg: &Arg) -> Option<&str>
    ensures { option_copied result ≡ bare_text (arg_meaning arg.now) }
{
    match &arg.name {
        Some(_) => None,
        None => text_literal(&arg.value),
    }
}

/// One more text.
fn add<'a>(texts: &mut Vec<&'a str>, text: &'a str) -> Result<(), AllocError>
    ensures { OnOk result (texts.new.items ≡ texts.old.items ++ text.entry ∷ []) }
{
    texts.push(text)?;
    Ok(())
}

/// The texts of these arguments, lent, if all are text literals without a name; of no argument
/// there are none. It looks at the arguments up to the first that is no such text.
#[tactic(auto, using(crate::proofs::TextFacts::texts))]
pub fn texts_of<'a>(alloc: Global, args: &'a [Arg]) -> Result<Option<Vec<&'a str>>, AllocError>
    ensures texts { IfOk result (λ o.
        option_map (λ v. lent_texts v.items) o ≡ arg_texts_from (map arg_meaning args.now)) }
    ensures count { IfOk result (λ o. IfSome o (λ v. length v.items ≡ length args.now)) }
{
    let mut texts = Vec::new(alloc);
    for arg in args {
        let Some(text) = bare_text(arg) else {
            return Ok(None);
        };
        add(&mut texts, text)?;
    }
    Ok(Some(texts))
}

/// The same of one argument or more.
fn some_texts<'a>(alloc: Global, args: &'a [Arg]) -> Result<Option<Vec<&'a str>>, AllocError>
    ensures texts { IfOk result (λ o.
        option_map (λ v. lent_texts v.items) o ≡ arg_texts (map arg_meaning args.now)) }
    ensures some { IfOk result (λ o. IfSome o (λ v. 0 < length v.items)) }
{
    if args.is_empty() {
        return Ok(None);
    }
    texts_of(alloc, args)
}

/// The texts of the call of `c`, lent, if it has one argument or more and all are text literals
/// without a name. Any other call has none.
pub fn call_texts<'a>(
    alloc: Global,
    name: &str,
    args: &'a [Arg],
) -> Result<Option<Vec<&'a str>>, AllocError>
    ensures texts { IfOk result (λ o.
        option_map (λ v. lent_texts v.items) o ≡ call_texts name.now (map arg_meaning args.now)) }
    ensures some { IfOk result (λ o. IfSome o (λ v. 0 < length v.items)) }
{
    if name == "c" {
        return some_texts(alloc, args);
    }
    Ok(None)
}
