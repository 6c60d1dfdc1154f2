ghost use Rattle.std.specs.Prelude.{◌≡◌, Some, map};
ghost use Rattle.std.specs.Option.{option_copied};
ghost use Rattle.bracket_rows.specs.Forms.{not_name_in};
ghost use Rattle.bracket_rows.specs.Ordered.{arg_item, items_seen};
ghost use Rattle.session_model.specs.Found.{order_items};
ghost use Rattle.session_model.specs.Meaning.{meaning};

use arg_bind::bare_name;
use dt_tree::{Arg, Expr};
use func_table::{Func, func_word};

/// The name of a bare name behind `!`.
#[tactic(auto, using(crate::proofs::Written::forms))]
pub fn negated_name(e: &Expr) -> Option<&str>
    ensures { option_copied result ≡ not_name_in (meaning e.now).form }
{
    match e {
        Expr::Not { arg } => bare_name(arg.get()),
        _ => None,
    }
}

/// The arguments of a call, where it is that of `order`.
fn order_call<'a>(name: &str, args: &'a [Arg]) -> Option<&'a [Arg]>
    ensures { items_seen result
        ≡ order_items (Some (record { word = name.now; items = map arg_item args.entry.now })) }
{
    if name == func_word(Func::Order) {
        Some(args)
    } else {
        None
    }
}

/// The arguments of the call of `order`, where that is all that is written.
#[tactic(auto, using(session_model::proofs::Forms::written))]
pub fn order_arguments(e: &Expr) -> Option<&[Arg]>
    ensures { items_seen result ≡ order_items (meaning e.now).listing }
{
    match e {
        Expr::Call { name, args } => order_call(name.as_str(), args.as_slice()),
        _ => None,
    }
}
