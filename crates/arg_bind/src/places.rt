ghost use Rattle.std.specs.Prelude.{◌≡◌, ◌+◌, ◌<◌, map, cond, is_none};
ghost use Rattle.session_model.specs.Expression.{names_in};
ghost use Rattle.session_model.specs.Meaning.{arg_meaning};
ghost use Rattle.session_model.specs.Binding.{is_named, named, unnamed, is_free, place_of};

use dt_tree::Arg;
use func_table::{Formal, formal_word};

fn has_name(a: &Arg, w: &str) -> bool
    ensures { result ≡ is_named w.now (arg_meaning a.now).name }
{
    match &a.name {
        Some(v) => v.as_str() == w,
        None => false,
    }
}

/// The first argument of this name.
pub(crate) fn place_named(args: &[Arg], w: &str) -> Option<usize>
    ensures { result ≡ named w.now 0 (names_in (map arg_meaning args.now)) }
{
    for (i, a) in args.iter().enumerate() {
        if has_name(a, w) {
            return Some(i);
        }
    }
    None
}

pub(crate) fn is_unnamed(a: &Arg) -> bool
    ensures { result ≡ is_none (arg_meaning a.now).name }
{
    a.name.is_none()
}

/// The argument number k of those without a name, counted from 0.
fn place_unnamed(args: &[Arg], k: usize) -> Option<usize>
    ensures { result ≡ unnamed k 0 (names_in (map arg_meaning args.now)) }
{
    let mut left = k;
    for (i, a) in args.iter().enumerate() {
        if is_unnamed(a) {
            if left == 0 {
                return Some(i);
            }
            left -= 1;
        }
    }
    None
}

/// Whether no name takes the formal.
pub(crate) fn is_free_formal(args: &[Arg], p: Formal) -> bool
    ensures { result ≡ is_free (names_in (map arg_meaning args.now)) p }
{
    place_named(args, formal_word(p)).is_none()
}

/// The place of the argument that a formal takes, counted from 0, where `before` formals before it
/// are free.
pub fn place(args: &[Arg], before: usize, p: Formal) -> Option<usize>
    ensures { result ≡ place_of (names_in (map arg_meaning args.now)) before p }
{
    match place_named(args, formal_word(p)) {
        Some(i) => Some(i),
        None => place_unnamed(args, before),
    }
}

/// How many formals are free up to this one, where `before` before it are.
pub fn next(args: &[Arg], before: usize, p: Formal) -> usize
    requires { before < 1000 }
    ensures { result ≡ before + cond (is_free (names_in (map arg_meaning args.now)) p) 1 0 }
{
    if is_free_formal(args, p) {
        before + 1
    } else {
        before
    }
}
