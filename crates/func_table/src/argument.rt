ghost use Rattle.std.specs.Prelude.{◌≡◌};
ghost use Rattle.func_table.specs.Special.{argument_of, is_bracket_argument};

use crate::rows::named;

/// An argument that brackets have.
#[derive(Clone, Copy)]
pub enum Argument {
    By,
    Keyby,
    On,
    Mult,
    NoMatch,
    Roll,
    /// `rollends`
    RollEnds,
    /// `allow.cartesian`
    Cartesian,
    /// `.SDcols`
    SdCols,
}

static ARGUMENTS: [(&str, Argument); 9] = [
    ("by", Argument::By),
    ("keyby", Argument::Keyby),
    ("on", Argument::On),
    ("mult", Argument::Mult),
    ("nomatch", Argument::NoMatch),
    ("roll", Argument::Roll),
    ("rollends", Argument::RollEnds),
    ("allow.cartesian", Argument::Cartesian),
    (".SDcols", Argument::SdCols),
];

/// The argument of brackets that has this name, if there is one.
pub fn argument_named(name: &str) -> Option<Argument>
    ensures { result ≡ argument_of name.now }
{
    named(&ARGUMENTS, name)
}

/// Whether brackets have an argument of this name.
pub fn is_bracket_argument(name: &str) -> bool
    ensures { result ≡ is_bracket_argument name.now }
{
    argument_named(name).is_some()
}
