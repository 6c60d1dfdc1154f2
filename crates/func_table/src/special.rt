ghost use Rattle.std.specs.Prelude.{◌≡◌};
ghost use Rattle.func_table.specs.Special.{is_later_special, special_of};

use crate::rows::named;

/// A name that has a meaning of its own in a bracket.
#[derive(Clone, Copy)]
pub enum Special {
    /// `.N`, the number of rows.
    Count,
    /// `.I`, the rows' numbers.
    Places,
    /// `.GRP`, the group's number.
    Group,
    /// `.SD`, the rows themselves.
    Rows,
}

static SPECIALS: [(&str, Special); 4] = [
    (".N", Special::Count),
    (".I", Special::Places),
    (".GRP", Special::Group),
    (".SD", Special::Rows),
];

/// The special name that this is, if it is one.
pub fn special_named(name: &str) -> Option<Special>
    ensures { result ≡ special_of name.now }
{
    named(&SPECIALS, name)
}

/// Whether this is a special name that nothing serves yet: `.GRP` or `.SD`.
pub fn is_later_special(name: &str) -> bool
    ensures { result ≡ is_later_special name.now }
{
    match special_named(name) {
        Some(Special::Group) | Some(Special::Rows) => true,
        _ => false,
    }
}
