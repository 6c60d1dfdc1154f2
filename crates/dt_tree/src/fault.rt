use crate::Place;

/// Why a script has no tokens. Each but the first has the place of the byte at fault.
#[derive(Clone, Copy)]
pub enum ScriptFault {
    NotUtf8,
    /// A bad character, escape or form of a number, or a text without an end.
    Syntax(Place),
    /// An integer past the limit.
    Number(Place),
    /// The bracket with which brackets nest too deep.
    TooDeep(Place),
}
