//! What follows from the definition of a script's reading, each law on a function of its own.
//!
//! - `one_reading`: bytes are one script at most, or have one first fault, and not both.
//! - `statements_lead_lines`: a statement stands on the line of its first token.
//! - `none_misplaced`: no token stands wrong exactly where each statement's assignments stand
//!   right.
//!
//! It stands on the laws of tokens (`dt_tokens`) and the lemmas of the grammar (`dt_grammar`). It
//! runs nothing but its laws.
#![tactic(auto)]

ghost use Rattle.script_laws.specs.Assignments.{NoneMisplaced};
ghost use Rattle.script_laws.specs.Laws.{OneReading, StatementsLeadLines};

/// Bytes are one script at most, or have one first fault, and not both.
pub fn one_reading()
    ensures { OneReading }
{
    dt_tokens::laws::one_answer();
}

/// A statement stands on the line of its first token.
pub fn statements_lead_lines()
    ensures { StatementsLeadLines }
{
    dt_tokens::laws::breaks_lead_lines();
}

/// No token of a script stands wrong exactly where each statement has its assignment, if it has
/// one, as the j of its chain of brackets, with nothing or one empty bracket behind it.
pub fn none_misplaced()
    ensures { NoneMisplaced }
{
    dt_grammar::laws::marks_in_step();
}
