ghost use Rattle.run_model.specs.TextBodies.{TextsAreBodies};
ghost use Rattle.run_model.specs.TokenLaws.{OneAnswer, LongestSign, RunsAreLongest};
ghost use Rattle.run_model.specs.TokenLaws.{BreaksLeadLines};

/// A script is one list of tokens, or has one first fault, and not both.
pub fn one_answer()
    ensures { OneAnswer }
{}

/// Of the symbols that a text begins with the longest is taken.
pub fn longest_sign()
    ensures { LongestSign }
{}

/// A text token is a quote, a body and the quote again, and each such spelling is read.
pub fn texts_are_bodies()
    ensures { TextsAreBodies }
{}

/// What goes on with bytes of a class goes on as long as it can.
pub fn runs_are_longest()
    ensures { RunsAreLongest }
{}

/// The first token stands on line 1, and behind a break outside brackets the next one stands on
/// the line of the break.
pub fn breaks_lead_lines()
    ensures { BreaksLeadLines }
{}
