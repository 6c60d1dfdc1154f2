ghost use Rattle.dt_grammar.specs.Laws.{OneScript, OneCodeScript, EachIsSpelled, EachIsAllowed};
ghost use Rattle.dt_grammar.specs.Laws.{EachIsAnswered, OneFault, MarksInStep};

/// Tokens spell one script at most.
pub fn one_script()
    ensures { OneScript }
{}

/// Tokens spell one script of the code's trees at most.
pub fn one_code_script()
    ensures { OneCodeScript }
{}

/// Each script that the rules allow is spelled by some tokens.
pub fn each_is_spelled()
    ensures { EachIsSpelled }
{}

/// What tokens of a script spell, the rules allow.
pub fn each_is_allowed()
    ensures { EachIsAllowed }
{}

/// Each list of tokens spells a script or has a first fault.
pub fn each_is_answered()
    ensures { EachIsAnswered }
{}

/// A list of tokens has one fault at most, and none where it is a right script.
pub fn one_fault()
    ensures { OneFault }
{}

/// Each mark of a script has its flag.
pub fn marks_in_step()
    ensures { MarksInStep }
{}
