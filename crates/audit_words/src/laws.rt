//! Laws of the definitions, as contracts of functions that do nothing.

ghost use Rattle.audit_words.specs.Words.{FirstFaultAsks, OthersAskForNothing, ReportAsks};

/// What the words of a report and of `first-fault` ask for, if no name begins with a hyphen. The
/// first word is the program's own name.
pub fn words_ask()
    ensures report { ReportAsks }
    ensures first_fault { FirstFaultAsks }
    ensures others { OthersAskForNothing }
{}
