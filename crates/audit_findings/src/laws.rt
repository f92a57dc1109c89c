//! Laws of the definitions, as contracts of functions that do nothing.

ghost use Rattle.audit_findings.specs.Laws.{BadObjectsRise, FlagsRise, LeaveOutNoCall};
ghost use Rattle.audit_findings.specs.MatchedCalls.{EventsRise, HaveMatchedCalls};
ghost use Rattle.audit_findings.specs.RowsInTurn.{HaveHandleRows, HaveNodeRows};

/// In a capture in the grammar, the rows of `objects` and of `flags` rise strictly in place, so no
/// two rows of a section have the same place. For a value of `Findings` this needs `found` of
/// `audit_one`; `capture` of `Findings::frames` alone is not enough.
pub fn rows_rise()
    ensures objects { BadObjectsRise }
    ensures flags { FlagsRise }
{}

/// In a capture in the grammar, the calls of the findings are found by matching: an opener and a
/// closer of one thread match if from the one to the other as many of the thread's records close
/// as open, and in every shorter stretch from the opener on fewer close than open. The verdict of
/// a call is by the closer that matches it, and the strays are the closers that match nothing.
pub fn matched_calls()
    ensures events_rise { EventsRise }
    ensures calls { HaveMatchedCalls }
{}

/// The rows of `handles` and `nodes` are counted over all events of the capture: a sum is that of
/// all events, and a low is the least sum of their prefixes. What is held for a handle is the number
/// of HANDLE and of WEAK_HANDLE objects with this handle in the attachments of deliveries whose
/// address no later free of the process has.
pub fn rows_of_references()
    ensures handles { HaveHandleRows }
    ensures nodes { HaveNodeRows }
{}

/// `calls` and `served` leave out no call: each is counted once in the numbers after the first of
/// its head, and has a row unless it has its reply.
pub fn no_call_left_out()
    ensures { LeaveOutNoCall }
{}
