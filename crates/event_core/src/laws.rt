//! Laws of the definitions, as contracts of functions that do nothing.

ghost use Rattle.std.specs.Prelude.{List, Option};
ghost use Rattle.capture_frame.specs.Calls.{Calls};
ghost use Rattle.event_core.specs.declared.event.Event.{Event};
ghost use Rattle.event_core.specs.Events.{EventRead};
ghost use Rattle.event_core.specs.Reading.{Steps, GiveEvents};

/// Call a reader again and again. It gives the events ahead in order, and then `None` at every later
/// call.
pub fn all_calls()
    ensures { (ahead : List EventRead) (results : List (Option Event)) →
        Calls Steps ahead results → GiveEvents ahead results }
{}
