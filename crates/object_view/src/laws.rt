//! Laws of the definitions, as contracts of functions that do nothing.

ghost use Rattle.std.specs.Prelude.{List, Option, Result};
ghost use Rattle.transaction_view.specs.Calls.{Calls};
ghost use Rattle.object_view.specs.declared.bad_object.BadObject.{BadObject};
ghost use Rattle.object_view.specs.declared.object.Object.{Object};
ghost use Rattle.object_view.specs.Laws.{AreThere};
ghost use Rattle.object_view.specs.Objects.{Objects};
ghost use Rattle.object_view.specs.Reading.{Steps, GiveObjects};

/// Each good object of an attachment begins at a multiple of 4, not before the object before it
/// ends. It has the sort that the four bytes there name, and is all of the sort's bytes there.
pub fn objects_there()
    ensures { AreThere }
{}

/// Call a reader again and again. It gives the objects ahead in order, then the bad object once if
/// there is one, and then `None` at every later call.
pub fn all_calls()
    ensures { (ahead : Objects) (results : List (Option (Result Object BadObject))) →
        Calls Steps ahead results → GiveObjects ahead results }
{}
