//! Laws of the definitions, as contracts of functions that do nothing.

ghost use Rattle.std.specs.Prelude.{◌≡◌, ℕ, List, Option, Some, slice_get};
ghost use Rattle.summary_law.specs.Fits.{PlacesRise};
ghost use Rattle.summary_law.specs.Ranked.{ListsInOrder};
ghost use Rattle.summary_law.specs.Readings.{read_all};
ghost use Rattle.call_stacks.specs.Calls.{Reads, Bracketed, as_bracketed, bracketed_of};
ghost use Rattle.call_stacks.specs.Calls.{opener_place, openers_of, strays_in};
ghost use Rattle.call_stacks.specs.Marks.{IsBracketedAt};
ghost use Rattle.call_stacks.specs.Matched.{IsOpener, IsStrayEvent};
ghost use Rattle.call_stacks.specs.Matching.{Side, Match, JoinedMatches};

/// An opener matches at most one closer, and a closer at most one opener.
pub fn one_match()
    ensures one_closer { (sides : List Side) (i j k : ℕ) →
        Match sides i j → Match sides i k → j ≡ k }
    ensures one_opener { (sides : List Side) (i j k : ℕ) →
        Match sides i k → Match sides j k → i ≡ j }
{}

/// The matches in two lists joined are those of the first list, those of the second, and those
/// across both. Across both, the unmatched openers of the first list, from its end, match the
/// unmatched closers of the second, from its beginning.
pub fn joined_match()
    ensures { (first second : List Side) → JoinedMatches first second }
{}

/// The definitions find a closer by counting the calls that are open. In events whose places rise
/// it is the closer that matches the opener, and the strays are the closers that match no opener.
/// The lists have each opener and each stray, and nothing else, in rising place.
pub fn found_calls<E>()
    ensures openers { (reads : Reads E) (events : List E) → PlacesRise reads.place events →
        ListsInOrder (opener_place reads) (IsOpener reads (bracketed_of reads events))
        (openers_of reads events) }
    ensures strays { (reads : Reads E) (events : List E) → PlacesRise reads.place events →
        ListsInOrder reads.place (IsStrayEvent (bracketed_of reads events))
        (strays_in (bracketed_of reads events)) }
{}

/// In a thread, each event is bracketed by the latest mark that the events before it leave.
pub fn latest_marks<E>()
    ensures { (reads : Reads E) (events : List E) (n : ℕ) (found : Bracketed E) →
        slice_get (bracketed_of reads events) n ≡ Some found →
        IsBracketedAt reads events n found }
{}

/// A reading of bracketed events, turned into a reading of the plain events of a thread, reads the
/// same of them as it reads of the bracketed events.
pub fn bracketed_readings<E, Y>()
    ensures { (reads : Reads E)
        (read : List (Bracketed E) → Bracketed E → List (Bracketed E) → Option Y)
        (events : List E) →
        read_all (as_bracketed reads read) events ≡ read_all read (bracketed_of reads events) }
{}
