//! Laws of the definitions, as contracts of functions that do nothing.

ghost use Rattle.std.specs.Prelude.{◌≡◌, ◌+◌, ◌-◌, ◌≤◌, ℕ, List, [], ◌∷◌, All, Option, None, Ok, Result, length, drop};
ghost use Rattle.std.specs.List.{flat_map};
ghost use Rattle.capture_frame.specs.declared.fault.Fault.{Fault};
ghost use Rattle.capture_frame.specs.Calls.{Calls, GiveInOrder};
ghost use Rattle.capture_frame.specs.Envelope.{FrameText, PlacedFrame, attachments_place, commands_place, frame_bytes};
ghost use Rattle.capture_frame.specs.Parts.{header_at, joined, joined_as};
ghost use Rattle.capture_frame.specs.declared.version.Version.{Version};
ghost use Rattle.capture_frame.specs.ReadOn.{Parsed};
ghost use Rattle.capture_frame.specs.Readers.{GivesUnit, last_result};
ghost use Rattle.capture_frame.specs.Units.{IsBytes, units_of};
ghost use Rattle.transaction_view.specs.declared.entry.Entry.{Entry};
ghost use Rattle.transaction_view.specs.Attachments.{EntryText, entries_of, entry_at_start, entry_bytes, entry_width};
ghost use Rattle.transaction_view.specs.Grammar.{frames_of_parts, wholes_of};
ghost use Rattle.transaction_view.specs.State.{IsEntryView, Steps};

/// Each entry of a frame is what the attachment bytes at its place begin with, and all of it is
/// there.
pub fn entries_there()
    ensures { (frame : PlacedFrame) → All
        (λ there. (attachments_place frame.unit frame.place ≤ there.place)
        × (there.place + entry_width there.unit
        ≤ attachments_place frame.unit frame.place + length frame.unit.attachments)
        × (there.unit ≡ entry_at_start frame
        (drop (there.place - attachments_place frame.unit frame.place) frame.unit.attachments)))
        (entries_of frame).units }
{}

/// Nothing is skipped: attachment bytes without a fault are the bytes of their entries, one after
/// another.
pub fn printed()
    ensures { (frame : PlacedFrame) → IsBytes frame.unit.attachments →
        (entries_of frame).fault ≡ None → frame.unit.attachments
        ≡ flat_map (entry_bytes (commands_place frame.place)) (units_of (entries_of frame).units) }
{}

/// Parts without a fault are, frame by frame, their joined capture; and if all of them are of one
/// version, that of this version too.
pub fn joined_parts()
    ensures joined { (parts : List (List ℕ)) → (wholes_of parts).fault ≡ None →
        frames_of_parts parts ≡ frames_of_parts (joined parts ∷ []) }
    ensures of_one_version { (version : Version) (parts : List (List ℕ)) →
        All (λ part. header_at part ≡ Ok version) parts → (wholes_of parts).fault ≡ None →
        frames_of_parts parts ≡ frames_of_parts (joined_as version parts ∷ []) }
{}

/// Call a reader again and again. It gives the entries ahead in order, each with its place, and
/// then the fault, or `None` if there is no fault, at every later call.
pub fn all_calls()
    ensures { (ahead : Parsed EntryText) (results : List (Result (Option Entry) Fault)) →
        Calls Steps ahead results →
        GiveInOrder (GivesUnit IsEntryView) (last_result ahead.fault) (last_result ahead.fault)
        ahead.units results }
{}
