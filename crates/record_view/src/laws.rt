//! Laws of the definitions, as contracts of functions that do nothing.

ghost use Rattle.std.specs.Prelude.{◌≡◌, ◌+◌, ◌-◌, ◌≤◌, ℕ, List, All, Option, None, Ok, Result, length, drop};
ghost use Rattle.std.specs.List.{flat_map};
ghost use Rattle.capture_frame.specs.declared.fault.Fault.{Fault};
ghost use Rattle.capture_frame.specs.Calls.{Calls, GiveInOrder};
ghost use Rattle.capture_frame.specs.Envelope.{PlacedFrame, commands_place};
ghost use Rattle.capture_frame.specs.ReadOn.{Parsed};
ghost use Rattle.capture_frame.specs.Readers.{GivesUnit, last_result};
ghost use Rattle.capture_frame.specs.Units.{IsBytes, units_of};
ghost use Rattle.record_view.specs.declared.record.Record.{Record};
ghost use Rattle.record_view.specs.Records.{RecordText, protocol_of, record_at, record_bytes, record_width, records_of};
ghost use Rattle.record_view.specs.State.{IsRecordView, Steps};

/// Each record of a frame is what the command bytes at its place begin with, and all of it is
/// there.
pub fn records_there()
    ensures { (frame : PlacedFrame) → All
        (λ there. (commands_place frame.place ≤ there.place)
        × (there.place + record_width there.unit
        ≤ commands_place frame.place + length frame.unit.commands)
        × (record_at (protocol_of frame.unit.direction)
        (drop (there.place - commands_place frame.place) frame.unit.commands) ≡ Ok there.unit))
        (records_of frame).units }
{}

/// Nothing is skipped: command bytes without a fault are the bytes of their records, one after
/// another.
pub fn printed()
    ensures { (frame : PlacedFrame) → IsBytes frame.unit.commands →
        (records_of frame).fault ≡ None →
        frame.unit.commands ≡ flat_map record_bytes (units_of (records_of frame).units) }
{}

/// Call a reader again and again. It gives the records ahead in order, each with its place, and
/// then the fault, or `None` if there is no fault, at every later call.
pub fn all_calls()
    ensures { (ahead : Parsed RecordText) (results : List (Result (Option Record) Fault)) →
        Calls Steps ahead results →
        GiveInOrder (GivesUnit IsRecordView) (last_result ahead.fault) (last_result ahead.fault)
        ahead.units results }
{}
