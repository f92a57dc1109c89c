//! Captures with devices, and captures in parts.

ghost use Rattle.std.specs.Prelude.{◌≡◌, [], ◌∷◌, take, codes};
ghost use Rattle.report_text.specs.Answers.{answer, first_fault_line};
ghost use Rattle.worked_rows.specs.Bytes.{header, header_2};
ghost use Rattle.worked_rows.specs.Calls.{reply_text};
ghost use Rattle.worked_rows.specs.Counts.{acquire, empty, empty_text};
ghost use Rattle.worked_rows.specs.Long.{two_wrong_directions};
ghost use Rattle.worked_rows.specs.Parts.{first_part, handle_of_two_devices, handle_of_two_devices_text, missing_between_parts_text, second_part, sequence_5, sequence_9_of_version_2};

/// One handle number on two devices.
pub fn devices()
    ensures { answer (handle_of_two_devices ∷ []) ≡ handle_of_two_devices_text }
{}

/// Captures in parts.
pub fn in_parts()
    ensures reply { answer (first_part ∷ second_part ∷ []) ≡ reply_text }
    ensures headers_alone { answer (header ∷ header_2 ∷ header ∷ []) ≡ empty_text }
    ensures missing { answer (sequence_5 ∷ sequence_9_of_version_2 ∷ [])
        ≡ missing_between_parts_text }
    ensures other_order { answer (second_part ∷ first_part ∷ [])
        ≡ codes "malformed FrameSequence at 16 in part 2\n" }
    ensures short { answer (empty ∷ take 15 empty ∷ [])
        ≡ codes "malformed HeaderShort at 0 in part 2\n" }
{}

/// What `first-fault` says.
pub fn first_fault()
    ensures none { first_fault_line (acquire ∷ []) ≡ codes "no malformed record\n" }
    ensures two_wrong_directions { first_fault_line (two_wrong_directions ∷ [])
        ≡ codes "malformed RecordDirection at 84\n" }
    ensures in_a_part { first_fault_line (second_part ∷ first_part ∷ [])
        ≡ codes "malformed FrameSequence at 16 in part 2\n" }
{}
