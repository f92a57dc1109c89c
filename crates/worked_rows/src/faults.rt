//! The first fault.

ghost use Rattle.std.specs.Prelude.{◌≡◌, [], ◌∷◌, ◌++◌, take, codes};
ghost use Rattle.report_text.specs.Answers.{answer};
ghost use Rattle.worked_rows.specs.Bytes.{changed, hex};
ghost use Rattle.worked_rows.specs.Cuts.{BeginsWith, EachCutGives};
ghost use Rattle.worked_rows.specs.Sections.{title};
ghost use Rattle.worked_rows.specs.Calls.{refused_oneway, reply};
ghost use Rattle.worked_rows.specs.Counts.{empty, empty_text};
ghost use Rattle.worked_rows.specs.Objects.{attachment};
ghost use Rattle.worked_rows.specs.Long.{two_wrong_directions};
ghost use Rattle.worked_rows.specs.Faults.{call_of_40_bytes, code_cut_before_a_bad_frame, later_frame_past_the_end, sequence, wrong_attachment};
ghost use Rattle.worked_rows.specs.Parts.{handle_of_two_devices};

/// A file header that is cut, or of another version.
pub fn file_header()
    ensures no_bytes { answer ([] ∷ []) ≡ codes "malformed HeaderShort at 0\n" }
    ensures short { answer (take 15 empty ∷ []) ≡ codes "malformed HeaderShort at 0\n" }
    ensures magic_of_version_3 { answer (changed 7 (hex "33") handle_of_two_devices ∷ [])
        ≡ codes "malformed HeaderMagic at 0\n" }
{}

/// Faults of frames, records and attachments.
pub fn units()
    ensures sequence { answer (sequence ∷ []) ≡ codes "malformed FrameSequence at 80\n" }
    ensures device_in_version_1 { answer (changed 7 (hex "31") handle_of_two_devices ∷ [])
        ≡ codes "malformed FrameReserved at 16\n" }
    ensures later_frame_past_the_end { answer (later_frame_past_the_end ∷ [])
        ≡ codes "malformed FrameLength at 52\n" }
    ensures code_cut_before_a_bad_frame { answer (code_cut_before_a_bad_frame ∷ [])
        ≡ codes "malformed RecordShort at 52\n" }
    ensures call_of_40_bytes { answer (call_of_40_bytes ∷ [])
        ≡ codes "malformed RecordSize at 48\n" }
    ensures two_wrong_directions { answer (two_wrong_directions ∷ [])
        ≡ codes "malformed RecordDirection at 84\n" }
    ensures wrong_attachment { answer (wrong_attachment ∷ [])
        ≡ codes "malformed AttachSize at 116\n" }
{}

/// The first bytes of a file header.
pub fn header_cut()
    ensures { EachCutGives 0 15 empty (codes "malformed HeaderShort at 0\n") }
{}

/// The first bytes of a capture with two frames, at every length from 16 on but that of the first
/// frame alone.
pub fn reply_cut()
    ensures at_16 { answer (take 16 reply ∷ []) ≡ empty_text }
    ensures from_17_to_47 { EachCutGives 17 47 reply (codes "malformed FrameShort at 16\n") }
    ensures from_48_to_115 { EachCutGives 48 115 reply (codes "malformed FrameLength at 16\n") }
    ensures from_117_to_147 { EachCutGives 117 147 reply (codes "malformed FrameShort at 116\n") }
    ensures from_148_to_223 { EachCutGives 148 223 reply (codes "malformed FrameLength at 116\n") }
{}

/// The first bytes of a capture with an attachment, at every length from 16 on.
pub fn attachment_cut()
    ensures at_16 { answer (take 16 attachment ∷ []) ≡ empty_text }
    ensures from_17_to_47 { EachCutGives 17 47 attachment (codes "malformed FrameShort at 16\n") }
    ensures from_48_to_159 { EachCutGives 48 159 attachment
        (codes "malformed FrameLength at 16\n") }
{}

/// The first bytes of a capture with four frames, at every length within the last two frame
/// headers and the last record, and at the end of each frame.
pub fn refused_oneway_cut()
    ensures from_221_to_251 { EachCutGives 221 251 refused_oneway
        (codes "malformed FrameShort at 220\n") }
    ensures from_321_to_351 { EachCutGives 321 351 refused_oneway
        (codes "malformed FrameShort at 320\n") }
    ensures from_352_to_355 { EachCutGives 352 355 refused_oneway
        (codes "malformed FrameLength at 320\n") }
    ensures at_116 { BeginsWith (title ++ codes "frames 1 records 1 opaque 0 missing 0\n")
        (answer (take 116 refused_oneway ∷ [])) }
    ensures at_220 { BeginsWith (title ++ codes "frames 2 records 3 opaque 0 missing 0\n")
        (answer (take 220 refused_oneway ∷ [])) }
    ensures at_320 { BeginsWith (title ++ codes "frames 3 records 4 opaque 0 missing 0\n")
        (answer (take 320 refused_oneway ∷ [])) }
{}

/// A capture with an attachment, one byte of which is another.
pub fn attachment_changed()
    ensures command_length_69 { answer (changed 36 (hex "45") attachment ∷ [])
        ≡ codes "malformed FrameLength at 16\n" }
    ensures command_length_67 { answer (changed 36 (hex "43") attachment ∷ [])
        ≡ codes "malformed RecordShort at 48\n" }
    ensures no_command_bytes { answer (changed 36 (hex "00") attachment ∷ [])
        ≡ codes "malformed AttachRecord at 48\n" }
    ensures attachment_length_45 { answer (changed 40 (hex "2d") attachment ∷ [])
        ≡ codes "malformed FrameLength at 16\n" }
    ensures attachment_length_43 { answer (changed 40 (hex "2b") attachment ∷ [])
        ≡ codes "malformed AttachShort at 116\n" }
    ensures entry_of_11_bytes { answer (changed 40 (hex "0b") attachment ∷ [])
        ≡ codes "malformed AttachShort at 116\n" }
    ensures no_attachment_bytes { answer (changed 40 (hex "00") attachment ∷ [])
        ≡ codes "malformed FrameDirection at 116\n" }
    ensures code_of_65_bytes { answer (changed 50 (hex "41") attachment ∷ [])
        ≡ codes "malformed RecordSize at 48\n" }
    ensures data_size_25 { answer (changed 84 (hex "19") attachment ∷ [])
        ≡ codes "malformed AttachSize at 116\n" }
    ensures offsets_size_0 { answer (changed 92 (hex "00") attachment ∷ [])
        ≡ codes "malformed AttachSize at 116\n" }
    ensures entry_inside_a_record { answer (changed 116 (hex "04") attachment ∷ [])
        ≡ codes "malformed AttachRecord at 116\n" }
    ensures body_of_25_bytes { answer (changed 120 (hex "19") attachment ∷ [])
        ≡ codes "malformed AttachShort at 116\n" }
    ensures body_of_23_bytes { answer (changed 120 (hex "17") attachment ∷ [])
        ≡ codes "malformed AttachSize at 116\n" }
    ensures list_of_9_bytes { answer (changed 124 (hex "09") attachment ∷ [])
        ≡ codes "malformed AttachShort at 116\n" }
    ensures list_of_7_bytes { answer (changed 124 (hex "07") attachment ∷ [])
        ≡ codes "malformed AttachSize at 116\n" }
{}
