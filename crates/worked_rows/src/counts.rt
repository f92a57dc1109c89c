//! What is counted and paired in each process.

ghost use Rattle.std.specs.Prelude.{◌≡◌, [], ◌∷◌};
ghost use Rattle.report_text.specs.Answers.{answer};
ghost use Rattle.worked_rows.specs.Counts.{acquire, acquire_text, clear_confirmed_twice, clear_confirmed_twice_text, death_not_acknowledged, death_not_acknowledged_text, empty, empty_text, freed_before_delivered, freed_before_delivered_text, handles_of_two_processes, handles_of_two_processes_text, missing, missing_text, node_half_confirmed, node_half_confirmed_text, opaque, opaque_text, released_before_acquired, released_before_acquired_text};
ghost use Rattle.worked_rows.specs.Long.{many_frames, many_frames_text};

/// How many frames and records there are, how many records are opaque, and how many frames are
/// missing.
pub fn frames()
    ensures empty { answer (empty ∷ []) ≡ empty_text }
    ensures opaque { answer (opaque ∷ []) ≡ opaque_text }
    ensures missing { answer (missing ∷ []) ≡ missing_text }
    ensures many_frames { answer (many_frames ∷ []) ≡ many_frames_text }
{}

/// References to handles and nodes.
pub fn references()
    ensures acquire { answer (acquire ∷ []) ≡ acquire_text }
    ensures released_before_acquired { answer (released_before_acquired ∷ [])
        ≡ released_before_acquired_text }
    ensures handles_of_two_processes { answer (handles_of_two_processes ∷ [])
        ≡ handles_of_two_processes_text }
    ensures node_half_confirmed { answer (node_half_confirmed ∷ []) ≡ node_half_confirmed_text }
{}

/// A free, a death and a clear, each with what it is paired with.
pub fn pairs()
    ensures freed_before_delivered { answer (freed_before_delivered ∷ [])
        ≡ freed_before_delivered_text }
    ensures death_not_acknowledged { answer (death_not_acknowledged ∷ [])
        ≡ death_not_acknowledged_text }
    ensures clear_confirmed_twice { answer (clear_confirmed_twice ∷ [])
        ≡ clear_confirmed_twice_text }
{}
