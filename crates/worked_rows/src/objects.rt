//! Attachments and their objects.

ghost use Rattle.std.specs.Prelude.{◌≡◌, [], ◌∷◌};
ghost use Rattle.report_text.specs.Answers.{answer};
ghost use Rattle.worked_rows.specs.Objects.{attachment, attachment_text, bad_object, bad_object_text, held_and_freed, held_and_freed_text, held_and_taken, held_and_taken_text, held_taken_and_freed, held_taken_and_freed_text, overlapping_objects, overlapping_objects_text};

/// The objects of an attachment, up to the first bad one.
pub fn objects()
    ensures attachment { answer (attachment ∷ []) ≡ attachment_text }
    ensures bad_object { answer (bad_object ∷ []) ≡ bad_object_text }
    ensures overlapping_objects { answer (overlapping_objects ∷ []) ≡ overlapping_objects_text }
{}

/// A handle that a delivery holds.
pub fn held()
    ensures held_and_taken { answer (held_and_taken ∷ []) ≡ held_and_taken_text }
    ensures held_taken_and_freed { answer (held_taken_and_freed ∷ []) ≡ held_taken_and_freed_text }
    ensures held_and_freed { answer (held_and_freed ∷ []) ≡ held_and_freed_text }
{}
