//! Calls, their replies, and oneway transactions.

ghost use Rattle.std.specs.Prelude.{◌≡◌, [], ◌∷◌};
ghost use Rattle.report_text.specs.Answers.{answer};
ghost use Rattle.worked_rows.specs.Calls.{crossed_call, crossed_call_text, dead_reply, dead_reply_text, error_to_no_call, error_to_no_call_text, freed_reply, freed_reply_text, freed_then_replied, freed_then_replied_text, greatest_data_sizes, greatest_data_sizes_text, refused_oneway, refused_oneway_text, reply, reply_text, unknown_flags, unknown_flags_text};

/// A call that is answered, the free of its reply, and a call that fails.
pub fn calls()
    ensures reply { answer (reply ∷ []) ≡ reply_text }
    ensures freed_reply { answer (freed_reply ∷ []) ≡ freed_reply_text }
    ensures dead_reply { answer (dead_reply ∷ []) ≡ dead_reply_text }
{}

/// A served call that is crossed, one that is replied to, and one that stays open.
pub fn served_calls()
    ensures crossed_call { answer (crossed_call ∷ []) ≡ crossed_call_text }
    ensures freed_then_replied { answer (freed_then_replied ∷ []) ≡ freed_then_replied_text }
    ensures refused_oneway { answer (refused_oneway ∷ []) ≡ refused_oneway_text }
{}

/// An error reply to no call.
pub fn strays()
    ensures { answer (error_to_no_call ∷ []) ≡ error_to_no_call_text }
{}

/// Sums of oneway sends, and unknown flags.
pub fn transactions()
    ensures greatest_data_sizes { answer (greatest_data_sizes ∷ []) ≡ greatest_data_sizes_text }
    ensures unknown_flags { answer (unknown_flags ∷ []) ≡ unknown_flags_text }
{}
