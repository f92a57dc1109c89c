//! The sequences of the frames.

ghost use Rattle.std.specs.Prelude.{◌≡◌, ◌+◌, ◌<◌, ◌^◌, List, ◌∷◌, ◌++◌, []};
ghost use Rattle.capture_frame.specs.Envelope.{PlacedFrame};
ghost use Rattle.audit_findings.specs.Findings.{missing_count};
ghost use Rattle.audit_findings.specs.Ledgers.{SumsFrames};

/// How many frames there are, and the sequences of the first and the last of them.
#[derive(Clone, Copy)]
pub(crate) struct Sequences {
    pub frames: u64,
    pub first: u64,
    pub last: u64,
}

impl Sequences {
    pub const NONE: Self = Sequences {
        frames: 0,
        first: 0,
        last: 0,
    };

    /// The sequences of these frames and of one more, which has this sequence.
    pub fn with(self, sequence: u64) -> Self
        requires { self.frames + 1 < 2 ^ 64 }
        ensures { (frames : List PlacedFrame) (next : PlacedFrame) →
            SumsFrames self frames → next.unit.sequence ≡ sequence →
            SumsFrames result (frames ++ next ∷ []) }
    {
        let first = if self.frames == 0 {
            sequence
        } else {
            self.first
        };
        Sequences {
            frames: self.frames + 1,
            first,
            last: sequence,
        }
    }

    /// The sequences of these frames and of the later ones.
    pub fn then(self, later: Self) -> Self
        requires { self.frames + later.frames < 2 ^ 64 }
        ensures { (frames others : List PlacedFrame) →
            SumsFrames self frames → SumsFrames later others →
            SumsFrames result (frames ++ others) }
    {
        if later.frames == 0 {
            return self;
        }
        if self.frames == 0 {
            return later;
        }
        Sequences {
            frames: self.frames + later.frames,
            first: self.first,
            last: later.last,
        }
    }

    /// How many sequences from the first to the last have no frame.
    pub fn missing(self) -> u64
        ensures { (frames : List PlacedFrame) → SumsFrames self frames →
            result ≡ missing_count frames }
    {
        if self.frames == 0 {
            return 0;
        }
        let others = self.frames - 1;
        self.last.saturating_sub(self.first).saturating_sub(others)
    }
}
