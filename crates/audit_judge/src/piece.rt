//! How many frames a worker judges at a time.

ghost use Rattle.std.specs.Prelude.{◌≡◌, ◌≤◌, ◌↔◌, IsSome, IfSome};

/// How many frames a worker judges at a time: 1 to 65,536. It does not say how frames are summed:
/// that is done in shares.
#[derive(Clone, Copy)]
pub struct Piece {
    frames: u64,
    pub ghost at_least_one: { 1 ≤ frames },
    pub ghost at_most_65536: { frames ≤ 65536 },
}

impl Piece {
    pub fn new(n: u64) -> Option<Self>
        ensures valid { IsSome result ↔ ((1 ≤ n) × (n ≤ 65536)) }
        ensures value { IfSome result (λ piece. piece.frames ≡ n) }
    {
        if 1 <= n && n <= 65_536 {
            Some(Piece { frames: n })
        } else {
            None
        }
    }

    pub fn get(self) -> u64
        ensures value { result ≡ self.frames }
        ensures least { 1 ≤ result }
        ensures most { result ≤ 65536 }
    {
        self.frames
    }
}
