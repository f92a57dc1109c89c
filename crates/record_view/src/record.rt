ghost use Rattle.std.specs.Prelude.{◌≡◌, ◌+◌, ◌<◌, ◌^◌, length, Ok};
ghost use Rattle.std.specs.Option.{ForSome};
ghost use Rattle.binder_code.specs.Code.{size};
ghost use Rattle.binder_code.specs.Commands.{kind_of, protocol_of_word, row_of};

use binder_code::{Code, Kind};

/// A record of a frame's command bytes. Its payload is the capture's own bytes. All places in it
/// fit 64 bits (`fits`), and its payload is as long as its code word says (`whole`).
#[derive(Clone, Copy)]
pub struct Record<'c> {
    /// Where the record's code begins in the capture, in bytes.
    pub place: u64,
    /// What the code word means.
    pub kind: Kind,
    /// The code word as read.
    pub code: Code,
    /// The bytes after the code, as many as the code's size says.
    pub payload: &'c [u8],
    ghost fits: { place + 4 + length payload.now < 2 ^ 64 },
    // The kind is what the code means, in the protocol that its letter names.
    ghost by_code: { kind_of (protocol_of_word code.0) code.0 ≡ Ok kind },
    ghost whole: { length payload.now ≡ size code.0 },
    // The payload of a listed kind is as long as the header says.
    ghost sized: { ForSome (row_of kind) (λ row. length payload.now ≡ row.size) },
}
