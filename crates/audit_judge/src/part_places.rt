//! Which part a place of the joined capture is in.

ghost use Rattle.std.specs.Prelude.{◌≡◌, ◌<◌, ◌^◌, length, map};
ghost use Rattle.audit_judge.specs.Parts.{IsInPart, in_part};

use capture_frame::{FILE_HEADER, Fault, PartFault};

/// The fault of the joined capture, as the fault of the part that it is in.
pub(crate) fn part_of(parts: &[&[u8]], fault: Fault) -> PartFault
    requires few { length parts.now < 2 ^ 32 }
    requires there { IsInPart (map (λ part. part.now) parts.now) fault.place }
    ensures { result ≡ in_part (map (λ part. part.now) parts.now) fault }
{
    let mut place = fault.place;
    let mut number = 0;
    for part in parts {
        number += 1;
        let length = part.len() as u64;
        if place < length {
            let kind = fault.kind;
            return PartFault {
                part: number,
                fault: Fault { kind, place },
            };
        }
        // The frames of a later part are joined without its file header.
        place -= length.saturating_sub(FILE_HEADER as u64);
    }
    unreachable!()
}
