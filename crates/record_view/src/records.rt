//! The reader of a frame's records.

ghost use Rattle.std.specs.Prelude.{◌≡◌, ◌<◌, ◌+◌, ◌^◌, length, Ok, Err, MatchResult};
ghost use Rattle.record_view.specs.Records.{record_at};
ghost use Rattle.record_view.specs.State.{record_text};

use crate::protocol::protocol;
use crate::record::Record;
use binder_code::{Code, CodeFault, Protocol};
use capture_frame::{Fault, FaultKind, Frame, u32_at};
use std::marker::Model;

/// The length of a code, in bytes.
const CODE: usize = 4;

/// Where a reader is: before the record at an offset of the command bytes; or failed, with its
/// fault.
#[derive(Clone, Copy)]
enum State {
    At { offset: usize },
    Failed(Fault),
}

/// Reads the records of a frame in order. A reader that has failed gives its fault again at every
/// later call, and one that has ended gives `None`.
#[derive(Drop)]
pub struct Records<'c> {
    frame: Frame<'c>,
    state: State,
}

impl<'c> Model for Records<'c> {
    ghost use Rattle.capture_frame.specs.ReadOn.{Parsed};
    ghost use Rattle.record_view.specs.Records.{RecordText};

    ghost Value = { Parsed RecordText };

    ghost use Rattle.record_view.specs.State.{ahead_of, IsWithin};

    ghost view = { λ r. ahead_of r.frame r.state };

    ghost invariant = { λ r. IsWithin r.frame r.state };
}

impl<'c> Records<'c> {
    ghost use Rattle.std.specs.Prelude.{◌≤◌};
    ghost use Rattle.capture_frame.specs.Envelope.{commands_place, placed_frame};
    ghost use Rattle.record_view.specs.Records.{records_from, records_of};
    ghost use Rattle.record_view.specs.State.{Steps};

    /// A reader before the frame's first record.
    pub fn of(frame: Frame<'c>) -> Records<'c>
        ensures { result ≡ records_of (placed_frame frame.entry) }
    {
        Records {
            frame,
            state: State::At { offset: 0 },
        }
    }

    /// A reader before the record that begins at a place of the capture. The place must be within
    /// the frame's command bytes, or at their end.
    pub fn at(frame: Frame<'c>, place: u64) -> Records<'c>
        requires from { commands_place frame.place ≤ place }
        requires to { place ≤ commands_place frame.place + length frame.commands.now }
        ensures { result ≡ records_from (placed_frame frame.entry) place }
    {
        let offset = place - frame.commands_place();
        Records {
            frame,
            state: State::At {
                offset: offset as usize,
            },
        }
    }

    /// The next record, with its kind, as a view of the frame's bytes; or `None` at the end; or the
    /// fault of the bytes there, by the first kind that applies. A fault is given again at every
    /// later call.
    pub fn next_record(&mut self) -> Result<Option<Record<'c>>, Fault>
        ensures { Steps self.old result self.new }
    {
        let offset = match self.state {
            State::At { offset } => offset,
            State::Failed(fault) => return Err(fault),
        };
        let rest = &self.frame.commands[offset..];
        if rest.is_empty() {
            return Ok(None);
        }
        let place = self.frame.commands_place() + offset as u64;
        match record_at(rest, place, protocol(self.frame.direction)) {
            Ok(record) => {
                self.state = State::At {
                    offset: offset + CODE + record.payload.len(),
                };
                Ok(Some(record))
            }
            Err(kind) => {
                let fault = Fault { kind, place };
                self.state = State::Failed(fault);
                Err(fault)
            }
        }
    }
}

/// The record that these bytes begin with, or the first kind of fault that applies. The bytes begin
/// at `place` of the capture.
fn record_at(bytes: &[u8], place: u64, protocol: Protocol) -> Result<Record<'_>, FaultKind>
    requires fits { place + length bytes.now < 2 ^ 64 }
    requires some { 0 < length bytes.now }
    ensures { MatchResult result
        (λ found. (record_at protocol bytes.now ≡ Ok (record_text found)) × (found.place ≡ place))
        (λ kind. record_at protocol bytes.now ≡ Err kind) }
{
    if bytes.len() < CODE {
        return Err(FaultKind::RecordShort);
    }
    let code = Code(u32_at(bytes, 0));
    let kind = match binder_code::kind(protocol, code) {
        Ok(kind) => kind,
        Err(CodeFault::Direction) => return Err(FaultKind::RecordDirection),
        Err(CodeFault::Size) => return Err(FaultKind::RecordSize),
    };
    let rest = &bytes[CODE..];
    let size = usize::from(code.size());
    if rest.len() < size {
        return Err(FaultKind::RecordShort);
    }
    let (payload, _) = rest.split_at(size);
    Ok(Record {
        place,
        kind,
        code,
        payload,
    })
}
