//! Reads a capture whole.
ghost use Rattle.std.specs.Prelude.{◌≡◌, ◌+◌, ◌<◌, ◌≤◌, ◌↔◌, ◌++◌, length, vec_len, IfSome, IfOk, IfErr, OnOk, OnErr, IsErrOf, IsOkUnless};
ghost use Rattle.std.specs.Io.KnownBytes.{IsAtEnd};
ghost use Rattle.streams.specs.KnownBytes.{ConsumesSome};
ghost use Rattle.streams.specs.RunError.{IsReadingError, IsRoomError};
ghost use Rattle.streams.specs.declared.reading.TheConstants.{ASKED};

use crate::run_error::RunError;
use std::alloc::Global;
use std::io::Read;

// How many bytes are asked for at a time.
const ASKED: usize = 65_536;

/// Reads until the reader gives no more bytes, by at most `limit + 1` reads. A read that passes the
/// limit is `TooLarge`. Any error of the reader is `Read`, even one that another try could mend.
///
/// The clauses leave some of this open: they allow `Memory` for a failed read, and `Read` for
/// refused memory.
pub fn read_capture<R: Read>(
    alloc: Global,
    reader: &mut R,
    limit: usize,
) -> Result<Vec<u8>, RunError>
    ensures bytes { IfOk result
        (λ capture. IfSome (R.remaining reader.old) (λ known. capture.items ≡ known)) }
    ensures end { OnOk result (IsAtEnd (R.remaining reader.new)) }
    ensures within { IfOk result (λ capture. vec_len capture ≤ limit) }
    ensures too_large { IsErrOf result RunError.TooLarge →
        IfSome (R.remaining reader.old) (λ known. limit < length known) }
    ensures faults { IfErr result IsReadingError }
    ensures left { ConsumesSome (R.remaining reader.old) (R.remaining reader.new) }
{
    let mut buffer = empty_buffer(alloc)?;
    read_through(alloc, reader, buffer.as_mut_slice(), limit)
}

// Room for the bytes that are asked for at a time.
fn empty_buffer(alloc: Global) -> Result<Vec<u8>, RunError>
    ensures room { IfOk result (λ buffer. vec_len buffer ≡ ASKED) }
    ensures memory { IsOkUnless result RunError.Memory }
{
    vec![in alloc; 0u8; ASKED].map_err(|_| RunError::Memory)
}

// Reads whole, through the buffer.
fn read_through<R: Read>(
    alloc: Global,
    reader: &mut R,
    buffer: &mut [u8],
    limit: usize,
) -> Result<Vec<u8>, RunError>
    requires { 0 < length buffer.old }
    ensures bytes { IfOk result
        (λ capture. IfSome (R.remaining reader.old) (λ known. capture.items ≡ known)) }
    ensures end { OnOk result (IsAtEnd (R.remaining reader.new)) }
    ensures within { IfOk result (λ capture. vec_len capture ≤ limit) }
    ensures too_large { IsErrOf result RunError.TooLarge →
        IfSome (R.remaining reader.old) (λ known. limit < length known) }
    ensures faults { IfErr result IsReadingError }
    ensures left { ConsumesSome (R.remaining reader.old) (R.remaining reader.new) }
{
    let mut capture = Vec::new(alloc);
    for _ in 0..=limit {
        let count = reader.read(buffer).map_err(|_| RunError::Read)?;
        if count == 0 {
            return Ok(capture);
        }
        append_within(&mut capture, &buffer[..count], limit)?;
    }
    unreachable!()
}

// Appends these bytes if the limit leaves room for them.
fn append_within(capture: &mut Vec<u8>, piece: &[u8], limit: usize) -> Result<(), RunError>
    requires { vec_len capture.old ≤ limit }
    ensures ok { OnOk result (capture.new.items ≡ capture.old.items ++ piece.now) }
    ensures err { OnErr result (capture.new.items ≡ capture.old.items) }
    ensures within { vec_len capture.new ≤ limit }
    ensures too_large { IsErrOf result RunError.TooLarge
        ↔ (limit < vec_len capture.old + length piece.now) }
    ensures memory { IfErr result IsRoomError }
{
    if limit - capture.len() < piece.len() {
        return Err(RunError::TooLarge);
    }
    capture
        .extend_from_slice(piece)
        .map_err(|_| RunError::Memory)
}
