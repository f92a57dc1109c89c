//! Reads the parts of a capture whole, one after another.
ghost use Rattle.std.specs.Prelude.{map, IfOk, IfErr, IsErrOf};
ghost use Rattle.streams.specs.Parts.{AreRead, ArePastLimit};
ghost use Rattle.streams.specs.RunError.{IsReadingError};

use crate::reading::read_capture;
use crate::run_error::RunError;
use std::alloc::Global;
use std::io::Read;

/// Reads each reader to its end, as `read_capture` does, before it reads the next one. The limit is
/// on all parts together. The first error is the answer.
pub fn read_parts<R: Read + Drop>(
    alloc: Global,
    readers: Vec<R>,
    limit: usize,
) -> Result<Vec<Vec<u8>>, RunError>
    ensures read { IfOk result (λ parts.
        AreRead limit (map R.remaining readers.items) (map (λ part. part.items) parts.items)) }
    ensures too_large { IsErrOf result RunError.TooLarge →
        ArePastLimit limit (map R.remaining readers.items) }
    ensures faults { IfErr result IsReadingError }
{
    let mut parts = Vec::new(alloc);
    let mut left = limit;
    for mut reader in readers {
        let part = read_capture(alloc, &mut reader, left)?;
        left -= part.len();
        parts.push(part).map_err(|_| RunError::Memory)?;
    }
    Ok(parts)
}
