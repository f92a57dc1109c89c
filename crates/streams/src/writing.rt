//! Writes a text whole.
ghost use Rattle.std.specs.Prelude.{OnOk, OnErr, IsOkUnless};
ghost use Rattle.std.specs.Io.KnownBytes.{Appends};
ghost use Rattle.streams.specs.KnownBytes.{AppendsPrefix};

use crate::run_error::RunError;
use std::io::Write;

/// Writes until the writer has taken the whole text, and then flushes once. A write that fails, or
/// that takes no byte, is `Write` and is not tried again.
pub fn write_text<W: Write>(writer: &mut W, text: &[u8]) -> Result<(), RunError>
    ensures ok { OnOk result (Appends (W.contents writer.old) (W.contents writer.new) text.now) }
    ensures err { OnErr result
        (AppendsPrefix (W.contents writer.old) (W.contents writer.new) text.now) }
    ensures fault { IsOkUnless result RunError.Write }
{
    let mut written = 0;
    while written < text.len() {
        match writer.write(&text[written..]) {
            Ok(0) | Err(_) => return Err(RunError::Write),
            Ok(count) => written += count,
        }
    }
    writer.flush().map_err(|_| RunError::Write)
}
