//! Stretches of the files of the system.

use crate::reading::read_capture;
use crate::run_error::RunError;
use crate::stretches::{FoundFile, SharedFiles};
use std::alloc::Global;
use std::fs;
use std::io::{Read, Seek, SeekFrom};
use std::os::unix::fs::MetadataExt;

/// A smaller file is read by one thread in no more time.
const WORTH_SHARING: u64 = 1_048_576;

impl SharedFiles for HostRuntime {
    ghost use Rattle.std.specs.Prelude.{None, ⊤};

    // No contract can say which bytes a file has, or how a reading of it ends.
    ghost known = { λ files name. None };

    ghost errors = { λ files name error. ⊤ };

    ghost always = { λ files name. None };

    fn find(&self, name: &str) -> Option<FoundFile> {
        match fs::metadata(self, name) {
            Ok(found) if found.is_file() && WORTH_SHARING <= found.len() => Some(FoundFile {
                size: found.len(),
                device: found.dev(),
                node: found.ino(),
            }),
            _ => None,
        }
    }

    fn bytes(
        &self,
        alloc: Global,
        name: &str,
        found: FoundFile,
        start: u64,
        most: usize,
    ) -> Result<Vec<u8>, RunError> {
        let mut file = fs::open(self, name).map_err(|_| RunError::Open)?;
        match file.metadata() {
            Ok(other) if other.dev() == found.device && other.ino() == found.node => {}
            _ => return Err(RunError::Open),
        }
        file.seek(SeekFrom::Start(start))
            .map_err(|_| RunError::Read)?;
        match read_capture(alloc, &mut file.take(most as u64), most) {
            // `take` gives no more.
            Err(RunError::TooLarge) => Err(RunError::Read),
            read => read,
        }
    }
}
