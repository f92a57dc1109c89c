//! What can be asked.

use audit_judge::Piece;
use claim_board::Workers;

/// What is asked of a capture.
#[derive(Clone, Copy)]
pub enum Question {
    /// The report, made by this many workers, each of which takes this many frames at a time.
    Report { workers: Workers, piece: Piece },
    /// The first fault, or that there is none.
    FirstFault,
}

/// What is asked, and the names of the files that hold the parts of the capture, in order.
#[derive(Clone, Copy)]
pub struct Request<'a> {
    pub question: Question,
    pub files: &'a [&'a str],
}
