//! The auditor's answers to one capture, and whether they agree.
ghost use Rattle.std.specs.Prelude.{◌≤◌};

use audit_run::{Piece, RunError, Workers, run, run_first_fault};
use std::alloc::{AllocError, Global};
use std::io;
use std::thread::Threads;

const TITLE: &[u8] = b"BINDER AUDIT 2\n";

const NO_FAULT: &[u8] = b"no malformed record\n";

/// What `run` writes about a capture, by one worker and by more, and what `run_first_fault` writes.
#[derive(Drop)]
pub(crate) struct Answers {
    by_one: Vec<u8>,
    by_two: Vec<u8>,
    by_seven: Vec<u8>,
    first_fault: Vec<u8>,
}

impl Answers {
    pub(crate) fn to<T: Threads + Sync>(
        rt: &T,
        alloc: Global,
        capture: &[u8],
    ) -> io::Result<Answers> {
        Ok(Answers {
            by_one: text(rt, alloc, capture, 1)?,
            by_two: text(rt, alloc, capture, 2)?,
            by_seven: text(rt, alloc, capture, 7)?,
            first_fault: first_fault_text(alloc, capture)?,
        })
    }

    /// Whether one worker writes a report, and no fault line.
    pub(crate) fn is_report(&self) -> bool {
        self.by_one.as_slice().starts_with(TITLE)
    }

    /// Whether `run_first_fault` names the fault that one worker names, or no fault if that worker
    /// writes a report.
    fn faults_agree(&self) -> bool {
        let due = if self.is_report() {
            NO_FAULT
        } else {
            self.by_one.as_slice()
        };
        self.first_fault.as_slice() == due
    }

    /// Whether one worker writes what is due: this fault line, or for `report N` a report with N
    /// frames in its totals.
    fn is_due(&self, alloc: Global, due: &str) -> Result<bool, AllocError> {
        match due.strip_prefix("report ") {
            Some(frames) => {
                let begin = format!(in alloc; "BINDER AUDIT 2\nframes {frames} records ")?;
                Ok(self.by_one.as_slice().starts_with(begin.as_bytes()))
            }
            None => {
                let line = format!(in alloc; "{due}\n")?;
                Ok(self.by_one.as_slice() == line.as_bytes())
            }
        }
    }

    /// The names of the answers that are wrong: `run` by more workers, if it writes another text
    /// than by one; `run_first_fault`, if it names another fault than that text, or none; and
    /// `run, by the line`, if that text is not what is due.
    pub(crate) fn wrong(
        &self,
        alloc: Global,
        due: Option<&str>,
    ) -> Result<Vec<&'static str>, AllocError> {
        let mut wrong = Vec::new(alloc);
        if self.by_two != self.by_one {
            wrong.push("run by 2 workers")?;
        }
        if self.by_seven != self.by_one {
            wrong.push("run by 7 workers")?;
        }
        if !self.faults_agree() {
            wrong.push("run_first_fault")?;
        }
        if let Some(due) = due {
            if !self.is_due(alloc, due)? {
                wrong.push("run, by the line")?;
            }
        }
        Ok(wrong)
    }
}

fn text<T: Threads + Sync>(
    rt: &T,
    alloc: Global,
    capture: &[u8],
    workers: u64,
) -> io::Result<Vec<u8>>
    requires least { 1 ≤ workers }
    requires most { workers ≤ 64 }
{
    let workers = Workers::new(workers).unwrap();
    let piece = Piece::new(1).unwrap();
    let mut reader = capture;
    let mut out = Vec::new(alloc);
    run(rt, alloc, &mut reader, &mut out, workers, piece).map_err(no_answer)?;
    Ok(out)
}

fn first_fault_text(alloc: Global, capture: &[u8]) -> io::Result<Vec<u8>> {
    let mut reader = capture;
    let mut out = Vec::new(alloc);
    run_first_fault(alloc, &mut reader, &mut out).map_err(no_answer)?;
    Ok(out)
}

fn no_answer(_error: RunError) -> io::Error {
    io::Error::other("the auditor came to no answer")
}
