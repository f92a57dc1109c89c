//! The names of the calls, and the call of each name.

use crate::given::Given;
use crate::parts::report_by;
use crate::runs::Shown;
use crate::{parts, pieces, runs};
use audit_join::CAPTURE_LIMIT;
use audit_run::{Question, SharedFiles};
use claim_board::Workers;
use refusal_ledgers::{NoAnswer, Printed, Way, by_name, of_ledgers};
use std::alloc::Global;
use std::fs::Files;
use std::io::{Read, Write};
use std::thread::Threads;
use streams::read_capture;

/// Makes the call that the first line of the input names, on the bytes after that line, and prints
/// its answer. Without input it lists the names.
pub(crate) fn answer<T: Files + SharedFiles + Threads + Sync, R: Read, W: Write, E: Write>(
    rt: &T,
    alloc: Global,
    input: &mut R,
    out: &mut W,
    err: &mut E,
) -> Printed {
    let input = read_capture(alloc, input, CAPTURE_LIMIT)?;
    let (name, bytes) = first_line(input.as_slice());
    let Ok(name) = str::from_utf8(name) else {
        return Err(NoAnswer::Unknown);
    };
    let given = Given { rt, alloc, bytes };
    match of_ledgers(rt, alloc, name, bytes, out) {
        Err(NoAnswer::Unknown) => {}
        answered => return answered,
    }
    match given.of_frames(name, out) {
        Err(NoAnswer::Unknown) => {}
        answered => return answered,
    }
    match given.of_captures(name, out, err) {
        Err(NoAnswer::Unknown) if name.is_empty() => Ok(()),
        answered => answered,
    }
}

impl<T: Threads + Sync> Given<'_, T> {
    /// The calls that read, and those that find what is in frames.
    fn of_frames<W: Write>(&self, name: &str, out: &mut W) -> Printed {
        let (one, four) = (Workers::new(1).unwrap(), Workers::new(4).unwrap());
        by_name! { name, out;
            "read_capture" => runs::read(self.alloc, self.bytes, out),
            "read_parts" => parts::read(self.alloc, self.bytes, out),
            "cut_parts" => parts::cut_all(self.alloc, self.bytes, out),
            "Plan::new" => pieces::plan(self.alloc, self.bytes, out),
            "PieceSummary: add, sections" => pieces::summed(self.alloc, self.bytes, Way::Add, out),
            "PieceSummary: join, sections" => {
                pieces::summed(self.alloc, self.bytes, Way::Join, out)
            },
            "audit by 1" => self.audited(one, out),
            "audit by 4" => self.audited(four, out),
            "audit_parts by 1" => self.audited_parts(one, out),
            "audit_parts by 4" => self.audited_parts(four, out),
            "audit_one" => self.audited_by_one(Shown::Sections, out),
        }
    }
}

impl<T: Files + SharedFiles + Threads + Sync> Given<'_, T> {
    /// The calls from a capture, or a command line, to a text.
    fn of_captures<W: Write, E: Write>(&self, name: &str, out: &mut W, err: &mut E) -> Printed {
        let (one, four) = (Workers::new(1).unwrap(), Workers::new(4).unwrap());
        by_name! { name, out;
            "rows" => self.audited_by_one(Shown::Rows, out),
            "text" => self.audited_by_one(Shown::Text, out),
            "run by 1" => self.ran(one, out),
            "run by 4" => self.ran(four, out),
            "run_gated by 1" => self.ran_gated(one, out),
            "run_parts by 1" => self.ran_parts(one, out),
            "run_parts by 4" => self.ran_parts(four, out),
            "run_first_fault" => runs::ran_first_fault(self.alloc, self.bytes, out),
            "run_first_fault_parts" => parts::ran_first_fault(self.alloc, self.bytes, out),
            "answer: report by 1" => self.answered(report_by(one), out),
            "answer: first fault" => self.answered(Question::FirstFault, out),
            "answer_files: report by 1" => self.answered_files(report_by(one), out),
            "answer_files: first fault" => self.answered_files(Question::FirstFault, out),
            "program" => self.programmed(out, err),
        }
    }
}

/// The bytes of the first line, and those after it.
fn first_line(input: &[u8]) -> (&[u8], &[u8]) {
    for at in 0..input.len() {
        if input[at] == b'\n' {
            let (line, after) = input.split_at(at);
            return (line, &after[1..]);
        }
    }
    input.split_at(input.len())
}
