//! A case: a command line, or a capture that is audited with several numbers of workers and pieces.
use crate::answers::{Answer, answer_to};
use audit_program::SharedFiles;
use std::alloc::{AllocError, Global};
use std::fs::Files;
use std::io;
use std::io::Write;
use std::thread::Threads;

/// The workers with which reports are made.
const WORKERS: &[u64] = &[1, 2, 7];

/// The pieces, with each number of workers.
const PIECES: &[u64] = &[1, 2, 3, 4, 5, 6, 7, 8, 256];

/// Prints a line and the answer to it. If the line is `all` and one or more files, each after a
/// tab, a report is made with each of `WORKERS` and each of `PIECES`. The first answer is printed,
/// and then `differs` if they are not alike.
pub(crate) fn run_case<T: Files + SharedFiles + Threads + Sync, W: Write>(
    rt: &T,
    alloc: Global,
    line: &str,
    out: &mut W,
) -> io::Result<()> {
    let mark = if line.is_empty() { ">" } else { "> " };
    writeln!(out, "{mark}{line}")?;
    match line.strip_prefix("all\t") {
        Some(file) => run_all(rt, alloc, file, out),
        None => answer_to(rt, alloc, line)?.print(out),
    }
}

fn run_all<T: Files + SharedFiles + Threads + Sync, W: Write>(
    rt: &T,
    alloc: Global,
    file: &str,
    out: &mut W,
) -> io::Result<()> {
    let first = report(rt, alloc, file, (1, 1))?;
    first.print(out)?;
    if !all_give(rt, alloc, file, &first)? {
        writeln!(out, "differs")?;
    }
    Ok(())
}

/// Whether each number of workers and each piece gives this answer.
fn all_give<T: Files + SharedFiles + Threads + Sync>(
    rt: &T,
    alloc: Global,
    file: &str,
    answer: &Answer,
) -> Result<bool, AllocError> {
    let mut alike = true;
    for workers in WORKERS {
        for piece in PIECES {
            if report(rt, alloc, file, (*workers, *piece))? != *answer {
                alike = false;
            }
        }
    }
    Ok(alike)
}

fn report<T: Files + SharedFiles + Threads + Sync>(
    rt: &T,
    alloc: Global,
    file: &str,
    (workers, piece): (u64, u64),
) -> Result<Answer, AllocError> {
    let line = format!(in alloc; "report\t--workers\t{workers}\t--piece\t{piece}\t{file}")?;
    answer_to(rt, alloc, line.as_str())
}
