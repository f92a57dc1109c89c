//! Makes one of the calls that take memory, on a capture, and prints its answer.
#![tactic(auto)]

mod given;
mod parts;
mod pieces;
mod runs;
mod table;
mod told;

use std::io::Write;
use std::process::ExitCode;

fn main(rt: HostRuntime) -> ExitCode {
    let mut out = rt.stdout();
    let answered = table::answer(&rt, rt.alloc(), &mut rt.stdin(), &mut out, &mut rt.stderr());
    let Err(no_answer) = answered else {
        return ExitCode::from(0);
    };
    let _ = writeln!(out, "{no_answer:?}");
    ExitCode::from(no_answer.status())
}
