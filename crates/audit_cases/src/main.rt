//! Runs the auditor on each command line of standard input, and prints its answers.
#![tactic(auto)]

mod answers;
mod cases;

use std::io;

fn main(rt: HostRuntime) -> io::Result<()> {
    let mut out = rt.stdout();
    for line in rt.lines(rt.alloc()) {
        cases::run_case(&rt, rt.alloc(), line?.as_str(), &mut out)?;
    }
    Ok(())
}
