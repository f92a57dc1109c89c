//! Cuts and changes captures as the lines of standard input say, and prints each answer of the
//! auditor that does not agree with the others or with the line.
#![tactic(auto)]

mod answers;
mod changes;
mod lines;
mod rounds;

use std::io;

fn main(rt: HostRuntime) -> io::Result<()> {
    let mut out = rt.stdout();
    for line in rt.lines(rt.alloc()) {
        rounds::run_line(&rt, rt.alloc(), line?.as_str(), &mut out)?;
    }
    Ok(())
}
