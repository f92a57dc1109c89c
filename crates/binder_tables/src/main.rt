//! Writes the raw tables of a capture of Android Binder traffic, or its records as a stream of rows.
#![tactic(auto)]

mod status;
mod tables;
mod words;

use status::ended;
use std::env;
use std::process::ExitCode;

fn main(rt: HostRuntime) -> ExitCode {
    ended(
        &rt,
        rt.alloc(),
        env::args(&rt),
        &mut rt.stdout(),
        &mut rt.stderr(),
    )
}
