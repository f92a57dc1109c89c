//! Audits a capture of Android Binder traffic.
#![tactic(auto)]

use audit_program::ended;
pub use audit_program::{Ending, program, program_on};
pub use audit_run::{
    CAPTURE_LIMIT, Gate, HostFiles, NoGate, PartsWritten, Piece, RunError, Store, Workers, Written,
    read_capture, read_parts, run, run_first_fault, run_first_fault_parts, run_gated, run_parts,
};
use std::env;
use std::process::ExitCode;

fn main(rt: HostRuntime) -> ExitCode {
    ended(
        &rt,
        rt.alloc(),
        env::args(&rt),
        &mut rt.stdout(),
        &mut rt.stderr(),
    )
}
