//! Tests of `audit_run`: devices that fail, the gate that is handed on, refused memory, captures in
//! parts, how many bytes a read asks for, files whose bytes are known, and files no stretch of which can
//! be read.

mod devices;
mod gate;
mod memory;
mod not_in_stretches;
mod parts;
mod read_sizes;
mod store;
