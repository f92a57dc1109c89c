//! Tests that naming the first fault of a capture that is read takes no memory. The test builds
//! what it needs without growth, so it also passes under `rt try --test --fail-alloc 1`, which
//! refuses the first growth.

use audit_run::write_first_fault;
use std::test::Fail;

/// A capture of one write with a `BC_ENTER_LOOPER`.
const CAPTURE: &[u8] = b"BNDRCAP1\x08\0\0\0\0\0\0\0\
\x01\0\0\0\0\0\0\0\x64\0\0\0\x65\0\0\0\x01\0\0\0\x04\0\0\0\0\0\0\0\0\0\0\0\
\x0c\x63\0\0";

const NO_FAULT: &[u8] = b"no malformed record\n";

#[test]
fn the_first_fault_is_named_without_memory(rt: HostRuntime) -> Result<(), Fail> {
    let mut page = [0u8; 64];
    let mut out = page.as_mut_slice();
    assert_eq!(rt; write_first_fault(CAPTURE, &mut out)?, None);
    assert!(rt; page.starts_with(NO_FAULT));
    Ok(())
}
