//! A test of `audit_join`: workers share the frames.

ghost use Rattle.std.specs.Prelude.{◌≤◌, length};
ghost use Rattle.audit_join.specs.declared.limits.TheConstants.{CAPTURE_LIMIT};

use crate::writes::RELEASE_FIRST;
use audit_join::{CAPTURE_LIMIT, Findings, Piece, audit};
use claim_board::Workers;
use std::process::Abort;
use std::test::Fail;
use summary_law::Count;
use test_kit::Meeting;

/// The same capture, with a clause that it is within the limit. A proof about a constant carries
/// all its bytes along, and a proof about what this gives does not.
fn within_limit<'c>(rt: &impl Abort, capture: &'c [u8]) -> &'c [u8]
    ensures { length result.now ≤ CAPTURE_LIMIT }
{
    assert!(rt; capture.len() <= CAPTURE_LIMIT);
    capture
}

/// The findings have one row of `handles`: of this handle, with these strong references.
fn expect_handle(rt: &impl Abort, found: &Findings<'_>, handle: u32, strong: Count) {
    let rows = found.sections().processes.handles.rows.as_slice();
    assert_eq!(rt; rows.len(), 1);
    assert_eq!(rt; rows[0].row.handle, handle);
    assert_eq!(rt; rows[0].row.taken.strong, strong);
}

/// Two pieces are under way at the same time.
#[test]
fn two_pieces_meet(rt: HostRuntime) -> Result<(), Fail> {
    let gate = Meeting::<2>::new();
    let two = Workers::new(2).ok_or("workers")?;
    let one = Piece::new(1).ok_or("piece")?;
    let capture = within_limit(&rt, RELEASE_FIRST);
    let found = audit(&rt, rt.alloc(), capture, two, one, &gate)?;
    // The handle is released before it is acquired.
    expect_handle(&rt, &found, 3, Count { sum: 0, low: -1 });
    found.discard();
    assert!(rt; gate.was_held());
    Ok(())
}
