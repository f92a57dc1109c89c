//! Nodes.

use event_core::{NodeChange, NodeKey, Strength};
use handle_ledger::{NodeCounts, NodeLedger, NodeRow};
use std::test::Fail;
use summary_law::{Count, summary_of};

/// A node by its ptr and its cookie, and what is done to its references of a strength.
macro_rules! item {
    ($ptr:literal, $cookie:literal, $strength:ident, $change:ident) => {
        (
            NodeKey {
                ptr: $ptr,
                cookie: $cookie,
            },
            (Strength::$strength, NodeChange::$change),
        )
    };
}

/// A node by its ptr and its cookie, its strong count and low, its weak count and low, and its
/// strong due and weak due.
macro_rules! row {
    (
        $ptr:literal, $cookie:literal, $strong:literal, $strong_low:literal,
        $weak:literal, $weak_low:literal, $strong_due:literal, $weak_due:literal
    ) => {
        NodeRow {
            key: NodeKey {
                ptr: $ptr,
                cookie: $cookie,
            },
            counts: NodeCounts {
                strong: Count {
                    sum: $strong,
                    low: $strong_low,
                },
                weak: Count {
                    sum: $weak,
                    low: $weak_low,
                },
                strong_due: $strong_due,
                weak_due: $weak_due,
            },
        }
    };
}

/// The least and the greatest node; and under each of the ptrs 1 and 2 three nodes, each named by
/// one record.
const ITEMS: &[(NodeKey, (Strength, NodeChange))] = &[
    item!(2, 3, Weak, Done),
    item!(18446744073709551615, 18446744073709551615, Weak, Raise),
    item!(1, 2, Strong, Lower),
    item!(0, 0, Strong, Raise),
    item!(2, 1, Weak, Raise),
    item!(0, 18446744073709551615, Strong, Lower),
    item!(1, 3, Strong, Done),
    item!(0, 0, Strong, Done),
    item!(2, 2, Weak, Lower),
    item!(18446744073709551615, 18446744073709551615, Weak, Done),
    item!(1, 1, Strong, Raise),
    item!(0, 0, Strong, Lower),
];

const ROWS: &[NodeRow] = &[
    row!(0, 0, 0, 0, 0, 0, 0, 0),
    row!(0, 18446744073709551615, -1, -1, 0, 0, 0, 0),
    row!(1, 1, 1, 0, 0, 0, 1, 0),
    row!(1, 2, -1, -1, 0, 0, 0, 0),
    row!(1, 3, 0, 0, 0, 0, -1, 0),
    row!(2, 1, 0, 0, 1, 0, 0, 1),
    row!(2, 2, 0, 0, -1, -1, 0, 0),
    row!(2, 3, 0, 0, 0, 0, 0, -1),
    row!(18446744073709551615, 18446744073709551615, 0, 0, 1, 0, 0, 0),
];

/// The items have these rows.
#[test]
fn rows_of_a_dozen_items(rt: HostRuntime) -> Result<(), Fail> {
    let ledger: NodeLedger = summary_of(rt.alloc(), ITEMS)?;
    let rows = ledger.rows()?;
    assert!(rt; rows.as_slice() == ROWS);
    Ok(())
}
