//! Handles.

use event_core::{HandleChange, Strength};
use handle_ledger::{HandleCounts, HandleLedger, HeldRow};
use std::test::Fail;
use summary_law::{Count, Tally, summary_of};

/// A handle, and what is done to its references of a strength.
macro_rules! item {
    ($handle:literal, $strength:ident, $change:ident) => {
        ($handle, (Strength::$strength, HandleChange::$change))
    };
}

/// A strong count and its low, a weak count and its low.
macro_rules! counts {
    ($strong:literal, $strong_low:literal, $weak:literal, $weak_low:literal) => {
        HandleCounts {
            strong: Count {
                sum: $strong,
                low: $strong_low,
            },
            weak: Count {
                sum: $weak,
                low: $weak_low,
            },
        }
    };
}

/// A handle with its counts.
macro_rules! row {
    ($handle:literal, $strong:literal, $strong_low:literal, $weak:literal, $weak_low:literal) => {
        (
            $handle,
            counts!($strong, $strong_low, $weak, $weak_low),
        )
    };
}

/// The least and the greatest handle; 1 to 4 named by one command each; 5 by a strong and a weak
/// one; and 6 let go before it is taken.
const ITEMS: &[(u32, (Strength, HandleChange))] = &[
    item!(4, Weak, Lower),
    item!(6, Strong, Lower),
    item!(1, Strong, Raise),
    item!(5, Strong, Raise),
    item!(4294967295, Weak, Raise),
    item!(5, Weak, Lower),
    item!(2, Strong, Lower),
    item!(6, Strong, Raise),
    item!(0, Strong, Raise),
    item!(3, Weak, Raise),
    item!(2, Strong, Lower),
    item!(0, Strong, Lower),
];

const ROWS: &[(u32, HandleCounts)] = &[
    row!(0, 0, 0, 0, 0),
    row!(1, 1, 0, 0, 0),
    row!(2, -2, -2, 0, 0),
    row!(3, 0, 0, 1, 0),
    row!(4, 0, 0, -1, -1),
    row!(5, 1, 0, -1, -1),
    row!(6, 0, -1, 0, 0),
    row!(4294967295, 0, 0, 1, 0),
];

/// Held references, each with whether it is a weak one, and a weight: of two handles that an item
/// names, and of two that none does.
const HELD: &[((u32, bool), u64)] = &[
    ((7, true), 1),
    ((5, false), 9),
    ((5, true), 1),
    ((8, false), 0),
    ((0, false), 1),
    ((5, false), 1),
    ((7, true), 1),
];

/// A handle with its counts, and how many strong and how many weak references are held.
macro_rules! held_row {
    ($handle:literal, $counts:expr, $strong:literal, $weak:literal) => {
        HeldRow {
            handle: $handle,
            taken: $counts,
            held_strong: $strong,
            held_weak: $weak,
        }
    };
}

const HELD_ROWS: &[HeldRow] = &[
    held_row!(0, counts!(0, 0, 0, 0), 1, 0),
    held_row!(1, counts!(1, 0, 0, 0), 0, 0),
    held_row!(2, counts!(-2, -2, 0, 0), 0, 0),
    held_row!(3, counts!(0, 0, 1, 0), 0, 0),
    held_row!(4, counts!(0, 0, -1, -1), 0, 0),
    held_row!(5, counts!(1, 0, -1, -1), 2, 1),
    held_row!(6, counts!(0, -1, 0, 0), 0, 0),
    held_row!(7, counts!(0, 0, 0, 0), 0, 2),
    held_row!(8, counts!(0, 0, 0, 0), 1, 0),
    held_row!(4294967295, counts!(0, 0, 1, 0), 0, 0),
];

/// The items have these rows, without and with what is held.
#[test]
fn rows_of_a_dozen_items(rt: HostRuntime) -> Result<(), Fail> {
    let ledger: HandleLedger = summary_of(rt.alloc(), ITEMS)?;
    let rows = ledger.rows()?;
    assert!(rt; rows.as_slice() == ROWS);
    let held: Tally<(u32, bool)> = summary_of(rt.alloc(), HELD)?;
    let rows = ledger.rows_held(&held)?;
    assert!(rt; rows.as_slice() == HELD_ROWS);
    Ok(())
}

#[test]
fn ten_thousand_handles_come_in_falling_order(rt: HostRuntime) -> Result<(), Fail> {
    let mut items = Vec::new(rt.alloc());
    for handle in (0..10000).rev() {
        items.push((handle, (Strength::Weak, HandleChange::Raise)))?;
    }
    assert!(rt; items.len() == 10000);
    let ledger: HandleLedger = summary_of(rt.alloc(), items.as_slice())?;
    let rows = ledger.rows()?;
    assert!(rt; rows.len() == 10000);
    for (place, row) in rows.iter().enumerate() {
        assert!(rt; row.0 as usize == place);
    }
    Ok(())
}
