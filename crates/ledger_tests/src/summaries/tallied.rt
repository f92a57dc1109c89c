//! Counts and tallies.

use std::test::Fail;
use summary_law::{Amount, Count, Tally, summary_of};

/// Two sends of the greatest size to one handle.
const GREATEST: &[(u32, u64)] = &[(2, 18446744073709551615), (2, 18446744073709551615)];

/// Ten items of four keys.
const TEN: &[(u32, u64)] = &[
    (7, 1),
    (2, 10),
    (7, 100),
    (9, 0),
    (2, 1000),
    (0, 5),
    (7, 10000),
    (9, 0),
    (0, 18446744073709551615),
    (0, 18446744073709551615),
];

/// Their keys, counts and sums.
const ROWS: &[(u32, u64, u128)] = &[
    (0, 3, 36893488147419103235),
    (2, 2, 1010),
    (7, 3, 10101),
    (9, 2, 0),
];

#[test]
fn sums_do_not_wrap(rt: HostRuntime) -> Result<(), Fail> {
    let tally: Tally<u32> = summary_of(rt.alloc(), GREATEST)?;
    let rows = tally.rows()?;
    assert!(rt;
        rows.as_slice() == [(2, 2, 36893488147419103230)].as_slice(),
        "2^65 - 2"
    );
    Ok(())
}

/// The tally has the rows of all ten items.
#[test]
fn rows_of_ten_items(rt: HostRuntime) -> Result<(), Fail> {
    let tally: Tally<u32> = summary_of(rt.alloc(), TEN)?;
    let rows = tally.rows()?;
    assert!(rt; rows.as_slice() == ROWS);
    let seven = Amount {
        count: 3,
        sum: 10101,
    };
    assert!(rt; tally.amount(7) == seven);
    assert!(rt; tally.amount(8) == Amount { count: 0, sum: 0 });
    Ok(())
}

#[test]
fn lows_add_up(rt: HostRuntime) {
    let mut once = Count::new();
    once.lower();
    let twice = once.then(once);
    assert!(rt;
        twice == Count { sum: -2, low: -2 },
        "the second goes on from the first"
    );
}
