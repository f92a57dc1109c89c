//! The last row of a stream.

ghost use Rattle.std.specs.Prelude.{OnOk};
ghost use Rattle.listing_tables.specs.Stream.{AddsLast, IsEndingRow};

use crate::ending::Ending;
use crate::rows::{Column, RowWriter, Sort, columns};
use listing_fields::Outcome;
use std::io::Write;

/// The status of a capture, at some of whose places nothing is.
const MISSING: u8 = 1;

/// The status of a malformed capture.
const MALFORMED: u8 = 2;

/// The status of a stream: 0, 1 if there are places at which nothing is, or 2 of a malformed capture.
pub(crate) fn status_of(ending: Ending, missing: usize) -> u8 {
    if ending.fault.is_some() {
        return MALFORMED;
    }
    if missing > 0 { MISSING } else { 0 }
}

/// Writes the last row of a stream.
pub(crate) fn push_ending<W: Write + Drop>(
    ending: Ending,
    status: u8,
    rows: &mut RowWriter<W>,
) -> Outcome
    ensures { OnOk result (AddsLast rows.old rows.new status) }
{
    rows.push_sorted(Sort::Ending, &ending_columns(ending, status))
}

fn ending_columns(ending: Ending, status: u8) -> [Column<'static>; 5]
    ensures { IsEndingRow ending status result }
{
    columns! {
        fault: ending.fault_number(),
        fault_place: ending.fault.map(|found| found.fault.place),
        fault_part: ending.fault.map(|found| found.part),
        parts: ending.parts,
        status: u64::from(status),
    }
}
