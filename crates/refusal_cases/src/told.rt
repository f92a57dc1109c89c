//! Prints findings. Nothing here takes memory.

use audit_findings::{Findings, Sections};
use call_stacks::Opener;
use refusal_ledgers::{Printed, kept_frames, opener, value};
use std::io::Write;

/// Prints calls that a report lists.
fn openers<W: Write>(rows: &[Opener<u64>], out: &mut W) -> Printed {
    for one in rows {
        opener(one.event, one.verdict, one.closer, out)?;
    }
    Ok(())
}

/// Prints the frames and the sections of findings.
pub(crate) fn findings<W: Write>(found: &Findings<'_>, out: &mut W) -> Printed {
    kept_frames(&found.frames(), out)?;
    sections(found.sections(), out)
}

/// Prints the numbers and the rows of the sections.
pub(crate) fn sections<W: Write>(found: &Sections<u64>, out: &mut W) -> Printed {
    let (events, calls, processes) = (&found.events, &found.calls, &found.processes);
    value(&(found.missing, events.records, events.opaque), out)?;
    value(&(events.counts, events.oneway, events.objects), out)?;
    value(&events.codes.as_slice(), out)?;
    openers(calls.calls.rows.as_slice(), out)?;
    openers(calls.served.rows.as_slice(), out)?;
    value(&calls.strays.as_slice(), out)?;
    value(&calls.refused.rows.as_slice(), out)?;
    value(&processes.handles.rows.as_slice(), out)?;
    value(&processes.nodes.rows.as_slice(), out)?;
    value(&processes.leaked.as_slice(), out)?;
    value(&processes.stray_frees.as_slice(), out)?;
    value(&processes.standing.as_slice(), out)?;
    value(&processes.deaths.rows.as_slice(), out)?;
    value(&processes.clears.rows.as_slice(), out)?;
    value(&processes.oneway.as_slice(), out)?;
    value(&events.bad_objects.as_slice(), out)?;
    value(&events.flags.as_slice(), out)
}
