//! The whole report.

ghost use Rattle.std.specs.Prelude.{◌≡◌, ◌≤◌, List, All, map, length, IfOk, OnOk, string_bytes};
ghost use Rattle.audit_findings.specs.Findings.{findings_of};
ghost use Rattle.report_text.specs.Pushed.{TakesLines};
ghost use Rattle.report_text.specs.Text.{title, totals, report_lines, report_text};

use crate::buffers::Buffers;
use crate::call_row::OfCalls;
use crate::calls::Calls;
use crate::clears::Clears;
use crate::codes::Codes;
use crate::deaths::Deaths;
use crate::events::OfEvents;
use crate::flags::Flags;
use crate::frees::Frees;
use crate::handles::Handles;
use crate::line::{Row, push_counted};
use crate::lines::Lines;
use crate::nodes::Nodes;
use crate::objects::Objects;
use crate::oneway::Oneway;
use crate::refused::Refused;
use crate::requests::Requests;
use crate::section::push_section;
use crate::served::Served;
use crate::strays::Strays;
use crate::whole_rows::OfRows;
use audit_findings::Findings;
use std::alloc::{AllocError, Global};
use std::thread::Threads;

/// The lines of the report, without their line feeds. Listed records are read again from the
/// capture, by several threads if there are many.
pub fn rows<T: Threads + Sync>(
    rt: &T,
    alloc: Global,
    found: &Findings<'_>,
) -> Result<Vec<Row>, AllocError>
    ensures lines { IfOk result
        (λ rows. map (λ row. row.bytes) rows.items ≡ report_lines (findings_of found.now)) }
    ensures short { IfOk result (λ rows. All (λ row. length row.bytes ≤ 256) rows.items) }
{
    let mut rows = Vec::new(alloc);
    push_report(rt, alloc, found, &mut rows)?;
    Ok(rows)
}

/// The text of the report, each line with its line feed. Besides the text it holds a bounded number
/// of lines.
pub fn text<T: Threads + Sync>(
    rt: &T,
    alloc: Global,
    found: &Findings<'_>,
) -> Result<String, AllocError>
    ensures { IfOk result (λ text. string_bytes text ≡ report_text (findings_of found.now)) }
{
    let mut text = String::new(alloc);
    push_report(rt, alloc, found, &mut text)?;
    Ok(text)
}

/// Pushes the lines of the report, in order. The sections have different types, so no array can
/// hold them: these calls are the list. Nothing is dropped here, so the many early returns cost
/// little.
fn push_report<T: Threads + Sync, L: Lines>(
    rt: &T,
    alloc: Global,
    found: &Findings<'_>,
    lines: &mut L,
) -> Result<(), AllocError>
    ensures { OnOk result
        (TakesLines L.takes (report_lines (findings_of found.now)) lines.old lines.new) }
{
    lines.push_line(&title_line())?;
    lines.push_line(&totals_line(found))?;
    push_section(rt, alloc, OfRows(Codes), found, lines)?;
    push_section(rt, alloc, OfCalls(Calls), found, lines)?;
    push_section(rt, alloc, OfCalls(Served), found, lines)?;
    push_section(rt, alloc, OfEvents(Strays), found, lines)?;
    push_section(rt, alloc, OfEvents(Refused), found, lines)?;
    push_section(rt, alloc, OfRows(Handles), found, lines)?;
    push_section(rt, alloc, OfRows(Nodes), found, lines)?;
    push_section(rt, alloc, OfEvents(Buffers), found, lines)?;
    push_section(rt, alloc, OfEvents(Frees), found, lines)?;
    push_section(rt, alloc, OfEvents(Requests), found, lines)?;
    push_section(rt, alloc, OfEvents(Deaths), found, lines)?;
    push_section(rt, alloc, OfEvents(Clears), found, lines)?;
    push_section(rt, alloc, OfRows(Oneway), found, lines)?;
    push_section(rt, alloc, Objects, found, lines)?;
    push_section(rt, alloc, OfEvents(Flags), found, lines)
}

fn title_line() -> Row
    ensures { result.bytes ≡ title }
{
    let mut line = Row::new();
    line.push_str("BINDER AUDIT 2");
    line
}

fn totals_line(found: &Findings<'_>) -> Row
    ensures { result.bytes ≡ totals (findings_of found.now) }
{
    let sections = found.sections();
    let mut line = Row::new();
    push_counted(&mut line, "frames ", found.frames().len() as u64);
    push_counted(&mut line, " records ", sections.events.records);
    push_counted(&mut line, " opaque ", sections.events.opaque);
    push_counted(&mut line, " missing ", sections.missing);
    line
}
