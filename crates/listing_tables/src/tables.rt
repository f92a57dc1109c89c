//! The tables of a capture.

ghost use Rattle.std.specs.Prelude.{◌≡◌, List, OnOk};
ghost use Rattle.capture_frame.specs.Envelope.{placed_frame};
ghost use Rattle.record_view.specs.State.{placed_record};
ghost use Rattle.listing_tables.specs.Steps.{AddsMarked, AreCallsOf, IsKept, KeepsAll, Marked};
ghost use Rattle.listing_tables.specs.Steps.{WritesCalls, marked_of};
ghost use Rattle.listing_tables.specs.Tables.{ArePaired, KeepsLists, WritesTable};
ghost use Rattle.listing_tables.specs.Walk.{HasNoSteps};

use crate::calls::{Call, all_calls};
use crate::ending::Ending;
use crate::names::Names;
use crate::numbered::{Numbered, narrow, sum};
use crate::origin::Origin;
use crate::pairs::pair_all;
use crate::rows::RowWriter;
use crate::slices::Slices;
use crate::spans::{Owner, Spans};
use crate::steps::{Steps, add_step};
use crate::traffic::Traffic;
use capture_frame::Frame;
use listing_fields::{Item, ListingError, Named, Outcome, Table};
use std::alloc::Global;
use std::io::Write;
use std::mem;
use summary_law::Summary;

/// What the walk keeps for the tables that are written after it.
#[derive(Drop)]
pub(crate) struct Tables {
    spans: Spans,
    pub(crate) names: Names,
    steps: Steps,
    traffic: Traffic,
    /// In the order of their openers. They are found when all records are there.
    calls: Numbered<Call>,
    records: u64,
}

impl Tables {
    /// Nothing yet.
    pub(crate) fn new(alloc: Global) -> Tables
        ensures { HasNoSteps result }
    {
        Tables {
            spans: Spans::new(alloc),
            names: Names::new(alloc),
            steps: Steps::empty(alloc),
            traffic: Traffic::new(alloc),
            calls: Numbered::new(alloc),
            records: 0,
        }
    }

    /// Begins a walk through a capture that goes this far.
    pub(crate) fn begin(&mut self, ending: Ending)
        ensures { self.new.steps ≡ self.old.steps }
    {
        let span = ending.span.unwrap_or((0, 0));
        self.traffic.levels.set_span(span);
    }

    /// Takes a frame, before its records.
    pub(crate) fn add_frame(&mut self, frame: Frame<'_>) -> Result<Owner, ListingError>
        ensures { self.new.steps ≡ self.old.steps }
    {
        let owner = self.spans.add(frame)?;
        self.traffic.add_frame(frame, owner)?;
        Ok(owner)
    }

    /// Takes a record of a frame, and what it names.
    pub(crate) fn add_item(
        &mut self,
        frame: Frame<'_>,
        owner: Owner,
        item: Item<'_>,
        named: Named,
    ) -> Outcome
        requires { IsKept self.old.steps.entries.entries }
        ensures { OnOk result (AddsMarked self.old.steps.entries.entries
            self.new.steps.entries.entries
            (marked_of (placed_frame frame.entry) (placed_record item.entry.«record»))) }
    {
        self.records = sum(self.records, 1)?;
        self.spans
            .add_record(owner.utid, frame.direction, item.record.place)?;
        let before = self.traffic.messages.list.next()?;
        add_step(&mut self.steps, frame, item.record, before)?;
        let origin = origin_of(frame, owner, item.record.place)?;
        self.traffic.add_item(origin, item, named)
    }

    /// Finds what is known only when all records are there, and writes the rows of the table call.
    pub(crate) fn finish<W: Write + Drop>(
        &mut self,
        alloc: Global,
        rows: &mut RowWriter<W>,
    ) -> Outcome
        ensures calls { OnOk result (WritesCalls rows.old rows.new self.new.calls.all.items) }
        ensures found { OnOk result ((marked : List Marked) →
            KeepsAll self.old.steps.entries.entries marked →
            AreCallsOf marked self.new.calls.all.items) }
        ensures paired { OnOk result (ArePaired self.new) }
    {
        let steps = mem::replace(&mut self.steps, Steps::empty(alloc));
        let calls = all_calls(alloc, &steps);
        drop(steps);
        self.calls = calls?;
        self.traffic.messages.write_calls(&self.calls, rows)?;
        self.traffic.follow(alloc, &self.calls, &self.spans)?;
        pair_all(alloc, &mut self.traffic, &self.calls)
    }

    /// Writes a table of the capture that was walked through, and that goes this far. Nothing is
    /// written of a table that is written while the walk goes on.
    pub(crate) fn write<W: Write + Drop>(
        &mut self,
        table: Table,
        ending: Ending,
        rows: &mut RowWriter<W>,
    ) -> Outcome
        ensures written { OnOk result (WritesTable self.old table rows.old rows.new) }
        ensures kept { KeepsLists self.old self.new }
    {
        match table {
            Table::Frame | Table::Record | Table::Object | Table::Call => Ok(()),
            Table::Capture => ending.write(self.records, rows),
            Table::Process => self.spans.write_processes(rows),
            Table::Thread => self.spans.write_threads(rows),
            Table::Interface => self.names.write_interfaces(rows),
            Table::Service => self.names.write_services(rows),
            Table::Generation => self.traffic.handles.generations.write(rows),
            Table::Send => self.traffic.messages.write_sends(rows),
            Table::Delivery => {
                self.traffic
                    .messages
                    .write_deliveries(&self.traffic.buffers, &self.calls, rows)
            }
            Table::Slice => match ending.span {
                Some(span) => Slices::of(span).write(rows),
                None => Ok(()),
            },
            Table::Level => self.write_levels(rows),
        }
    }

    /// Writes the rows of the levels of all processes.
    fn write_levels<W: Write + Drop>(&mut self, rows: &mut RowWriter<W>) -> Outcome
        ensures { KeepsLists self.old self.new }
    {
        let processes = self.spans.processes()?;
        self.traffic.levels.write(processes, rows)
    }
}

/// Where a record at this place comes from.
fn origin_of(frame: Frame<'_>, owner: Owner, place: u64) -> Result<Origin, ListingError> {
    Ok(Origin {
        place: narrow(place)?,
        sequence: frame.sequence,
        device: frame.device,
        process: frame.process,
        upid: owner.upid,
        utid: owner.utid,
    })
}
