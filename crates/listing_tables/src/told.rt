//! The rows of a stream for one frame and for one record of it: the record, and before it what the
//! record has by its number and no row before it has named.

ghost use Rattle.std.specs.Prelude.{◌≡◌, ◌∷◌, [], false, OnOk};
ghost use Rattle.capture_frame.specs.Envelope.{placed_frame};
ghost use Rattle.listing_fields.specs.Content.{record_of_item};
ghost use Rattle.listing_tables.specs.Stream.{AddsRecords, is_record};
ghost use Rattle.listing_tables.specs.Walk.{record_begin};

use crate::names::Names;
use crate::records::{object_columns, record_columns};
use crate::rows::{Column, RowWriter, Sort, columns};
use crate::spans::{Spans, Utid};
use capture_frame::Frame;
use listing_fields::{EachObject, Item, ListingError, Outcome, named_of};
use std::alloc::Global;
use std::io::Write;

/// What rows have by its number, and how much of it rows have named.
#[derive(Drop)]
pub(crate) struct Told {
    spans: Spans,
    names: Names,
    threads: u64,
    interfaces: u64,
    services: u64,
    /// Where the letters of a name are put.
    letters: Vec<u8>,
}

impl Told {
    pub(crate) fn new(alloc: Global) -> Told {
        Told {
            spans: Spans::new(alloc),
            names: Names::new(alloc),
            threads: 0,
            interfaces: 0,
            services: 0,
            letters: Vec::new(alloc),
        }
    }

    /// The thread of a frame. Writes the row of the thread, if it is new.
    pub(crate) fn thread<W: Write + Drop>(
        &mut self,
        frame: Frame<'_>,
        rows: &mut RowWriter<W>,
    ) -> Result<Utid, ListingError>
        ensures { OnOk result (AddsRecords rows.old rows.new []) }
    {
        let utid = self.spans.add(frame)?.utid;
        let number = u64::from(utid.index) + 1;
        if number > self.threads {
            self.threads = number;
            rows.push_sorted(Sort::Thread, &thread_columns(utid, frame))?;
        }
        Ok(utid)
    }

    /// Writes the row of a record of a thread, and before it those of its interface and its service,
    /// if they are new.
    pub(crate) fn push_record<W: Write + Drop>(
        &mut self,
        frame: Frame<'_>,
        utid: Utid,
        item: Item<'_>,
        rows: &mut RowWriter<W>,
    ) -> Outcome
        ensures { OnOk result (AddsRecords rows.old rows.new
            (record_begin (placed_frame frame.entry) (record_of_item item.entry) ∷ [])) }
    {
        let interface = self.interface(item, rows)?;
        let service = self.service(item, rows)?;
        let named = named_of(item.record);
        let columns = record_columns(frame, utid, item, named, interface, service);
        rows.push_sorted(Sort::Record, &columns)
    }

    /// The number of the interface that a record names. Writes its row, if it is new.
    fn interface<W: Write + Drop>(
        &mut self,
        item: Item<'_>,
        rows: &mut RowWriter<W>,
    ) -> Result<Option<u64>, ListingError>
        ensures { OnOk result (AddsRecords rows.old rows.new []) }
    {
        let named = self.names.interface(item)?;
        if let Some(number) = named
            && number > self.interfaces
        {
            self.interfaces = number;
            self.names.set_interface(number, &mut self.letters)?;
            push_name(Sort::Interface, number, self.letters.as_slice(), rows)?;
        }
        Ok(named)
    }

    /// The number of the service that a record is about. Writes its row, if it is new.
    fn service<W: Write + Drop>(
        &mut self,
        item: Item<'_>,
        rows: &mut RowWriter<W>,
    ) -> Result<Option<u64>, ListingError>
        ensures { OnOk result (AddsRecords rows.old rows.new []) }
    {
        let named = self.names.service(item)?;
        if let Some(number) = named
            && number > self.services
        {
            self.services = number;
            self.names.set_service(number, &mut self.letters)?;
            push_name(Sort::Service, number, self.letters.as_slice(), rows)?;
        }
        Ok(named)
    }
}

fn thread_columns(utid: Utid, frame: Frame<'_>) -> [Column<'static>; 4] {
    columns! {
        utid: utid,
        device: frame.device,
        process: frame.process,
        thread: frame.thread,
    }
}

/// Writes the row of a name that is no record.
fn push_name<W: Write + Drop>(
    sort: Sort,
    number: u64,
    letters: &[u8],
    rows: &mut RowWriter<W>,
) -> Outcome
    requires { is_record sort ≡ false }
    ensures { OnOk result (AddsRecords rows.old rows.new []) }
{
    rows.push_sorted(sort, &name_columns(number, letters))
}

fn name_columns(number: u64, letters: &[u8]) -> [Column<'_>; 2] {
    columns! { id: number, name: Column::Text(letters) }
}

/// Writes the rows of a record's objects, if they are asked for.
pub(crate) fn push_asked<W: Write + Drop>(
    objects: bool,
    item: Item<'_>,
    rows: &mut RowWriter<W>,
) -> Outcome
    ensures { OnOk result (AddsRecords rows.old rows.new []) }
{
    if objects {
        return push_objects(item, rows);
    }
    Ok(())
}

/// Writes a row for each object of a record's attachment, up to the first bad one.
fn push_objects<W: Write + Drop>(item: Item<'_>, rows: &mut RowWriter<W>) -> Outcome
    ensures { OnOk result (AddsRecords rows.old rows.new []) }
{
    let Some(entry) = item.entry else {
        return Ok(());
    };
    for attached in EachObject::of(entry) {
        rows.push_sorted(Sort::Object, &object_columns(item.record.place, attached))?;
    }
    Ok(())
}
