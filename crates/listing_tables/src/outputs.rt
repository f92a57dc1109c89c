//! The tables of a capture to an output, or to files.

ghost use Rattle.std.specs.Prelude.{◌≡◌, ◌<◌, ◌^◌, length, map, IfOk, OnOk};
ghost use Rattle.std.specs.List.{sum_by};
ghost use Rattle.listing_fields.specs.declared.table.Table.TheVariants.{Call, Frame, Object, Record};
ghost use Rattle.listing_tables.specs.Tables.{ArePaired, AreTablesOf, KeepsLists, WritesTable};
ghost use Rattle.listing_tables.specs.Walk.{HasNoSteps};

use crate::before_fault::write_before_fault;
use crate::ending::Ending;
use crate::plain_walk::walk_plainly;
use crate::rows::RowWriter;
use crate::tables::Tables;
use crate::walk::{Writers, walk_to};
use either::Either::{self, Left, Right};
use listing_fields::{ListingError, Outcome, TABLES, Table, write_error};
use std::alloc::{AllocError, Global};
use std::fs;
use std::fs::Files;
use std::io::{Sink, Write, sink};

/// Where the rows of a table go that is written while the walk goes on: to the output, or nowhere.
/// That it is one type keeps the program small, because the whole walk is compiled for each type.
type Stream<'w, W> = Either<&'w mut W, Sink>;

fn nowhere<'w, W: Write>() -> Stream<'w, W> {
    Right(sink())
}

/// A writer, and the table whose rows it takes.
#[derive(Drop)]
struct TableWriter<W: Write + Drop> {
    table: Table,
    writer: W,
}

/// Writes one table of the capture that has these parts to the output. For rows of frames and of
/// records nothing else is kept.
pub fn write_one<W: Write>(
    alloc: Global,
    parts: &[&[u8]],
    table: Table,
    out: &mut W,
) -> Result<Ending, ListingError>
    requires few { length parts.now < 2 ^ 32 }
    requires fits { sum_by length (map (λ part. part.now) parts.now) < 2 ^ 64 }
{
    match table {
        Table::Frame | Table::Record => {
            let (ending, _) = walk_plainly(alloc, parts, writers_for_one(table, out))?;
            Ok(ending)
        }
        _ => {
            // They are dropped here only: the drop is long to prove, and would be proved at each `?`.
            let mut tables = Tables::new(alloc);
            let ended = walk_for_one(alloc, parts, table, &mut tables, out);
            drop(tables);
            ended
        }
    }
}

/// The writers for one table that is written while a walk goes on: the others are written nowhere.
fn writers_for_one<W: Write>(table: Table, out: &mut W) -> Writers<Stream<'_, W>> {
    let mut writers = Writers {
        frames: nowhere(),
        records: nowhere(),
        objects: nowhere(),
        calls: nowhere(),
    };
    match table {
        Table::Frame => writers.frames = Left(out),
        Table::Record => writers.records = Left(out),
        Table::Object => writers.objects = Left(out),
        Table::Call => writers.calls = Left(out),
        _ => {}
    }
    writers
}

/// Writes one table of what the walk keeps, or of objects or calls.
fn walk_for_one<W: Write>(
    alloc: Global,
    parts: &[&[u8]],
    table: Table,
    tables: &mut Tables,
    out: &mut W,
) -> Result<Ending, ListingError>
    requires few { length parts.now < 2 ^ 32 }
    requires fits { sum_by length (map (λ part. part.now) parts.now) < 2 ^ 64 }
    requires nothing { HasNoSteps tables.old }
    ensures { OnOk result (AreTablesOf (map (λ part. part.now) parts.now) tables.new) }
{
    if table.is_streamed() {
        walk_with(alloc, parts, tables, writers_for_one(table, out))
    } else {
        write_after_walk(alloc, parts, table, tables, out)
    }
}

/// Writes a table that is written after the walk.
fn write_after_walk<W: Write>(
    alloc: Global,
    parts: &[&[u8]],
    table: Table,
    tables: &mut Tables,
    out: &mut W,
) -> Result<Ending, ListingError>
    requires few { length parts.now < 2 ^ 32 }
    requires fits { sum_by length (map (λ part. part.now) parts.now) < 2 ^ 64 }
    requires nothing { HasNoSteps tables.old }
    ensures { OnOk result (AreTablesOf (map (λ part. part.now) parts.now) tables.new) }
{
    let ending = walk_nowhere::<W>(alloc, parts, tables)?;
    let writer = TableWriter { table, writer: out };
    write_table(alloc, tables, ending, writer)?;
    Ok(ending)
}

/// Walks through the capture for a table that is written after the walk.
fn walk_nowhere<W: Write>(
    alloc: Global,
    parts: &[&[u8]],
    tables: &mut Tables,
) -> Result<Ending, ListingError>
    requires few { length parts.now < 2 ^ 32 }
    requires fits { sum_by length (map (λ part. part.now) parts.now) < 2 ^ 64 }
    requires nothing { HasNoSteps tables.old }
    ensures { OnOk result (AreTablesOf (map (λ part. part.now) parts.now) tables.new) }
{
    let frames: Stream<'_, W> = nowhere();
    let writers = Writers {
        frames,
        records: nowhere(),
        objects: nowhere(),
        calls: nowhere(),
    };
    walk_with(alloc, parts, tables, writers)
}

/// Writes all tables of the capture that has these parts, each to a file of its own in a folder. Of a
/// malformed capture what comes before its first fault is written beside them.
pub fn write_all<T: Files>(
    rt: &T,
    alloc: Global,
    parts: &[&[u8]],
    folder: &str,
) -> Result<Ending, ListingError>
    requires few { length parts.now < 2 ^ 32 }
    requires fits { sum_by length (map (λ part. part.now) parts.now) < 2 ^ 64 }
{
    let mut tables = Tables::new(alloc);
    let ended = walk_for_all(rt, alloc, parts, folder, &mut tables);
    drop(tables);
    let ending = ended?;
    if ending.fault.is_some() {
        let file = create(rt, alloc, folder, "before-fault", ".cap")?;
        write_before_fault(alloc, parts, file)?;
    }
    Ok(ending)
}

/// Writes all tables.
fn walk_for_all<T: Files>(
    rt: &T,
    alloc: Global,
    parts: &[&[u8]],
    folder: &str,
    tables: &mut Tables,
) -> Result<Ending, ListingError>
    requires few { length parts.now < 2 ^ 32 }
    requires fits { sum_by length (map (λ part. part.now) parts.now) < 2 ^ 64 }
    requires nothing { HasNoSteps tables.old }
    ensures { OnOk result (AreTablesOf (map (λ part. part.now) parts.now) tables.new) }
{
    let writers = writers_of(
        create_table(rt, alloc, folder, ("frame", Table::Frame))?,
        create_table(rt, alloc, folder, ("record", Table::Record))?,
        create_table(rt, alloc, folder, ("object", Table::Object))?,
        create_table(rt, alloc, folder, ("call", Table::Call))?,
    );
    let ending = walk_with(alloc, parts, tables, writers)?;
    for named in TABLES {
        if !named.1.is_streamed() {
            let file = create_table(rt, alloc, folder, named)?;
            write_table(alloc, tables, ending, file)?;
        }
    }
    Ok(ending)
}

/// The writers of the tables that are written while the walk goes on, each with the rows of its own
/// table.
fn writers_of<W: Write + Drop>(
    frames: TableWriter<W>,
    records: TableWriter<W>,
    objects: TableWriter<W>,
    calls: TableWriter<W>,
) -> Writers<W>
    requires frames { frames.table ≡ Frame }
    requires records { records.table ≡ Record }
    requires objects { objects.table ≡ Object }
    requires calls { calls.table ≡ Call }
    ensures { result ≡ record {
      frames = frames.writer;
      records = records.writer;
      objects = objects.writer;
      calls = calls.writer;
    } }
{
    Writers {
        frames: frames.writer,
        records: records.writer,
        objects: objects.writer,
        calls: calls.writer,
    }
}

/// Walks through the capture, and writes to these what is written while the walk goes on.
fn walk_with<W: Write + Drop>(
    alloc: Global,
    parts: &[&[u8]],
    tables: &mut Tables,
    writers: Writers<W>,
) -> Result<Ending, ListingError>
    requires few { length parts.now < 2 ^ 32 }
    requires fits { sum_by length (map (λ part. part.now) parts.now) < 2 ^ 64 }
    requires nothing { HasNoSteps tables.old }
    ensures { OnOk result (AreTablesOf (map (λ part. part.now) parts.now) tables.new) }
{
    let (ending, _) = walk_to(alloc, parts, tables, writers)?;
    Ok(ending)
}

/// Writes the table of a writer, of the capture that was walked through, and gives the writer back.
fn write_table<W: Write + Drop>(
    alloc: Global,
    tables: &mut Tables,
    ending: Ending,
    to: TableWriter<W>,
) -> Result<W, ListingError>
    requires { ArePaired tables.old }
    ensures written { IfOk result (λ writer. WritesTable tables.old to.table
        (W.contents to.writer) (W.contents writer)) }
    ensures kept { KeepsLists tables.old tables.new }
{
    let TableWriter { table, writer } = to;
    let mut rows = RowWriter::new(alloc, writer);
    tables.write(table, ending, &mut rows)?;
    rows.finish()
}

/// Creates the file of a table in a folder.
fn create_table<T: Files>(
    rt: &T,
    alloc: Global,
    folder: &str,
    named: (&str, Table),
) -> Result<TableWriter<T::File>, ListingError>
    ensures { IfOk result (λ made. made.table ≡ named.entry.1) }
{
    let (name, table) = named;
    let writer = create(rt, alloc, folder, name, ".rows")?;
    Ok(TableWriter { table, writer })
}

fn create<T: Files>(
    rt: &T,
    alloc: Global,
    folder: &str,
    name: &str,
    suffix: &str,
) -> Result<T::File, ListingError> {
    let path = path_of(alloc, folder, name, suffix)?;
    fs::create(rt, path.as_str()).map_err(|error| write_error(&error))
}

fn path_of(alloc: Global, folder: &str, name: &str, suffix: &str) -> Result<String, AllocError> {
    let mut path = String::from_str(alloc, folder)?;
    path.push_str("/")?;
    path.push_str(name)?;
    path.push_str(suffix)?;
    Ok(path)
}
