//! The rows that are written.

ghost use Rattle.std.specs.Prelude.{◌≡◌, ◌<◌, ◌≤◌, ◌+◌, ◌^◌, ◌++◌, length, IfOk, OnOk};
ghost use Rattle.std.specs.Int.{w64, to_le_bytes};
ghost use Rattle.std.specs.Io.KnownBytes.{Appends, Keeps};
ghost use Rattle.arrayvec.specs.ArrayVec.{array_vec_len};
ghost use Rattle.listing_tables.specs.Columns.{column_of, column_bytes, mask_of, masked_bytes, row_bytes};
ghost use Rattle.listing_tables.specs.Stream.{sort_number, sorted_bytes, sorted_mask};
ghost use Rattle.listing_tables.specs.declared.rows.Column.TheVariants.{Number};

use arrayvec::ArrayVec;
use listing_fields::{ListingError, Outcome, write_error};
use std::alloc::Global;
use std::io::Write;
use std::marker::Model;

/// How many bytes are collected before they are written.
const PIECE: usize = 65_536;

/// Collects the rows of a table, and writes many of them at a time. In contracts the value is what
/// the writer has together with what is still to be written, where that is known.
#[derive(Drop)]
pub(crate) struct RowWriter<W: Write + Drop> {
    /// What is not written yet.
    bytes: Vec<u8>,
    /// Where a row is made.
    row: Numbers,
    writer: W,
}

impl<W: Write + Drop> Model for RowWriter<W> {
    ghost use Rattle.std.specs.Io.KnownBytes.{append_known};
    ghost use Rattle.std.specs.Prelude.{ℕ, List, Option};

    ghost Value = { Option (List ℕ) };

    ghost view = { λ r. append_known (W.contents r.writer) r.bytes.items };
}

impl<W: Write + Drop> RowWriter<W> {
    pub(crate) fn new(alloc: Global, writer: W) -> RowWriter<W>
        ensures { Keeps (W.contents writer) result }
    {
        RowWriter {
            bytes: Vec::new(alloc),
            row: Numbers::new(),
            writer,
        }
    }

    /// Takes a row: a mask, and then the columns that are not NULL. The mask has a bit for each of
    /// them, the lowest bit for the first column.
    pub(crate) fn push(&mut self, columns: &[Column<'_>]) -> Outcome
        requires { length columns.now ≤ 63 }
        ensures { OnOk result (Appends self.old self.new (row_bytes columns.now)) }
    {
        self.push_masked(mask_of(columns), columns)
    }

    /// Takes a row of a stream. It is a row as `push` takes it, but the highest byte of its mask is the
    /// number of its sort.
    pub(crate) fn push_sorted(&mut self, sort: Sort, columns: &[Column<'_>]) -> Outcome
        requires { length columns.now ≤ 56 }
        ensures { OnOk result (Appends self.old self.new (sorted_bytes sort columns.now)) }
    {
        self.push_masked(sorted_mask(sort, columns), columns)
    }

    fn push_masked(&mut self, mask: u64, columns: &[Column<'_>]) -> Outcome
        requires { length columns.now ≤ 63 }
        ensures { OnOk result (Appends self.old self.new (masked_bytes mask columns.now)) }
    {
        push_row(&mut self.bytes, &mut self.row, mask, columns)?;
        if self.bytes.len() < PIECE {
            return Ok(());
        }
        self.write_out()
    }

    fn write_out(&mut self) -> Outcome
        ensures { OnOk result (Keeps self.old self.new) }
    {
        let written = self.writer.write_all(self.bytes.as_slice());
        self.bytes.clear();
        written.map_err(|error| write_error(&error))
    }

    /// Writes what is not written yet, and gives the writer back.
    pub(crate) fn finish(self) -> Result<W, ListingError>
        ensures { IfOk result (λ writer. Keeps self (W.contents writer)) }
    {
        let RowWriter {
            bytes,
            row: _,
            mut writer,
        } = self;
        match write_whole(&mut writer, bytes.as_slice()) {
            Ok(()) => Ok(writer),
            Err(error) => Err(error),
        }
    }
}

fn write_whole<W: Write>(writer: &mut W, bytes: &[u8]) -> Outcome
    ensures { OnOk result (Appends (W.contents writer.old) (W.contents writer.new) bytes.now) }
{
    writer
        .write_all(bytes)
        .map_err(|error| write_error(&error))?;
    writer.flush().map_err(|error| write_error(&error))
}

/// Numbers of a row that are not yet among the bytes. To add each of them to a `Vec` by itself, or
/// to begin with an empty array for each row, takes longer.
type Numbers = ArrayVec<u8, 512>;

fn push_row(bytes: &mut Vec<u8>, row: &mut Numbers, mask: u64, columns: &[Column<'_>]) -> Outcome
    requires { length columns.now ≤ 63 }
    ensures { OnOk result (bytes.new.items ≡ bytes.old.items ++ masked_bytes mask columns.now) }
{
    row.clear();
    push_number(row, mask);
    for column in columns {
        push_column(bytes, row, *column)?;
    }
    bytes.extend_from_slice(row.as_slice())?;
    Ok(())
}

#[inline(always)]
fn push_column(bytes: &mut Vec<u8>, row: &mut Numbers, column: Column<'_>) -> Outcome
    requires { array_vec_len row.old + 8 ≤ 512 }
    ensures added { OnOk result (bytes.new.items ++ row.new.items
        ≡ (bytes.old.items ++ row.old.items) ++ column_bytes column.entry) }
    ensures room { array_vec_len row.new ≤ array_vec_len row.old + 8 }
{
    match column {
        Column::Null => {}
        Column::Number(number) => push_number(row, number),
        Column::Text(text) => {
            push_number(row, text.len() as u64);
            bytes.extend_from_slice(row.as_slice())?;
            row.clear();
            bytes.extend_from_slice(text)?;
        }
    }
    Ok(())
}

#[inline(always)]
fn push_number(row: &mut Numbers, number: u64)
    requires { array_vec_len row.old + 8 ≤ 512 }
    ensures added { row.new.items ≡ row.old.items ++ to_le_bytes w64 number }
    ensures room { array_vec_len row.new ≡ array_vec_len row.old + 8 }
{
    let Ok(()) = row.try_extend_from_slice(&number.to_le_bytes()) else {
        unreachable!()
    };
}

/// Which columns are not NULL.
fn mask_of(columns: &[Column<'_>]) -> u64
    requires { length columns.now ≤ 63 }
    ensures { result ≡ mask_of columns.now }
{
    let mut mask = 0;
    for number in (0..columns.len()).rev() {
        mask *= 2;
        if !matches!(columns[number], Column::Null) {
            mask += 1;
        }
    }
    mask
}

/// The mask of a row of a stream.
fn sorted_mask(sort: Sort, columns: &[Column<'_>]) -> u64
    requires { length columns.now ≤ 56 }
    ensures { result ≡ sorted_mask sort columns.now }
{
    sort.number() * SORTS + mask_of(columns)
}

/// What the number of a sort is multiplied by in a mask: the columns have the bits below.
const SORTS: u64 = 72_057_594_037_927_936;

/// What a row of a stream is about.
#[derive(Clone, Copy)]
pub(crate) enum Sort {
    Thread,
    Interface,
    Record,
    Object,
    /// A record with its bytes and those of its attachment.
    Whole,
    Service,
    /// A place at which nothing is.
    Missing,
    /// The last row.
    Ending,
}

impl Sort {
    fn number(self) -> u64
        ensures number { result ≡ sort_number self }
        ensures byte { result < 2 ^ 8 }
    {
        match self {
            Sort::Thread => 1,
            Sort::Interface => 2,
            Sort::Record => 3,
            Sort::Object => 4,
            Sort::Whole => 5,
            Sort::Service => 6,
            Sort::Missing => 7,
            Sort::Ending => 8,
        }
    }
}

/// What a row has in a column. A text is ASCII.
#[derive(Clone, Copy)]
pub(crate) enum Column<'t> {
    Null,
    Number(u64),
    Text(&'t [u8]),
}

/// The columns of a row, in order, each with its name in viewer/database/schema.sql.
macro_rules! columns {
    ($($name:ident: $value:expr),* $(,)?) => {
        [$(Column::from($value)),*]
    };
}

pub(crate) use columns;

impl From<u64> for Column<'_> {
    ghost from_gives = { λ number column. column ≡ Number number };

    fn from(number: u64) -> Self {
        Column::Number(number)
    }
}

impl From<u32> for Column<'_> {
    ghost from_gives = { λ number column. column ≡ Number number };

    fn from(number: u32) -> Self {
        Column::Number(u64::from(number))
    }
}

impl From<Option<u64>> for Column<'_> {
    ghost from_gives = { λ given column. column ≡ column_of given };

    fn from(given: Option<u64>) -> Self {
        match given {
            Some(number) => Column::Number(number),
            None => Column::Null,
        }
    }
}

impl From<Option<u32>> for Column<'_> {
    ghost from_gives = { λ given column. column ≡ column_of given };

    fn from(given: Option<u32>) -> Self {
        match given {
            Some(number) => Column::Number(u64::from(number)),
            None => Column::Null,
        }
    }
}

/// A number with a sign, in two's complement of 64 bits.
pub(crate) fn signed(number: i32) -> u64 {
    i64::from(number).cast_unsigned()
}
