//! The names that records have, of interfaces and of services, and their tables.

use crate::rows::{Column, RowWriter, columns};
use crate::spans::number_at;
use indexmap::IndexSet;
use listing_fields::{Item, ListingError, Outcome, interface_of, reply_name, service_of};
use std::alloc::Global;
use std::io::Write;

/// The interfaces and the services that records name, as they lie in the data, in the order of the
/// first records that name them. The first one of each has the number 1.
#[derive(Drop)]
pub(crate) struct Names {
    interfaces: IndexSet<Vec<u8>>,
    services: IndexSet<Vec<u8>>,
    alloc: Global,
}

impl Names {
    pub(crate) fn new(alloc: Global) -> Names {
        Names {
            interfaces: IndexSet::new(alloc),
            services: IndexSet::new(alloc),
            alloc,
        }
    }

    /// The number of the interface that a transaction names, or of the name that a reply is.
    pub(crate) fn interface(&mut self, item: Item<'_>) -> Result<Option<u64>, ListingError> {
        match interface_of(item).or(reply_name(item)) {
            Some(name) => number_in(self.alloc, &mut self.interfaces, name.bytes),
            None => Ok(None),
        }
    }

    /// The number of the service that a transaction to the manager of names is about.
    pub(crate) fn service(&mut self, item: Item<'_>) -> Result<Option<u64>, ListingError> {
        match service_of(item) {
            Some(name) => number_in(self.alloc, &mut self.services, name.bytes),
            None => Ok(None),
        }
    }

    /// Puts the letters of the interface of this number in the place of those that are there.
    pub(crate) fn set_interface(&self, number: u64, letters: &mut Vec<u8>) -> Outcome {
        set_name(&self.interfaces, number, letters)
    }

    /// Puts the letters of the service of this number in the place of those that are there.
    pub(crate) fn set_service(&self, number: u64, letters: &mut Vec<u8>) -> Outcome {
        set_name(&self.services, number, letters)
    }

    /// Writes the rows of the table interface.
    pub(crate) fn write_interfaces<W: Write + Drop>(&self, rows: &mut RowWriter<W>) -> Outcome {
        write_names(self.alloc, &self.interfaces, rows)
    }

    /// Writes the rows of the table service.
    pub(crate) fn write_services<W: Write + Drop>(&self, rows: &mut RowWriter<W>) -> Outcome {
        write_names(self.alloc, &self.services, rows)
    }
}

/// The number of a name, which is taken in if it is new.
fn number_in(
    alloc: Global,
    names: &mut IndexSet<Vec<u8>>,
    name: &[u8],
) -> Result<Option<u64>, ListingError> {
    if let Some(index) = names.get_index_of(name) {
        return Ok(Some(number_at(index)));
    }
    let number = number_at(names.len());
    let mut bytes = Vec::new(alloc);
    bytes.extend_from_slice(name)?;
    names.insert(bytes)?;
    Ok(Some(number))
}

fn write_names<W: Write + Drop>(
    alloc: Global,
    names: &IndexSet<Vec<u8>>,
    rows: &mut RowWriter<W>,
) -> Outcome {
    let mut number = 0u64;
    let mut letters = Vec::new(alloc);
    for bytes in names {
        number = number.saturating_add(1);
        set_letters(&mut letters, bytes.as_slice())?;
        rows.push(&columns! { id: number, name: Column::Text(letters.as_slice()) })?;
    }
    Ok(())
}

/// Puts the letters of the name of this number in the place of those that are there.
fn set_name(names: &IndexSet<Vec<u8>>, number: u64, letters: &mut Vec<u8>) -> Outcome {
    match names.get_index(number.saturating_sub(1) as usize) {
        Some(name) => set_letters(letters, name.as_slice()),
        None => Err(ListingError::TooLarge),
    }
}

/// Puts the letters of a name in the place of those that are there.
fn set_letters(letters: &mut Vec<u8>, name: &[u8]) -> Outcome {
    letters.clear();
    for byte in name {
        // The bytes that are 0 are halves of units of UTF-16.
        if *byte != 0 {
            letters.push(*byte)?;
        }
    }
    Ok(())
}
