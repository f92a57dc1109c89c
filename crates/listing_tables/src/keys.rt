//! Sums by which the delivery of a send is recognised.

ghost use Rattle.std.specs.Prelude.{◌≡◌, IfOk};
ghost use Rattle.listing_tables.specs.Keys.{IsKey, sum_after, sum_of_numbers};

use crate::numbered::sum;
use listing_fields::{EachObject, ListingError};
use transaction_view::{Entry, Transaction};

/// Where a sum begins: FNV-1a of 64 bits.
const BEGIN: u64 = 0xcbf2_9ce4_8422_2325;

const PRIME: u64 = 0x0000_0100_0000_01b3;

fn add_bytes(begun: u64, bytes: &[u8]) -> u64
    ensures { result ≡ sum_after begun bytes.now }
{
    let mut sum = begun;
    for byte in bytes {
        // The product is one of numbers of 64 bits.
        sum = (sum ^ u64::from(*byte)).wrapping_mul(PRIME);
    }
    sum
}

/// The sum of the bytes of a body that are in none of its good objects.
fn sum_of(entry: Entry<'_>) -> Result<u64, ListingError> {
    let mut bytes = BEGIN;
    let mut end = 0usize;
    for attached in EachObject::of(entry) {
        let Ok(object) = attached.found else {
            break;
        };
        let between = entry.body.get(end..attached.offset as usize);
        bytes = add_bytes(bytes, between.ok_or(ListingError::TooLarge)?);
        end = sum(attached.offset, object.bytes.len() as u64)? as usize;
    }
    let rest = entry.body.get(end..);
    Ok(add_bytes(bytes, rest.ok_or(ListingError::TooLarge)?))
}

/// The sum of all bytes of these numbers.
fn sum_of_numbers(numbers: &[u64]) -> u64
    ensures { result ≡ sum_of_numbers numbers.now }
{
    let mut key = BEGIN;
    for number in numbers {
        key = add_bytes(key, &number.to_le_bytes());
    }
    key
}

/// What the driver hands on unchanged of a transaction or a reply, as one number.
pub(crate) fn key_of(
    transaction: Transaction<'_>,
    entry: Option<Entry<'_>>,
    device: u32,
) -> Result<u64, ListingError>
    ensures { IfOk result (IsKey device transaction.entry.carrier.payload.now) }
{
    let is_empty = transaction.data_size() == 0 && transaction.offsets_size() == 0;
    let body = match entry {
        Some(entry) => sum_of(entry)?,
        None if is_empty => BEGIN,
        None => 0,
    };
    let numbers = [
        u64::from(device),
        u64::from(transaction.code()),
        u64::from(transaction.flags()),
        transaction.data_size(),
        transaction.offsets_size(),
        body,
    ];
    Ok(sum_of_numbers(&numbers))
}
