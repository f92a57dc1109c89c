//! The names of interfaces, which libbinder and libgbinder write into the data of transactions and
//! of replies.
//!
//! The data of a transaction to a method begin with the interface that the method is of. Its form
//! tells the release, and numbers have the lowest byte first:
//!
//! - Android 9 and before: the strict mode, a `String16`;
//! - Android 10: the strict mode, the work source, a `String16`;
//! - since Android 11: the strict mode, the work source, a mark of the partition, a `String16`;
//! - HIDL: the name in ASCII, a NUL.
//!
//! Strict mode, work source and mark are numbers of four bytes. A `String16` is the count of its
//! units in four bytes, the units in UTF-16, and a NUL unit. All ends at a multiple of four bytes.

ghost use Rattle.std.specs.Prelude.{◌≡◌, IsTrue, IfSome, All, take, length};
ghost use Rattle.listing_fields.specs.Interface.{may_spell, string_of, IsToken};

use crate::content::Item;
use crate::frames::is_reply;
use capture_frame::u32_at;
use transaction_view::Transaction;

/// The most characters of a name.
const LONGEST: usize = 256;

/// The highest code of a method; the lowest one is 1.
const LAST_METHOD: u32 = 0x00ff_ffff;

// The codes of the methods that each interface of HIDL has, those of `IBase`.
const FIRST_OF_BASE: u32 = 0x0f00_0000;

const LAST_OF_BASE: u32 = 0x0fff_ffff;

// The marks of a partition: of the system, of a vendor, of recovery, and of none that is known.
const SYST: u32 = 0x5359_5354;

const VNDR: u32 = 0x564e_4452;

const RECO: u32 = 0x5245_434f;

const UNKN: u32 = 0x554e_4b4e;

/// The name of an interface, as it lies in the data: a byte for each character in ASCII, and two in
/// UTF-16, of which the second is 0. It has no other bytes than these, letters, digits, `_`, `$`,
/// dots, and in HIDL `@` and colons (`spelled`).
#[derive(Clone, Copy)]
pub struct InterfaceName<'c> {
    pub bytes: &'c [u8],
    /// What follows it in the data; nothing after a name of HIDL.
    pub(crate) rest: &'c [u8],
    ghost spelled: { All (λ byte. IsTrue (may_spell byte)) bytes.now },
}

impl InterfaceName<'_> {
    /// Whether it is this name.
    pub fn is(self, name: &str) -> bool {
        let mut rest = name.as_bytes();
        for byte in self.bytes {
            if *byte != 0 {
                let Some((first, others)) = rest.split_first() else {
                    return false;
                };
                if first != byte {
                    return false;
                }
                rest = others;
            }
        }
        rest.is_empty()
    }
}

/// The interface that a transaction names: that of the method that it calls.
pub fn interface_of(item: Item<'_>) -> Option<InterfaceName<'_>>
    ensures { IfSome item.entry.entry (λ entry. IfSome result (λ name. IsToken entry.body.now name.bytes.now)) }
{
    let entry = item.entry?;
    let transaction = Transaction::of(item.record)?;
    if is_reply(item.record.kind) {
        return None;
    }
    match transaction.code() {
        1..=LAST_METHOD => token_in(entry.body),
        FIRST_OF_BASE..=LAST_OF_BASE => versioned_in(entry.body),
        _ => None,
    }
}

/// The name that is all of a reply's data. The reply to the code `_NTF`, 0x5f4e5446, is the interface
/// of the node that is asked.
pub fn reply_name(item: Item<'_>) -> Option<InterfaceName<'_>>
    ensures { IfSome item.entry.entry (λ entry. IfSome result (λ name. name.bytes.now ≡ string_of entry.body.now)) }
{
    let entry = item.entry?;
    if !is_reply(item.record.kind) {
        return None;
    }
    let (text, rest) = string_in(entry.body)?;
    if !rest.is_empty() || read_units(text) != Reading::Interface {
        return None;
    }
    spelled(text, rest)
}

/// The name that the data of a transaction begin with.
fn token_in(bytes: &[u8]) -> Option<InterfaceName<'_>>
    ensures { IfSome result (λ name. IsToken bytes.now name.bytes.now) }
{
    if bytes.len() < 12 {
        return None;
    }
    if matches!(u32_at(bytes, 8), SYST | VNDR | RECO | UNKN) {
        return marked_in(&bytes[12..]);
    }
    match unmarked_in(&bytes[8..]).or(unmarked_in(&bytes[4..])) {
        Some(name) => Some(name),
        None => versioned_in(bytes),
    }
}

/// The name that comes after the mark of a partition.
fn marked_in(bytes: &[u8]) -> Option<InterfaceName<'_>>
    ensures { IfSome result (λ name. name.bytes.now ≡ string_of bytes.now) }
{
    let (text, rest) = string_in(bytes)?;
    match read_units(text) {
        Reading::Plain | Reading::Dotted | Reading::Interface => spelled(text, rest),
        _ => None,
    }
}

/// The name that comes after no mark. Other data may begin with a number and a text, so it has to
/// look like the name of an interface.
fn unmarked_in(bytes: &[u8]) -> Option<InterfaceName<'_>>
    ensures { IfSome result (λ name. name.bytes.now ≡ string_of bytes.now) }
{
    let (text, rest) = string_in(bytes)?;
    match read_units(text) {
        Reading::Interface => spelled(text, rest),
        _ => None,
    }
}

/// The name in ASCII, with a NUL after it.
fn versioned_in(bytes: &[u8]) -> Option<InterfaceName<'_>>
    ensures { IfSome result (λ name. name.bytes.now ≡ take (length name.bytes.now) bytes.now) }
{
    let length = bytes.iter().take(LONGEST + 1).position(|byte| *byte == 0)?;
    let text = bytes.get(..length)?;
    match read_bytes(text) {
        Reading::Versioned => spelled(text, &[]),
        _ => None,
    }
}

/// The units of the `String16` at the begin of the data, and what follows it. A longer one than a
/// name can be is none.
pub(crate) fn string_in(bytes: &[u8]) -> Option<(&[u8], &[u8])>
    ensures { IfSome result (λ found. found.0.now ≡ string_of bytes.now) }
{
    if bytes.len() < 4 {
        return None;
    }
    let units = u32_at(bytes, 0) as usize;
    if units > LONGEST {
        return None;
    }
    let length = 2 * units;
    let rest = &bytes[4..];
    let text = rest.get(..length)?;
    match rest.get(length..)? {
        // Both the units and all of it end at a multiple of four.
        [0, 0, 0, 0, after @ ..] if length % 4 == 0 => Some((text, after)),
        [0, 0, after @ ..] if length % 4 != 0 => Some((text, after)),
        _ => None,
    }
}

/// The name of these bytes, if none of them is foreign to names.
fn spelled<'c>(bytes: &'c [u8], rest: &'c [u8]) -> Option<InterfaceName<'c>>
    ensures { IfSome result (λ name. name.bytes.now ≡ bytes.now) }
{
    if !bytes.iter().all(|byte| may_spell(*byte)) {
        return None;
    }
    Some(InterfaceName { bytes, rest })
}

/// Whether a name may have this byte.
pub(crate) fn may_spell(byte: u8) -> bool
    ensures { result ≡ may_spell byte }
{
    byte.is_ascii_alphanumeric()
        || byte == 0
        || byte == b'$'
        || byte == b'.'
        || byte == b':'
        || byte == b'@'
        || byte == b'_'
}

/// Reads units of UTF-16.
fn read_units(units: &[u8]) -> Reading {
    let mut reading = Reading::Begin;
    for unit in units.chunks(2) {
        reading = match unit {
            [byte, 0] => reading.after(*byte),
            _ => Reading::Wrong,
        };
        if reading == Reading::Wrong {
            break;
        }
    }
    reading
}

/// Reads characters of ASCII.
fn read_bytes(bytes: &[u8]) -> Reading {
    let mut reading = Reading::Begin;
    for byte in bytes {
        reading = reading.after(*byte);
        if reading == Reading::Wrong {
            break;
        }
    }
    reading
}

/// What is read of a name so far. In AIDL a name is identifiers with dots between them. In HIDL, after
/// two or more such identifiers come `@`, two numbers with a dot between them, two colons, and an
/// identifier with a first `I`.
#[derive(Clone, Copy, PartialEq, Eq)]
enum Reading {
    Begin,
    /// One identifier.
    Plain,
    /// Identifiers, and a dot.
    Dot,
    /// Two or more identifiers, the last without a first `I`.
    Dotted,
    /// Two or more identifiers, the last with a first `I`.
    Interface,
    At,
    Major,
    Point,
    Minor,
    Colon,
    Colons,
    /// A whole name of HIDL.
    Versioned,
    /// No name begins so.
    Wrong,
}

impl Reading {
    /// What is read with one more character.
    fn after(self, byte: u8) -> Reading {
        match byte {
            b'I' if matches!(self, Reading::Dot) => Reading::Interface,
            b'I' if matches!(self, Reading::Colons) => Reading::Versioned,
            b'A'..=b'Z' | b'a'..=b'z' | b'_' => self.after_letter(),
            b'0'..=b'9' => self.after_digit(),
            b'$' | b'.' | b'@' | b':' => self.after_mark(byte),
            _ => Reading::Wrong,
        }
    }

    fn after_letter(self) -> Reading {
        match self {
            Reading::Begin => Reading::Plain,
            Reading::Dot => Reading::Dotted,
            _ => self.after_word(),
        }
    }

    fn after_digit(self) -> Reading {
        match self {
            Reading::At | Reading::Major => Reading::Major,
            Reading::Point | Reading::Minor => Reading::Minor,
            _ => self.after_word(),
        }
    }

    /// What is read with one more character of an identifier that has begun.
    fn after_word(self) -> Reading {
        match self {
            Reading::Plain | Reading::Dotted | Reading::Interface | Reading::Versioned => self,
            _ => Reading::Wrong,
        }
    }

    fn after_mark(self, byte: u8) -> Reading {
        match (self, byte) {
            (_, b'$') => self.after_word(),
            (Reading::Plain | Reading::Dotted | Reading::Interface, b'.') => Reading::Dot,
            (Reading::Dotted | Reading::Interface, b'@') => Reading::At,
            (Reading::Major, b'.') => Reading::Point,
            (Reading::Minor, b':') => Reading::Colon,
            (Reading::Colon, b':') => Reading::Colons,
            _ => Reading::Wrong,
        }
    }
}
