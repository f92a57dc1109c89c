//! The names of services, which clients of the manager of names write into the data of transactions.
//!
//! Who registers a service, or asks for one, writes its name as a `String16` right after the interface
//! of the manager. In HIDL a name is where an object points, and so in no capture.

ghost use Rattle.std.specs.Prelude.{◌≡◌, IsTrue, IfSome, All};
ghost use Rattle.listing_fields.specs.Service.{may_name};

use crate::content::Item;
use crate::interface::{interface_of, may_spell, string_in};

/// The interface of the manager of names.
const MANAGER: &str = "android.os.IServiceManager";

/// The name of a service, as it lies in the data: two bytes for each character, of which the second
/// is 0. It has no other bytes than these, letters, digits, and `_`, `-`, `.`, `/`, `:`, `@` and `$`
/// (`spelled`).
#[derive(Clone, Copy)]
pub struct ServiceName<'c> {
    pub bytes: &'c [u8],
    ghost spelled: { All (λ byte. IsTrue (may_name byte)) bytes.now },
}

/// The service that a transaction to the manager of names is about.
pub fn service_of(item: Item<'_>) -> Option<ServiceName<'_>> {
    let interface = interface_of(item)?;
    if !interface.is(MANAGER) {
        return None;
    }
    let (text, _) = string_in(interface.rest)?;
    if !are_letters(text) {
        return None;
    }
    named(text)
}

/// Whether units of UTF-16 are characters of ASCII, one or more, and none of them a NUL.
fn are_letters(units: &[u8]) -> bool {
    for unit in units.chunks(2) {
        match unit {
            [0, _] => return false,
            [_, 0] => {}
            _ => return false,
        }
    }
    !units.is_empty()
}

/// The name of these bytes, if none of them is foreign to names.
fn named(bytes: &[u8]) -> Option<ServiceName<'_>>
    ensures { IfSome result (λ name. name.bytes.now ≡ bytes.now) }
{
    if !bytes.iter().all(|byte| may_name(*byte)) {
        return None;
    }
    Some(ServiceName { bytes })
}

/// Whether a name may have this byte.
fn may_name(byte: u8) -> bool
    ensures { result ≡ may_name byte }
{
    may_spell(byte) || byte == b'-' || byte == b'/'
}
