//! The codes of the Binder driver's command streams: the header `linux/android/binder.h`
//! (protocol 8) in the code layout of `asm-generic/ioctl.h`.
#![tactic(auto)]

mod code;
mod flags;
mod judge;
pub mod laws;
mod protocol;
mod record_kind;

pub use code::{Code, CodeFault};
pub use flags::{TransactionFlags, unknown_bits};
pub use judge::kind;
pub use protocol::Protocol;
pub use record_kind::{Kind, Line};
