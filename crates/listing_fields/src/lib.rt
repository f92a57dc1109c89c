//! What the raw tables of a capture stand on: the records of a frame with their attachments, the
//! objects of an attachment, and what records name.
#![tactic(auto)]

mod attached;
mod content;
mod error;
mod frames;
mod interface;
mod limit;
mod malformed;
mod named;
mod newer;
mod service;
mod table;
mod text;

pub use attached::{Attached, EachObject, offset_of};
pub use content::{Content, Item};
pub use error::{ListingError, Outcome, write_error};
pub use frames::{direction_number, is_reply, thread_of};
pub use interface::{InterfaceName, interface_of, reply_name};
pub use limit::FILE_LIMIT;
pub use malformed::push_fault;
pub use named::{Named, named_of, number_of};
pub use newer::is_unnamed;
pub use service::{ServiceName, service_of};
pub use table::{TABLES, Table, table_of};
