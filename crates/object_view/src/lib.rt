//! The objects of an attachment: binders, handles, file descriptors and buffers.
#![tactic(auto)]

mod bad_object;
mod held;
pub mod laws;
mod object;
mod objects;
mod sort;

pub use bad_object::{BadObject, Cause};
pub use held::held_step;
pub use object::Object;
pub use objects::Objects;
pub use sort::Sort;
