//! The findings of a capture in parts, or its first fault, made by several workers.
#![tactic(auto)]

mod audits;
pub mod laws;
mod limits;
mod look_work;
mod shares;

pub use audit_findings::Findings;
pub use audit_judge::{AuditError, PartsError, Piece, Plan};
pub use audits::{audit, audit_one, audit_parts};
pub use limits::CAPTURE_LIMIT;
