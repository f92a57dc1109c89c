//! The first fault of the frames of a capture's parts, found by several workers.
#![tactic(auto)]

mod audit_error;
mod judging;
mod part_places;
mod piece;
mod piece_checks;
mod piece_work;
mod plan;

pub use audit_error::{AuditError, PartsError};
pub use judging::judge_parts;
pub use piece::Piece;
pub use plan::Plan;
