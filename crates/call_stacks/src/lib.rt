//! The calls of a thread, matched as brackets are: which of them got a reply.
#![tactic(auto)]

mod call_record;
mod calls;
mod findings;
pub mod laws;
mod opener;
mod verdict;

pub use call_record::{CallEvent, CallRecord};
pub use calls::{Calls, ThreadCalls};
pub use findings::{CallFindings, RefusedSend};
pub use opener::Opener;
pub use verdict::Verdict;
