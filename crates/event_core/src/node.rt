//! What an event does to the references that the driver asks a process to keep to a node.

ghost use Rattle.std.specs.Prelude.{◌≡◌, ◌≤◌, length};
ghost use Rattle.event_core.specs.Nodes.{node_effect, node_item, node_key};

use crate::event::Event;
use crate::strength::Strength;
use binder_code::Kind;
use capture_frame::u64_at;

/// A node of a process, `struct binder_ptr_cookie` of `linux/android/binder.h`.
#[derive(Clone, Copy, Debug, PartialEq, Eq, PartialOrd, Ord, Hash)]
pub struct NodeKey {
    pub ptr: u64,
    pub cookie: u64,
}

impl NodeKey {
    /// The node that a payload of 16 bytes names.
    fn of(payload: &[u8]) -> NodeKey
        requires { 16 ≤ length payload.now }
        ensures { result ≡ node_key payload.now }
    {
        NodeKey {
            ptr: u64_at(payload, 0),
            cookie: u64_at(payload, 8),
        }
    }
}

/// What a record does to the references to a node. The driver asks the node's process to keep them,
/// and they are all of one strength.
#[derive(Clone, Copy)]
pub enum NodeChange {
    /// The driver asks the process to keep one: they are one more, and one more is due.
    Raise,
    /// The driver no longer needs one: they are one fewer.
    Lower,
    /// The process acknowledges one that it was asked to keep: one fewer is due.
    Done,
}

/// Which references a record of this kind changes, and how.
fn node_effect(kind: Kind) -> Option<(Strength, NodeChange)>
    ensures { result ≡ node_effect kind }
{
    match kind {
        Kind::BrAcquire => Some((Strength::Strong, NodeChange::Raise)),
        Kind::BrRelease => Some((Strength::Strong, NodeChange::Lower)),
        Kind::BcAcquireDone => Some((Strength::Strong, NodeChange::Done)),
        Kind::BrIncrefs => Some((Strength::Weak, NodeChange::Raise)),
        Kind::BrDecrefs => Some((Strength::Weak, NodeChange::Lower)),
        Kind::BcIncrefsDone => Some((Strength::Weak, NodeChange::Done)),
        _ => None,
    }
}

/// The node of a BR_ACQUIRE, BR_RELEASE, BR_INCREFS, BR_DECREFS, BC_ACQUIRE_DONE or
/// BC_INCREFS_DONE, which of its references change, and how; None for every other event.
pub fn node_step(event: Event<'_>) -> Option<(NodeKey, (Strength, NodeChange))>
    ensures { result ≡ node_item event.entry.kind event.entry.payload.now }
{
    let effect = node_effect(event.kind)?;
    Some((NodeKey::of(event.payload), effect))
}
