//! What is found of a thread: its calls, its strays and its refused sends.

use crate::opener::Opener;

/// A oneway transaction or a reply that the thread sent and the driver answered with an error
/// reply.
#[derive(Clone, Copy)]
pub struct RefusedSend<E> {
    /// The error reply.
    pub event: E,
    /// Whether the send was a oneway transaction; otherwise it was a reply.
    pub oneway: bool,
}

/// What is found of a thread. Each list is in rising place.
#[derive(Drop)]
pub struct CallFindings<E> {
    /// The calls that the thread made or got to serve, with their verdicts. These are all calls if
    /// the form of the events keeps all (`CallRecord::keeps_all`), otherwise only those that lack
    /// their reply.
    pub openers: Vec<Opener<E>>,
    /// How many of the calls that it made are answered, kept or not.
    pub answered: u64,
    /// How many of the calls that it got to serve are replied to, kept or not.
    pub replied: u64,
    /// The replies and error replies that close no call.
    pub strays: Vec<E>,
    /// The refused sends, each with its error reply.
    pub refused: Vec<RefusedSend<E>>,
}
