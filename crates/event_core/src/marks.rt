//! What an event is to its thread: the mark that it leaves, by which a later error reply is
//! understood, and whether it opens or closes a call.

/// What the next error reply of the thread would answer.
#[derive(Clone, Copy)]
pub enum Mark {
    /// A oneway transaction that the thread has sent.
    Oneway,
    /// A reply that the thread has sent.
    SentReply,
    /// Something else: an error reply after it is a closer.
    Other,
}

/// What an event is among the calls of its thread.
#[derive(Clone, Copy, PartialEq, Eq)]
pub enum Bracket {
    /// The thread makes a call: an opener.
    Call,
    /// The thread gets a call to serve: an opener.
    Served,
    /// The thread gets a reply: a closer.
    Reply,
    /// The thread sends a reply: a closer.
    Sent,
    /// The thread gets an error in place of a reply: a closer.
    Error,
    /// The driver has refused a oneway transaction or a reply that the thread sent: neither an
    /// opener nor a closer.
    Refused,
    /// Not a record of a call.
    Neither,
}
