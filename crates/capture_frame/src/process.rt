//! Which process, and which thread of it.

/// A process of a capture: the Binder device that it talks to, and its number. A process that talks
/// to several devices counts once for each, since handles and addresses mean something else on
/// each.
#[derive(Clone, Copy, Debug, PartialEq, Eq, Hash)]
pub struct Process {
    pub device: u32,
    pub number: u32,
}

/// A thread of a process. Threads of two processes can have the same number.
#[derive(Clone, Copy, Debug, PartialEq, Eq, Hash)]
pub struct Thread {
    pub process: Process,
    pub number: u32,
}
