/// What a record does to a key in a list of opens and closes.
#[derive(Clone, Copy)]
pub enum PendingChange {
    /// It begins what a later close of the key ends.
    Open,
    /// It ends what an earlier open of the key began.
    Close,
}

/// An open or a close of a key, which is beside it.
#[derive(Clone, Copy)]
pub struct KeyEvent {
    /// Where the record begins in the capture, in bytes.
    pub place: u64,
    pub change: PendingChange,
}
