/// Which of the two counts of a handle, or of a node, a record changes.
#[derive(Clone, Copy)]
pub enum Strength {
    /// The references that keep what they refer to alive.
    Strong,
    /// The references that do not.
    Weak,
}
