//! What the sections `deaths` and `clears` list: unclosed opens and stray closes.

use crate::rows::Rows;

/// Unclosed opens and stray closes. An open is unclosed if no later close of its process has its
/// key. A close is stray if no earlier item of its process has its key, or if the latest one is a
/// close.
#[derive(Drop)]
pub struct OpenAndStray<E> {
    /// How many unclosed opens there are.
    pub unclosed: u64,
    /// How many stray closes there are.
    pub strays: u64,
    /// What is kept of each of them, in rising place.
    pub rows: Rows<E>,
}
