//! Rows that contracts see as a list.

ghost use Rattle.std.specs.Prelude.{◌≡◌, length};

use std::marker::Model;

/// The rows of a section, in their order.
#[derive(Drop)]
pub struct Rows<T> {
    rows: Vec<T>,
}

impl<T> Model for Rows<T> {
    ghost use Rattle.std.specs.Prelude.{List};

    ghost Value = { List T };

    ghost view = { λ r. r.rows.items };
}

impl<T> Rows<T> {
    /// The rows of a list.
    pub fn of(rows: Vec<T>) -> Self
        ensures { result ≡ rows.items }
    {
        Rows { rows }
    }

    /// How many there are.
    pub fn len(&self) -> usize
        ensures { result ≡ length self.now }
    {
        self.rows.len()
    }

    /// All of them.
    pub fn as_slice(&self) -> &[T]
        ensures { result.now ≡ self.now }
    {
        self.rows.as_slice()
    }
}
