//! The raw tables of a capture, by name.

/// A raw table of a capture, as docs/DATABASE.md has it.
#[derive(Clone, Copy)]
pub enum Table {
    Capture,
    Process,
    Thread,
    Frame,
    Record,
    Interface,
    Service,
    Object,
    Call,
    Generation,
    Send,
    Delivery,
    Slice,
    Level,
}

/// The tables by name.
pub const TABLES: [(&str, Table); 14] = [
    ("capture", Table::Capture),
    ("process", Table::Process),
    ("thread", Table::Thread),
    ("frame", Table::Frame),
    ("record", Table::Record),
    ("interface", Table::Interface),
    ("service", Table::Service),
    ("object", Table::Object),
    ("call", Table::Call),
    ("generation", Table::Generation),
    ("send", Table::Send),
    ("delivery", Table::Delivery),
    ("slice", Table::Slice),
    ("level", Table::Level),
];

/// The table of this name.
pub fn table_of(word: &str) -> Option<Table> {
    for (name, table) in &TABLES {
        if *name == word {
            return Some(*table);
        }
    }
    None
}

impl Table {
    /// Whether the table is written while the walk goes on.
    pub fn is_streamed(self) -> bool {
        matches!(
            self,
            Table::Frame | Table::Record | Table::Object | Table::Call
        )
    }
}
