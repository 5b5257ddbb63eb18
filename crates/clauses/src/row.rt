//! Where a clause lies in memory.

/// A clause's number, and its stretch of a store's literals. A row that is not live holds its place only.
#[derive(Clone, Copy)]
pub struct Row {
    pub(crate) number: u32,
    pub(crate) start: u32,
    pub(crate) len: u32,
    pub(crate) live: bool,
}

impl Row {
    /// A row to fill memory with.
    pub const NONE: Row = Row {
        number: 0,
        start: 0,
        len: 0,
        live: false,
    };
}
