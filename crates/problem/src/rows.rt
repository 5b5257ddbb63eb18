//! The rows that a problem is read into: numbers alone, so that they can lie in lent memory.
ghost use Rattle.std.specs.Prelude.{◌≡◌, ◌&&◌, ◌==◌};
ghost use Rattle.std.specs.Str.{bytes_eq};
ghost use Rattle.text.specs.Word.{word_in};

use text::same::same_bytes;
use text::word::{Word, bytes_of};

/// How a version stands to the version of a constraint.
#[derive(Clone, Copy)]
pub enum Relation {
    Any,
    Equal,
    Differs,
    Greater,
    AtLeast,
    Less,
    AtMost,
}

// A name and a run are a start and a length, and no slices: rows lie in lent memory of plain numbers, and that every name
// lies in its document is a promise to callers, which a slice could not state.

/// A run of constraint rows.
#[derive(Clone, Copy)]
pub struct Span {
    pub first: usize,
    pub len: usize,
}

/// A package stanza. The rows of `depends` are parted into conjuncts by `ConstraintRow::last`.
#[derive(Clone, Copy)]
pub struct PackageRow {
    pub line: usize,
    pub name: Word,
    pub version: u32,
    pub installed: bool,
    pub depends: Span,
    pub conflicts: Span,
}

/// A constraint, and whether it is the last of its conjunct.
// Lent rows are zero where none is used, so a constraint without a bound is `Any` beside version 0; the conjuncts of a package
// are one run of rows, each ended by `last`.
#[derive(Clone, Copy)]
pub struct ConstraintRow {
    pub name: Word,
    pub relation: Relation,
    pub version: u32,
    pub last: bool,
}

impl PackageRow {
    /// Whether the row has this name, in the document.
    pub fn is_named(&self, text: &[u8], name: &[u8]) -> bool
        ensures { result ≡ bytes_eq name.now (word_in text.now self.now.name) }
    {
        same_bytes(name, bytes_of(text, self.name))
    }

    /// Whether the row has this name, in the document, and this version.
    pub(crate) fn is_stanza(&self, text: &[u8], name: &[u8], version: u32) -> bool
        ensures { result ≡ (bytes_eq name.now (word_in text.now self.now.name) && version == self.now.version) }
    {
        // The number first: where versions differ no name is looked at.
        version == self.version && self.is_named(text, name)
    }
}

/// The run of a list that was not given.
pub const NO_SPAN: Span = Span { first: 0, len: 0 };

/// What stands in a place without a package.
pub const NO_PACKAGE: PackageRow = PackageRow {
    line: 0,
    name: Word { start: 0, len: 0 },
    version: 0,
    installed: false,
    depends: NO_SPAN,
    conflicts: NO_SPAN,
};

/// What stands in a place without a constraint.
pub const NO_CONSTRAINT: ConstraintRow = ConstraintRow {
    name: Word { start: 0, len: 0 },
    relation: Relation::Any,
    version: 0,
    last: false,
};
