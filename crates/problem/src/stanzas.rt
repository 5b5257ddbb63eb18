//! The package stanzas of a problem, beside the document that their names lie in.
ghost use Rattle.std.specs.Prelude.{◌≡◌, ◌+◌, ◌<◌, ◌≤◌, not, length, take, drop};
ghost use Rattle.problem.specs.Naming.{named};

use crate::rows::PackageRow;

/// Package rows and their document.
#[derive(Clone, Copy)]
pub struct Stanzas<'a> {
    pub text: &'a [u8],
    pub rows: &'a [PackageRow],
    ghost few: { length rows.now ≤ 256 },
}

impl<'a> Stanzas<'a> {
    /// Whether none before a place has this name.
    pub fn is_new(&self, place: usize, name: &[u8]) -> bool
        ensures { result ≡ not (named self.now.text.now name.now (take place self.now.rows.now)) }
    {
        let mut rows = self.rows.iter().take(place);
        !rows.any(|row| row.is_named(self.text, name))
    }

    /// Those before a place, and those after it.
    pub(crate) fn around(&self, place: usize) -> (Stanzas<'a>, Stanzas<'a>)
        requires { place < length self.now.rows.now }
        ensures before { result.0.rows.now ≡ take place self.now.rows.now }
        ensures before_text { result.0.text.now ≡ self.now.text.now }
        ensures after { result.1.rows.now ≡ drop (place + 1) self.now.rows.now }
        ensures after_text { result.1.text.now ≡ self.now.text.now }
    {
        let before = Stanzas {
            text: self.text,
            rows: &self.rows[..place],
        };
        let after = Stanzas {
            text: self.text,
            rows: &self.rows[place + 1..],
        };
        (before, after)
    }
}
