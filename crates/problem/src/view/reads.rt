//! The rows and the document of a problem.
ghost use Rattle.std.specs.Prelude.{◌≡◌, ◌<◌, length, slice_index_or};
ghost use Rattle.problem.specs.Meaning.{packages_in, constraints_in};
ghost use Rattle.problem.specs.Rows.{span_in, Spanned, no_package};

use super::Problem;
use crate::rows::{ConstraintRow, PackageRow, Span};
use crate::stanzas::Stanzas;

impl<'t, 'p, 'c> Problem<'t, 'p, 'c> {
    /// The document.
    pub fn text(&self) -> &'t [u8]
        ensures { result.now ≡ self.now.text.now }
    {
        self.text
    }

    /// The package stanzas, in the order of the document.
    pub fn packages(&self) -> &'p [PackageRow]
        ensures value { result.now ≡ packages_in self.now }
        ensures len { length result.now ≡ self.now.count }
    {
        &self.packages[0..self.count]
    }

    /// The package stanzas, beside the document.
    pub fn stanzas(&self) -> Stanzas<'_>
        ensures text { result.text.now ≡ self.now.text.now }
        ensures rows { result.rows.now ≡ packages_in self.now }
    {
        Stanzas {
            text: self.text,
            rows: self.packages(),
        }
    }

    /// The constraints of all lists.
    pub(crate) fn constraints(&self) -> &'c [ConstraintRow]
        ensures value { result.now ≡ constraints_in self.now }
        ensures len { length result.now ≡ self.now.asked }
    {
        &self.constraints[0..self.asked]
    }

    /// The constraints that a package depends on, by its place.
    pub(crate) fn depends(&self, place: usize) -> &'c [ConstraintRow]
        requires { place < self.now.count }
        ensures { result.now ≡ span_in (constraints_in self.now) (slice_index_or (packages_in self.now) place no_package).depends }
    {
        let packages = self.packages();
        rows_of(self.constraints(), packages[place].depends)
    }

    /// The constraints that a package has as conflicts, by its place.
    pub(crate) fn conflicts(&self, place: usize) -> &'c [ConstraintRow]
        requires { place < self.now.count }
        ensures { result.now ≡ span_in (constraints_in self.now) (slice_index_or (packages_in self.now) place no_package).conflicts }
    {
        let packages = self.packages();
        rows_of(self.constraints(), packages[place].conflicts)
    }

    /// The constraints of which each asks for a package that satisfies it.
    pub(crate) fn install(&self) -> &'c [ConstraintRow]
        ensures { result.now ≡ span_in (constraints_in self.now) self.now.install }
    {
        rows_of(self.constraints(), self.install)
    }

    /// The constraints that no package may satisfy.
    pub(crate) fn remove(&self) -> &'c [ConstraintRow]
        ensures { result.now ≡ span_in (constraints_in self.now) self.now.remove }
    {
        rows_of(self.constraints(), self.remove)
    }
}

/// The rows of a run.
fn rows_of(rows: &[ConstraintRow], span: Span) -> &[ConstraintRow]
    requires { Spanned (length rows.now) span }
    ensures { result.now ≡ span_in rows.now span }
{
    let first = span.first;
    let end = first + span.len;
    &rows[first..end]
}
