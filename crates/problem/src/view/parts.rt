//! What a problem consists of.
ghost use Rattle.std.specs.Prelude.{◌≡◌, length, take};
ghost use Rattle.problem.specs.Cudf.{no_problem};
ghost use Rattle.problem.specs.Meaning.{problem_of};
ghost use Rattle.problem.specs.Reads.{Held, RowsOk, Made};
ghost use Rattle.problem.specs.Rows.{no_package, no_constraint};

use super::Problem;
use crate::rows::{ConstraintRow, NO_SPAN, PackageRow};
use crate::wanted::Wanted;

impl<'t, 'p, 'c> Problem<'t, 'p, 'c> {
    /// The problem of an empty document: no packages, and nothing asked for.
    pub fn none() -> Problem<'t, 'p, 'c>
        ensures { problem_of result ≡ no_problem }
    {
        Problem {
            text: b"",
            packages: &[],
            count: 0,
            constraints: &[],
            asked: 0,
            install: NO_SPAN,
            remove: NO_SPAN,
        }
    }

    /// The view of rows that were read.
    pub(crate) fn make(
        text: &'t [u8],
        packages: &'p [PackageRow],
        count: usize,
        constraints: &'c [ConstraintRow],
        asked: usize,
        wanted: Wanted,
    ) -> Problem<'t, 'p, 'c>
        requires packages { Held no_package packages.now count }
        requires constraints { Held no_constraint constraints.now asked }
        requires good { RowsOk text.now (take count packages.now) (take asked constraints.now) wanted }
        ensures { Made text.now packages.now count constraints.now asked wanted result }
    {
        Problem {
            text,
            packages,
            count,
            constraints,
            asked,
            install: wanted.install.unwrap_or(NO_SPAN),
            remove: wanted.remove.unwrap_or(NO_SPAN),
        }
    }

    /// How many package stanzas there are.
    pub(crate) fn len(&self) -> usize
        ensures { result ≡ length (problem_of self.now).packages }
    {
        self.count
    }
}
