//! Whether packages satisfy constraints.
ghost use Rattle.std.specs.Prelude.{◌≡◌};
ghost use Rattle.problem.specs.Cudf.{holds};
ghost use Rattle.problem.specs.Stanzas.{row_satisfies, row_satisfies_one};

use crate::rows::{ConstraintRow, PackageRow, Relation};
use crate::stanzas::Stanzas;
use text::word::bytes_of;

/// Whether a version stands in a relation to a bound.
fn stands(relation: Relation, version: u32, bound: u32) -> bool
    ensures { result ≡ holds relation version bound }
{
    match relation {
        Relation::Any => true,
        Relation::Equal => version == bound,
        Relation::Differs => version != bound,
        Relation::Greater => version > bound,
        Relation::AtLeast => version >= bound,
        Relation::Less => version < bound,
        Relation::AtMost => version <= bound,
    }
}

impl Stanzas<'_> {
    /// Whether a package satisfies a constraint.
    pub(crate) fn satisfies(&self, constraint: &ConstraintRow, row: &PackageRow) -> bool
        ensures { result ≡ row_satisfies self.now.text.now constraint.now row.now }
    {
        let asked = bytes_of(self.text, constraint.name);
        row.is_named(self.text, asked)
            && stands(constraint.relation, row.version, constraint.version)
    }

    /// Whether a package satisfies one of some constraints.
    pub(crate) fn satisfies_one(&self, group: &[ConstraintRow], row: &PackageRow) -> bool
        ensures { result ≡ row_satisfies_one self.now.text.now group.now row.now }
    {
        group
            .iter()
            .any(|constraint| self.satisfies(constraint, row))
    }
}
