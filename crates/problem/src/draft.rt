//! A package stanza while its lines are read.
ghost use Rattle.std.specs.Prelude.{◌≡◌, ◌≤◌, length, IfOk};
ghost use Rattle.text.specs.Rows.{items};
ghost use Rattle.problem.specs.ConstraintLists.{limit_of};
ghost use Rattle.problem.specs.Drafts.{draft_at, extended, DraftOk};
ghost use Rattle.problem.specs.Growth.{Grown, ok_mapped};
ghost use Rattle.problem.specs.Said.{said};

use crate::fault::ProblemFault;
use crate::head::{Head, add_installed, add_version};
use crate::keys::{PackageKey, read_package_key};
use crate::lists::{read_depends, read_list};
use crate::property_line::PropertyLine;
use crate::rows::{ConstraintRow, Span};
use text::rows::Rows;

/// What is known of a package stanza so far.
#[derive(Clone, Copy)]
pub(crate) struct Draft {
    pub head: Head,
    pub depends: Option<Span>,
    pub conflicts: Option<Span>,
}

/// Adds a further line to a package stanza.
pub(crate) fn extend(
    line: &PropertyLine<'_>,
    draft: Draft,
    out: &mut Rows<'_, ConstraintRow>,
) -> Result<Draft, ProblemFault>
    requires few { length (items out.old) ≤ limit_of out.old }
    requires good { DraftOk (length line.now.text.now) (length (items out.old)) draft }
    ensures draft { ok_mapped (draft_at line.now.text.now (items out.new)) result ≡ extended (limit_of out.old) line.now.number (draft_at line.now.text.now (items out.old) draft) (said line.now) }
    ensures good { IfOk result (DraftOk (length line.now.text.now) (length (items out.new))) }
    ensures grown { Grown line.now.text.now out.old out.new }
{
    match read_package_key(line.name()) {
        Some(PackageKey::Version) => {
            add_version(line, draft.head).map(|head| Draft { head, ..draft })
        }
        Some(PackageKey::Installed) => {
            add_installed(line, draft.head).map(|head| Draft { head, ..draft })
        }
        Some(PackageKey::Depends) => read_depends(line, draft.depends, out).map(|span| Draft {
            depends: Some(span),
            ..draft
        }),
        Some(PackageKey::Conflicts) => read_list(line, draft.conflicts, out).map(|span| Draft {
            conflicts: Some(span),
            ..draft
        }),
        None => Err(ProblemFault::Property(line.number)),
    }
}
