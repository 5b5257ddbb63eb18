//! The request stanza while its lines are read.
ghost use Rattle.std.specs.Prelude.{◌≡◌, ◌≤◌, length, IfOk};
ghost use Rattle.text.specs.Rows.{items};
ghost use Rattle.problem.specs.ConstraintLists.{limit_of};
ghost use Rattle.problem.specs.Drafts.{sought_at, requested, WantedOk};
ghost use Rattle.problem.specs.Growth.{Grown, ok_mapped};
ghost use Rattle.problem.specs.Said.{said};

use crate::fault::ProblemFault;
use crate::keys::{RequestKey, read_request_key};
use crate::lists::read_list;
use crate::property_line::PropertyLine;
use crate::rows::{ConstraintRow, Span};
use text::rows::Rows;

/// What is known of the request so far.
#[derive(Clone, Copy)]
pub(crate) struct Wanted {
    pub install: Option<Span>,
    pub remove: Option<Span>,
}

/// A request that names nothing.
pub(crate) const NOTHING_WANTED: Wanted = Wanted {
    install: None,
    remove: None,
};

/// Adds a further line to the request stanza.
pub(crate) fn add_request(
    line: &PropertyLine<'_>,
    wanted: Wanted,
    out: &mut Rows<'_, ConstraintRow>,
) -> Result<Wanted, ProblemFault>
    requires few { length (items out.old) ≤ limit_of out.old }
    requires good { WantedOk (length (items out.old)) wanted }
    ensures wanted { ok_mapped (sought_at line.now.text.now (items out.new)) result ≡ requested (limit_of out.old) line.now.number (sought_at line.now.text.now (items out.old) wanted) (said line.now) }
    ensures good { IfOk result (WantedOk (length (items out.new))) }
    ensures grown { Grown line.now.text.now out.old out.new }
{
    match read_request_key(line.name()) {
        Some(RequestKey::Install) => read_list(line, wanted.install, out).map(|span| Wanted {
            install: Some(span),
            ..wanted
        }),
        Some(RequestKey::Remove) => read_list(line, wanted.remove, out).map(|span| Wanted {
            remove: Some(span),
            ..wanted
        }),
        None => Err(ProblemFault::Property(line.number)),
    }
}
