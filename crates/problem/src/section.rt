//! Where in a problem document a line stands.
ghost use Rattle.std.specs.Prelude.{◌≡◌, ℕ, List, length, IfOk};
ghost use Rattle.std.specs.Option.{option_map};
ghost use Rattle.text.specs.Rows.{items, Same};
ghost use Rattle.problem.specs.Drafts.{sought_of};
ghost use Rattle.problem.specs.Growth.{ok_mapped};
ghost use Rattle.problem.specs.Reading.{opened, closed};
ghost use Rattle.problem.specs.Said.{said};
ghost use Rattle.problem.specs.Sections.{place_of, state_of, row_of, package_limit, Files, SectionOk, Sound};
ghost use Rattle.problem.specs.declared.rows.ConstraintRow.{ConstraintRow as Asked};

use crate::draft::Draft;
use crate::fault::ProblemFault;
use crate::head::begin;
use crate::keys::{FirstKey, read_first_key};
use crate::property_line::PropertyLine;
use crate::rows::{NO_SPAN, PackageRow};
use crate::view::PACKAGES_MOST;
use crate::wanted::{NOTHING_WANTED, Wanted};
use text::rows::Rows;

/// Between stanzas, or in one.
#[derive(Clone, Copy)]
pub(crate) enum Section {
    Between,
    Package(Draft),
    Request(Wanted),
}

/// Where the reading stands, and the request stanza if it was read to its end.
#[derive(Clone, Copy)]
pub(crate) struct Progress {
    pub section: Section,
    pub request: Option<Wanted>,
}

/// Begins a stanza at its first line; `full` says that there is no place for one more package.
pub(crate) fn open(
    line: &PropertyLine<'_>,
    request: Option<Wanted>,
    full: bool,
) -> Result<Section, ProblemFault>
    ensures place { (cs : List Asked) → ok_mapped (place_of line.now.text.now cs) result ≡ opened line.now.number full (option_map (sought_of line.now.text.now cs) request) (said line.now) }
    ensures good { (n : ℕ) → IfOk result (SectionOk (length line.now.text.now) n) }
{
    if request.is_some() {
        return Err(ProblemFault::Property(line.number));
    }
    match read_first_key(line.name()) {
        Some(FirstKey::Package) => {
            let head = begin(line, full)?;
            Ok(Section::Package(Draft {
                head,
                depends: None,
                conflicts: None,
            }))
        }
        Some(FirstKey::Request) => Ok(Section::Request(NOTHING_WANTED)),
        None => Err(ProblemFault::Property(line.number)),
    }
}

/// The row of a package stanza that was read to its end.
fn finish(draft: Draft) -> Result<PackageRow, ProblemFault>
    ensures { result ≡ row_of draft draft.head.version }
{
    let head = draft.head;
    let version = head.version.ok_or(ProblemFault::Property(head.line))?;
    Ok(PackageRow {
        line: head.line,
        name: head.name,
        version,
        installed: head.installed.unwrap_or(false),
        depends: draft.depends.unwrap_or(NO_SPAN),
        conflicts: draft.conflicts.unwrap_or(NO_SPAN),
    })
}

/// Puts a package stanza that was read to its end after the others.
fn file(draft: Draft, packages: &mut Rows<'_, PackageRow>) -> Result<(), ProblemFault>
    ensures files { Files (package_limit packages.old) (items packages.old) draft (items packages.new) result }
    ensures same { Same packages.old packages.new }
{
    let row = finish(draft)?;
    packages
        .push_within(row, PACKAGES_MOST)
        .map_err(|_| ProblemFault::TooMany(row.line))
}

/// Ends the stanza that is open, if one is.
pub(crate) fn close(
    last: Progress,
    packages: &mut Rows<'_, PackageRow>,
) -> Result<Progress, ProblemFault>
    ensures state { (text : List ℕ) (cs : List Asked) → ok_mapped (state_of text (items packages.new) cs) result ≡ closed (package_limit packages.old) (state_of text (items packages.old) cs last) }
    ensures good { (bytes n : ℕ) → Sound bytes n (items packages.old) last → IfOk result (Sound bytes n (items packages.new)) }
    ensures same { Same packages.old packages.new }
{
    match last.section {
        Section::Between => Ok(last),
        Section::Request(wanted) => Ok(Progress {
            section: Section::Between,
            request: Some(wanted),
        }),
        Section::Package(draft) => file(draft, packages).map(|_| Progress {
            section: Section::Between,
            request: last.request,
        }),
    }
}
