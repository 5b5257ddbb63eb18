//! What problems and answers share of a stanza: its name, version and whether it is installed.
ghost use Rattle.std.specs.Prelude.{◌≡◌, length, IfOk};
ghost use Rattle.problem.specs.ConstraintLists.{once};
ghost use Rattle.problem.specs.Growth.{ok_mapped};
ghost use Rattle.problem.specs.Heads.{head_of, begun, valued, versioned, marked, HeadOk};
ghost use Rattle.problem.specs.Keys.{truth};
ghost use Rattle.problem.specs.Said.{said};
ghost use Rattle.problem.specs.Words.{version};

use crate::constraint::{is_name, read_version};
use crate::fault::ProblemFault;
use crate::keys::read_truth;
use crate::property_line::PropertyLine;
use text::word::Word;

// That the name lies in the document stands in the contracts (`HeadOk`): a head is numbers alone, as the row that it
// becomes.
/// What is known of a stanza so far.
#[derive(Clone, Copy)]
pub(crate) struct Head {
    pub line: usize,
    pub name: Word,
    pub version: Option<u32>,
    pub installed: Option<bool>,
}

/// What was read of a value on line `number`, unless its stanza has one already.
fn once<T: Copy>(number: usize, already: Option<T>, read: Option<T>) -> Result<T, ProblemFault>
    ensures { result ≡ once number already (valued number read) }
{
    match already {
        Some(_) => Err(ProblemFault::Property(number)),
        None => read.ok_or(ProblemFault::Value(number)),
    }
}

// `full` is a bool, since a bad name is refused before lack of room: a problem has no place for one more row, or an answer
// has its most stanzas.

/// Begins a stanza at its first line; `full` says that there is no place for one more.
pub(crate) fn begin(line: &PropertyLine<'_>, full: bool) -> Result<Head, ProblemFault>
    ensures head { ok_mapped (head_of line.now.text.now) result ≡ begun line.now.number full (said line.now).1 }
    ensures good { IfOk result (HeadOk (length line.now.text.now)) }
{
    if !is_name(line.value()) {
        return Err(ProblemFault::Value(line.number));
    }
    if full {
        return Err(ProblemFault::TooMany(line.number));
    }
    Ok(Head {
        line: line.number,
        name: line.property.value,
        version: None,
        installed: None,
    })
}

/// Adds the version.
pub(crate) fn add_version(line: &PropertyLine<'_>, head: Head) -> Result<Head, ProblemFault>
    requires { HeadOk (length line.now.text.now) head }
    ensures head { ok_mapped (head_of line.now.text.now) result ≡ versioned line.now.number (head_of line.now.text.now head) head.version (version (said line.now).1) }
    ensures good { IfOk result (HeadOk (length line.now.text.now)) }
{
    let version = once(line.number, head.version, read_version(line.value()))?;
    Ok(Head {
        version: Some(version),
        ..head
    })
}

/// Adds whether it is installed.
pub(crate) fn add_installed(line: &PropertyLine<'_>, head: Head) -> Result<Head, ProblemFault>
    requires { HeadOk (length line.now.text.now) head }
    ensures head { ok_mapped (head_of line.now.text.now) result ≡ marked line.now.number (head_of line.now.text.now head) head.installed (truth (said line.now).1) }
    ensures good { IfOk result (HeadOk (length line.now.text.now)) }
{
    let installed = once(line.number, head.installed, read_truth(line.value()))?;
    Ok(Head {
        installed: Some(installed),
        ..head
    })
}
