//! Package stanzas that are given twice.
ghost use Rattle.std.specs.Prelude.{◌≡◌, []};
ghost use Rattle.text.specs.Lists.{some};
ghost use Rattle.problem.specs.Repeats.{repeated_in};
ghost use Rattle.problem.specs.Rows.{same_stanza};

use crate::rows::PackageRow;
use text::word::bytes_of;

/// Whether a row has the name and version of one of these.
fn is_among(text: &[u8], x: &PackageRow, rows: &[PackageRow]) -> bool
    ensures { result ≡ some (λ y. same_stanza text.now y x.now) rows.now }
{
    // The number first: where versions differ no name is looked at.
    rows.iter().any(|row| row.version == x.version && row.is_named(text, bytes_of(text, x.name)))
}

/// The line of the first stanza whose name and version an earlier one has.
pub(crate) fn first_repeat(text: &[u8], rows: &[PackageRow]) -> Option<usize>
    ensures { result ≡ repeated_in text.now [] rows.now }
{
    // A loop: the closure of a chain would not know that `i` is within the rows, of which it takes those before.
    for (i, row) in rows.iter().enumerate() {
        if is_among(text, row, &rows[0..i]) {
            return Some(row.line);
        }
    }
    None
}
