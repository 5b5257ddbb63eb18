//! Reads lists of constraints into rows.
ghost use Rattle.std.specs.Prelude.{◌≡◌, ◌≤◌, false, length, is_err, IfOk};
ghost use Rattle.text.specs.Pieces.{pieces};
ghost use Rattle.text.specs.Rows.{items};
ghost use Rattle.text.specs.Word.{word_in};
ghost use Rattle.problem.specs.ConstraintLists.{kept, stored, stored_all, limit_of, Stores, once, constraint_list, conjunct_list, listed, conjoined};
ghost use Rattle.problem.specs.Growth.{Grown, list_at, conjuncts_at, ok_mapped, settled, SpanOf};
ghost use Rattle.problem.specs.Said.{said};

use crate::constraint::read_constraint;
use crate::fault::ProblemFault;
use crate::property_line::PropertyLine;
use crate::rows::{ConstraintRow, Span};
use crate::view::CONSTRAINTS_MOST;
use text::parts::Parts;
use text::rows::Rows;
use text::rows::list::Full;
use text::word::Word;

/// Puts the constraints of a part of the document, parted by `mark`, after the rows. Says whether each has a place, where
/// `before` says so of those before them, and nothing if one is bad.
fn read_constraints(
    text: &[u8],
    part: Word,
    mark: u8,
    before: Result<(), Full>,
    out: &mut Rows<'_, ConstraintRow>,
) -> Option<Result<(), Full>>
    ensures stored { Stores text.now (stored (limit_of out.old) (kept text.now out.old (is_err before)) (pieces mark (word_in text.now part))) result out.new }
    ensures grown { Grown text.now out.old out.new }
{
    let mut placed = before;
    let mut parts = Parts::new(text, part, mark);
    while let Some(piece) = parts.next_part() {
        let row = read_constraint(text, piece, parts.is_done())?;
        if out.push_within(row, CONSTRAINTS_MOST).is_err() {
            placed = Err(Full);
        }
    }
    Some(placed)
}

/// Puts the constraints of conjuncts after the rows. Says whether each has a place, and nothing if one is bad.
fn read_conjuncts(
    text: &[u8],
    part: Word,
    out: &mut Rows<'_, ConstraintRow>,
) -> Option<Result<(), Full>>
    ensures stored { Stores text.now (stored_all (limit_of out.old) (kept text.now out.old false) (pieces 44 (word_in text.now part))) result out.new }
    ensures grown { Grown text.now out.old out.new }
{
    let mut placed = Ok(());
    let mut parts = Parts::new(text, part, b',');
    while let Some(piece) = parts.next_part() {
        placed = read_constraints(text, piece, b'|', placed, out)?;
    }
    Some(placed)
}

/// The run of the rows after the first ones, or why there is none.
fn settle(
    read: Option<Result<(), Full>>,
    first: usize,
    number: usize,
    out: &Rows<'_, ConstraintRow>,
) -> Result<Span, ProblemFault>
    requires { first ≤ length (items out.now) }
    ensures { result ≡ settled first (length (items out.now)) number read }
{
    match read {
        None => Err(ProblemFault::Value(number)),
        Some(Err(Full)) => Err(ProblemFault::TooMany(number)),
        Some(Ok(())) => Ok(Span {
            first,
            len: out.len() - first,
        }),
    }
}

// The limit is named at each push. If the rows were lent no more places than it allows, the rest of the lent memory would
// have to be made zero apart.

/// Reads a list of constraints after the rows, unless its stanza has one already.
pub(crate) fn read_list(
    line: &PropertyLine<'_>,
    already: Option<Span>,
    out: &mut Rows<'_, ConstraintRow>,
) -> Result<Span, ProblemFault>
    requires { length (items out.old) ≤ limit_of out.old }
    ensures list { ok_mapped (list_at line.now.text.now out.new) result ≡ once line.now.number already (listed (limit_of out.old) (length (items out.old)) line.now.number (constraint_list (said line.now).1)) }
    ensures span { IfOk result (SpanOf out.old out.new) }
    ensures grown { Grown line.now.text.now out.old out.new }
{
    if already.is_some() {
        return Err(ProblemFault::Property(line.number));
    }
    let first = out.len();
    if line.value().is_empty() {
        return Ok(Span { first, len: 0 });
    }
    let read = read_constraints(line.text, line.property.value, b',', Ok(()), out);
    settle(read, first, line.number, out)
}

// Apart from `read_list`: one function for both would take the reading as a closure that changes the rows, and its
// contract would say of the closure what `Stores` and `Grown` say here.

/// Reads a list of conjuncts after the rows, unless its stanza has one already.
pub(crate) fn read_depends(
    line: &PropertyLine<'_>,
    already: Option<Span>,
    out: &mut Rows<'_, ConstraintRow>,
) -> Result<Span, ProblemFault>
    requires { length (items out.old) ≤ limit_of out.old }
    ensures list { ok_mapped (conjuncts_at line.now.text.now out.new) result ≡ once line.now.number already (conjoined (limit_of out.old) (length (items out.old)) line.now.number (conjunct_list (said line.now).1)) }
    ensures span { IfOk result (SpanOf out.old out.new) }
    ensures grown { Grown line.now.text.now out.old out.new }
{
    if already.is_some() {
        return Err(ProblemFault::Property(line.number));
    }
    let first = out.len();
    if line.value().is_empty() {
        return Ok(Span { first, len: 0 });
    }
    let read = read_conjuncts(line.text, line.property.value, out);
    settle(read, first, line.number, out)
}
