//! The lines of the text form.
ghost use Rattle.std.specs.Prelude.{◌≡◌, [], length, pos, None, MatchOption};
ghost use Rattle.text.specs.Pieces.{pieces};
ghost use Rattle.text.specs.Rows.{items, room, Same};
ghost use Rattle.certificate.specs.Lines.{clause, deleted_number, line_step};
ghost use Rattle.certificate.specs.LineAnswer.{Pushed, clause_answer, clause_kept, line_answer, LineLeaves};
ghost use Rattle.certificate.specs.Reading.{memory_of, standing};

use crate::found::Shape;
use crate::memory::blank;
use crate::record::LITERALS;
use text::digits::{decimal, signed};
use text::parts::Parts;
use text::rows::Rows;

/// The most digits that a number has.
const DIGITS: usize = 7;

/// Why a line gives no step.
#[derive(Clone, Copy)]
pub enum Unread {
    Form,
    TooMany,
}

/// The clause number in a line that deletes a clause.
fn deleted_number(line: &[u8]) -> Option<u32>
    ensures { result ≡ deleted_number (pieces 32 line.now) }
{
    let mut parts = Parts::whole(line, b' ');
    let mark = parts.next_piece()?;
    let number = parts.next_piece()?;
    let zero = parts.next_piece()?;
    if parts.is_done() && mark == b"d".as_slice() && zero == b"0".as_slice() {
        decimal(number, DIGITS)
    } else {
        None
    }
}

/// Puts the literals of a line that have a place into the rows, and says how many there are.
fn push_literals(line: &[u8], rows: &mut Rows<'_, i32>) -> Option<usize>
    requires { items rows.old ≡ [] }
    ensures count { MatchOption result (clause (pieces 32 line.now) ≡ None) (λ n. Pushed (pieces 32 line.now) (room rows.old) n (items rows.new)) }
    ensures same { Same rows.old rows.new }
{
    let mut parts = Parts::whole(line, b' ');
    for count in 0..=usize::from(LITERALS) {
        let literal = signed(parts.next_piece()?, DIGITS)?;
        if literal == 0 {
            return parts.is_done().then_some(count);
        }
        let _ = rows.push(literal);
    }
    None
}

/// Puts the literals of a line into the rows, if they fit.
#[tactic(auto, using(crate::proofs::LineAnswers::clause_over, crate::proofs::LineAnswers::clause_fits))]
fn push_clause(line: &[u8], rows: &mut Rows<'_, i32>) -> Result<usize, Unread>
    requires { items rows.old ≡ [] }
    ensures answer { result ≡ clause_answer (room rows.old) (clause (pieces 32 line.now)) }
    ensures items { items rows.new ≡ clause_kept (room rows.old) (clause (pieces 32 line.now)) }
    ensures same { Same rows.old rows.new }
{
    let Some(count) = push_literals(line, rows) else {
        rows.clear();
        return Err(Unread::Form);
    };
    if count > rows.len() {
        rows.clear();
        return Err(Unread::TooMany);
    }
    Ok(count)
}

/// Puts the literals of a line into the memory lent, if they fit, and zeros after them.
fn read_clause(line: &[u8], literals: &mut [i32]) -> Result<usize, Unread>
    ensures answer { result ≡ clause_answer (length literals.old) (clause (pieces 32 line.now)) }
    ensures memory { literals.new ≡ standing (pos 0) (length literals.old) (clause_kept (length literals.old) (clause (pieces 32 line.now))) }
{
    let mut rows = Rows::new(literals, 0);
    push_clause(line, &mut rows)
}

/// Reads the step of a line into the memory lent.
pub fn read_line(line: &[u8], literals: &mut [i32], hints: &mut [u32]) -> Result<Shape, Unread>
    ensures answer { result ≡ line_answer (memory_of literals.old hints.old) (line_step line.now) }
    ensures memory { LineLeaves (memory_of literals.old hints.old) (line_step line.now) literals.new hints.new }
{
    if let Some(number) = deleted_number(line) {
        blank(literals, hints);
        return Ok(Shape::Delete(number));
    }
    hints.fill(0);
    let count = read_clause(line, literals)?;
    Ok(Shape::Add(count))
}
