//! A table of cases. Each has a line `CASE n p a c`: its number, and the lengths of problem, answer and certificate;
//! then the bytes of the three, and a line end.
ghost use Rattle.std.specs.Prelude.{◌<◌, ◌≤◌, length, IfSome};

use text::digits::decimal;
use text::find::index_of;
use text::lines::walk::LF;
use text::parts::Parts;

/// A case, and the table after it.
#[derive(Clone, Copy)]
pub struct Case<'a> {
    pub problem: &'a [u8],
    pub answer: &'a [u8],
    pub certificate: &'a [u8],
    pub rest: &'a [u8],
}

/// The lengths of the three files of a case.
#[derive(Clone, Copy)]
struct Lengths {
    problem: usize,
    answer: usize,
    certificate: usize,
}

/// Takes the first case off a table.
pub fn read_case(table: &[u8]) -> Option<Case<'_>>
    ensures { IfSome result (λ c. length c.rest.now < length table.now) }
{
    let n = index_of(table, LF)?;
    let lengths = read_lengths(&table[..n])?;
    let body = &table[n + 1..];
    let problem = front(body, lengths.problem)?;
    let body = &body[problem.len()..];
    let answer = front(body, lengths.answer)?;
    let body = &body[answer.len()..];
    let certificate = front(body, lengths.certificate)?;
    let body = &body[certificate.len()..];
    let end = front(body, 1)?;
    Some(Case {
        problem,
        answer,
        certificate,
        rest: &body[end.len()..],
    })
}

/// The lengths that the first line of a case says.
fn read_lengths(line: &[u8]) -> Option<Lengths> {
    let mut parts = Parts::whole(line, b' ');
    parts.next_piece()?;
    parts.next_piece()?;
    let problem = decimal(parts.next_piece()?, 9)?;
    let answer = decimal(parts.next_piece()?, 9)?;
    let certificate = decimal(parts.next_piece()?, 9)?;
    Some(Lengths {
        problem: problem as usize,
        answer: answer as usize,
        certificate: certificate as usize,
    })
}

/// The first bytes of a text, if there are so many.
fn front(text: &[u8], len: usize) -> Option<&[u8]>
    ensures { IfSome result (λ p. length p.now ≤ length text.now) }
{
    if len > text.len() {
        return None;
    }
    Some(&text[0..len])
}
