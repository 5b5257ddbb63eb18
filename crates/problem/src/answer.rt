//! Reads an answer.
ghost use Rattle.std.specs.Prelude.{length};
ghost use Rattle.problem.specs.AnswerCalls.{Answers};
ghost use Rattle.problem.specs.Meaning.{problem_of};

use crate::answer_lines::read_stanzas;
use crate::fault::AnswerFault;
use crate::standing::Standing;
use crate::view::Problem;

/// What an answer claims: that no plan exists, or that a set is one.
// The set lies in the table that is lent for it, so `Set` holds none.
#[derive(Clone, Copy)]
pub enum Answer {
    Fail,
    Set,
}

/// Reads an answer to a problem. The table then says of each stanza, at its place, what a set says of it; for `FAIL` and
/// on a refusal it says nothing.
pub fn read_answer(
    text: &[u8],
    problem: &Problem<'_, '_, '_>,
    table: &mut [Standing],
) -> Result<Answer, AnswerFault>
    ensures { Answers (problem_of problem.now).packages (length table.old) text.now result table.new }
{
    table.fill(Standing::Unnamed);
    if text == b"FAIL\n".as_slice() {
        return Ok(Answer::Fail);
    }
    match read_stanzas(text, problem, table) {
        Ok(()) => Ok(Answer::Set),
        Err(fault) => {
            table.fill(Standing::Unnamed);
            Err(fault)
        }
    }
}
