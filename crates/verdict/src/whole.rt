//! A session from its opening to its verdict.
ghost use Rattle.std.specs.Prelude.{◌≡◌, length};
ghost use Rattle.certificate.specs.Reading.{memory_of};
ghost use Rattle.problem.specs.Meaning.{problem_of};
ghost use Rattle.verdict.specs.Finding.{ending, Finds, FindLeaves, FoundTrue, Found};
ghost use Rattle.verdict.specs.Opened.{answer_of, closing, Concludes, RunLeaves, TrueVerdict, Complete};

use crate::opening::open;
use crate::outcome::{RunFault, SessionFault, Verdict};
use crate::reply::Reply;
use crate::session::{Open, ask_all, ask_on};
use certificate::source::Source;
use clauses::base::ClauseBase;
use problem::answer::Answer;
use problem::standing::Standing;
use problem::view::Problem;

/// Closes a session and gives its verdict.
fn close(session: Open) -> Result<Verdict, SessionFault>
    ensures { result ≡ closing session }
{
    match session.close() {
        Ok(refuted) => Ok(refuted.verdict()),
        Err(still) => Err(SessionFault::Unclosed(still.place)),
    }
}

/// Opens a session, asks as many steps as there is place for replies, closes it and gives its verdict.
pub fn run_session<B: ClauseBase, S: Source>(
    base: &mut B,
    problem: &Problem<'_, '_, '_>,
    answer: Answer,
    set: &[Standing],
    source: &mut S,
    literals: &mut [i32],
    hints: &mut [u32],
    replies: &mut [Reply],
) -> Result<Verdict, SessionFault>
    ensures run { Concludes (problem_of problem.now) (answer_of answer set.now) (memory_of literals.old hints.old) (B.meaning base.old) (S.rest source.old) replies.old result replies.new (B.meaning base.new) (S.rest source.new) }
    ensures memory { RunLeaves literals.old hints.old (S.rest source.old).steps (length replies.old) result literals.new hints.new }
    ensures sound { TrueVerdict (problem_of problem.now) (answer_of answer set.now) result }
    ensures complete { Complete (problem_of problem.now) (answer_of answer set.now) (memory_of literals.old hints.old) (B.meaning base.old) (S.rest source.old) (length replies.old) result }
{
    let mut session = open(base, problem, answer, set)?;
    ask_all(&mut session, base, source, literals, hints, replies);
    close(session)
}

/// What a session comes to after its last reply.
fn end(session: Open, reply: Reply) -> Result<Verdict, RunFault>
    ensures { result ≡ ending session reply }
{
    match reply {
        Reply::Refused(fault, place) => Err(RunFault::Step(fault, place)),
        Reply::Taken | Reply::Nothing => Ok(close(session)?),
    }
}

/// Opens a session, asks steps up to the first refusal or the empty clause, and gives its verdict.
pub fn conclude<B: ClauseBase, S: Source>(
    base: &mut B,
    problem: &Problem<'_, '_, '_>,
    answer: Answer,
    set: &[Standing],
    source: &mut S,
    literals: &mut [i32],
    hints: &mut [u32],
) -> Result<Verdict, RunFault>
    ensures memory { FindLeaves literals.old hints.old result literals.new hints.new }
    ensures run { Finds (problem_of problem.now) (answer_of answer set.now) (memory_of literals.old hints.old) (B.meaning base.old) (S.rest source.old) result (B.meaning base.new) (S.rest source.new) }
    ensures sound { FoundTrue (problem_of problem.now) (answer_of answer set.now) result }
    ensures complete { Found (problem_of problem.now) (answer_of answer set.now) (memory_of literals.old hints.old) (B.meaning base.old) (S.rest source.old) result }
{
    let mut session = open(base, problem, answer, set)?;
    let reply = ask_on(&mut session, base, source, literals, hints);
    end(session, reply)
}
