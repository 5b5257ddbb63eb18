//! From the bytes of three files to the line.
ghost use Rattle.std.specs.Prelude.{◌≡◌, length, replicate, pos};
ghost use Rattle.certificate.specs.Reading.{memory_of};
ghost use Rattle.problem.specs.Answers.{read_answer};
ghost use Rattle.problem.specs.Meaning.{problem_of};
ghost use Rattle.problem.specs.PlanClauses.{plan_clauses, first_false};
ghost use Rattle.problem.specs.Rows.{no_package, no_constraint};
ghost use Rattle.problem.specs.Sets.{set_of};
ghost use Rattle.problem.specs.declared.standing.Standing.TheVariants.{Unnamed};
ghost use Rattle.verdict.specs.Opened.{answer_of};
ghost use Rattle.verdict.specs.Verdicts.{rooms_of, length_ok, lengths_ok, line_for, InSession, OnPlan, OnAnswer, Judged, line_of, Comes, Means, Completes};

use crate::counts::Counts;
use crate::fault::VerdictFault;
use crate::line::{File, Line};
use crate::outcome::Verdict;
use crate::whole::conclude;
use certificate::form::open;
use clauses::base::ClauseBase;
use problem::answer::{Answer, read_answer};
use problem::plan_check::check_plan;
use problem::read::read_problem;
use problem::rows::{ConstraintRow, NO_CONSTRAINT, NO_PACKAGE, PackageRow};
use problem::standing::Standing;
use problem::view::Problem;

/// The most bytes of a file.
pub const FILE_MOST: usize = 65_536;

/// Refuses a file that is too long.
fn check_length(file: File, text: &[u8]) -> Result<(), VerdictFault>
    ensures { result ≡ length_ok file text.now }
{
    if text.len() > FILE_MOST {
        return Err(VerdictFault::TooLong(file));
    }
    Ok(())
}

/// Refuses the first file that is too long.
fn check_lengths(problem: &[u8], answer: &[u8], certificate: &[u8]) -> Result<(), VerdictFault>
    ensures { result ≡ lengths_ok problem.now answer.now certificate.now }
{
    check_length(File::Problem, problem)?;
    check_length(File::Answer, answer)?;
    check_length(File::Certificate, certificate)
}

/// The line of a verdict.
fn line_for(verdict: Verdict) -> Line
    ensures { result ≡ line_for verdict }
{
    match verdict {
        Verdict::Optimal(counts) => Line::Optimal(counts),
        Verdict::Impossible => Line::Impossible,
    }
}

/// What a session on an answer comes to, with the steps of a certificate.
fn judge_session<B: ClauseBase>(
    problem: &Problem<'_, '_, '_>,
    answer: Answer,
    set: &[Standing],
    certificate: &[u8],
    base: &mut B,
    literals: &mut [i32],
    hints: &mut [u32],
) -> Result<Line, VerdictFault>
    ensures { InSession (memory_of literals.old hints.old) (problem_of problem.now) (answer_of answer set.now) certificate.now (B.meaning base.old) result (B.meaning base.new) }
{
    let mut source = open(certificate);
    let verdict = conclude(base, problem, answer, set, &mut source, literals, hints)?;
    Ok(line_for(verdict))
}

/// What a set comes to.
fn judge_set<B: ClauseBase>(
    problem: &Problem<'_, '_, '_>,
    set: &[Standing],
    certificate: &[u8],
    base: &mut B,
    literals: &mut [i32],
    hints: &mut [u32],
) -> Result<Line, VerdictFault>
    ensures { OnPlan (memory_of literals.old hints.old) (problem_of problem.now) (set_of set.now) certificate.now (first_false (set_of set.now) (plan_clauses (problem_of problem.now))) (B.meaning base.old) result (B.meaning base.new) }
{
    check_plan(problem, set)?;
    if certificate.is_empty() {
        return Ok(Line::Plan(Counts::of(problem, set)));
    }
    judge_session(
        problem,
        Answer::Set,
        set,
        certificate,
        base,
        literals,
        hints,
    )
}

/// What an answer to a problem comes to.
fn judge_answer<B: ClauseBase>(
    problem: &Problem<'_, '_, '_>,
    answer_text: &[u8],
    certificate: &[u8],
    table: &mut [Standing],
    base: &mut B,
    literals: &mut [i32],
    hints: &mut [u32],
) -> Result<Line, VerdictFault>
    ensures { OnAnswer (memory_of literals.old hints.old) (problem_of problem.now) certificate.now (read_answer (problem_of problem.now).packages (length table.old) answer_text.now) (B.meaning base.old) result (B.meaning base.new) }
{
    match read_answer(answer_text, problem, table)? {
        Answer::Fail => judge_session(
            problem,
            Answer::Fail,
            table,
            certificate,
            base,
            literals,
            hints,
        ),
        Answer::Set => judge_set(problem, table, certificate, base, literals, hints),
    }
}

/// What the files come to.
// The memories are lent apart: a `&mut` slice says by itself that the memory stays, of the same length.
fn judge<B: ClauseBase>(
    problem_text: &[u8],
    answer_text: &[u8],
    certificate: &[u8],
    packages: &mut [PackageRow],
    constraints: &mut [ConstraintRow],
    table: &mut [Standing],
    base: &mut B,
    literals: &mut [i32],
    hints: &mut [u32],
) -> Result<Line, VerdictFault>
    ensures { Judged (rooms_of packages.old constraints.old table.old literals.old hints.old) problem_text.now answer_text.now certificate.now (B.meaning base.old) result (B.meaning base.new) }
{
    check_lengths(problem_text, answer_text, certificate)?;
    let mut problem = Problem::none();
    read_problem(problem_text, packages, constraints, &mut problem)?;
    judge_answer(
        &problem,
        answer_text,
        certificate,
        table,
        base,
        literals,
        hints,
    )
}

/// The line for what the files came to.
fn line_of(judgement: Result<Line, VerdictFault>) -> Line
    ensures { result ≡ line_of judgement }
{
    match judgement {
        Ok(line) => line,
        Err(fault) => Line::Refused(fault.refusal()),
    }
}

/// The line that three files come to. The memory is then all zero, and the base is as a session left it, if there was
/// one.
pub fn check<B: ClauseBase>(
    problem: &[u8],
    answer: &[u8],
    certificate: &[u8],
    packages: &mut [PackageRow],
    constraints: &mut [ConstraintRow],
    table: &mut [Standing],
    base: &mut B,
    literals: &mut [i32],
    hints: &mut [u32],
) -> Line
    ensures line { Comes (rooms_of packages.old constraints.old table.old literals.old hints.old) problem.now answer.now certificate.now (B.meaning base.old) result (B.meaning base.new) }
    ensures means { Means (rooms_of packages.old constraints.old table.old literals.old hints.old) problem.now answer.now result }
    ensures completes { Completes (rooms_of packages.old constraints.old table.old literals.old hints.old) problem.now answer.now certificate.now (B.meaning base.old) result }
    ensures packages { packages.new ≡ replicate (length packages.old) no_package }
    ensures constraints { constraints.new ≡ replicate (length constraints.old) no_constraint }
    ensures table { table.new ≡ replicate (length table.old) Unnamed }
    ensures literals { literals.new ≡ replicate (length literals.old) (pos 0) }
    ensures hints { hints.new ≡ replicate (length hints.old) 0 }
{
    let judgement = judge(
        problem,
        answer,
        certificate,
        packages,
        constraints,
        table,
        base,
        literals,
        hints,
    );
    packages.fill(NO_PACKAGE);
    constraints.fill(NO_CONSTRAINT);
    table.fill(Standing::Unnamed);
    literals.fill(0);
    hints.fill(0);
    line_of(judgement)
}
