//! The opening of a session on a problem and an answer to it.
ghost use Rattle.std.specs.Prelude.{◌≡◌};
ghost use Rattle.clauses.specs.ClauseBase.{idle};
ghost use Rattle.problem.specs.Meaning.{problem_of};
ghost use Rattle.verdict.specs.Laying.{Lays};
ghost use Rattle.verdict.specs.Opened.{answer_of, Claims, Opens, OnlyRefused};
ghost use Rattle.verdict.specs.OpeningCalls.{variables_on, clauses_on, within};

use crate::counts::Counts;
use crate::layer::Layer;
use crate::opening_clauses::{count_variables, feed_opening};
use crate::outcome::OpenFault;
use crate::session::{Claim, Open};
use clauses::base::ClauseBase;
use problem::answer::Answer;
use problem::plan_check::{NotPlan, check_plan};
use problem::sink::Stopped;
use problem::standing::Standing;
use problem::view::Problem;

/// Adds the clauses of the opening in their order to a base with no trial, as long as they fit.
fn lay<B: ClauseBase>(
    base: &mut B,
    problem: &Problem<'_, '_, '_>,
    claim: Claim,
) -> Result<(), Stopped>
    requires { (B.meaning base.old).trial ≡ idle }
    ensures { Lays (B.meaning base.old) (variables_on (problem_of problem.now) (within claim)) (clauses_on (problem_of problem.now) (within claim)) result (B.meaning base.new) }
{
    base.clear(count_variables(problem, claim))
        .map_err(|_| Stopped)?;
    let mut layer = Layer { base };
    feed_opening(problem, claim, &mut layer)
}

/// What a session on an answer is opened on, if the answer is `FAIL` or a plan.
pub fn claim_on(
    problem: &Problem<'_, '_, '_>,
    answer: Answer,
    set: &[Standing],
) -> Result<Claim, NotPlan>
    ensures { Claims (problem_of problem.now) (answer_of answer set.now) result }
{
    match answer {
        Answer::Fail => Ok(Claim::Fail),
        Answer::Set => {
            check_plan(problem, set)?;
            Ok(Claim::Plan(Counts::of(problem, set)))
        }
    }
}

/// Opens a session; a refused opening leaves the base cleared, or as it was during a trial.
pub fn open<B: ClauseBase>(
    base: &mut B,
    problem: &Problem<'_, '_, '_>,
    answer: Answer,
    set: &[Standing],
) -> Result<Open, OpenFault>
    ensures opens { Opens (B.meaning base.old) (problem_of problem.now) (answer_of answer set.now) result (B.meaning base.new) }
    ensures refused { OnlyRefused (B.meaning base.old) (problem_of problem.now) (answer_of answer set.now) result }
{
    base.clear(0).map_err(|_| OpenFault::InTrial)?;
    let claim = claim_on(problem, answer, set)?;
    if lay(base, problem, claim).is_err() {
        let _ = base.clear(0);
        return Err(OpenFault::NoRoom);
    }
    Ok(Open::new(claim))
}
