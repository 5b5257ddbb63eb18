//! Whether a set is a plan.
ghost use Rattle.std.specs.Prelude.{◌≡◌, length};
ghost use Rattle.text.specs.Lists.{Each};
ghost use Rattle.text.specs.Literals.{is_true, makes_true};
ghost use Rattle.problem.specs.Checking.{passes, fails, Checks};
ghost use Rattle.problem.specs.Examples.{Stands, cases};
ghost use Rattle.problem.specs.Meaning.{problem_of};
ghost use Rattle.problem.specs.PlanClauses.{PlansAgree};
ghost use Rattle.problem.specs.Sets.{set_of};

use crate::plan_clauses::feed_plan_clauses;
use crate::sink::{ClauseSink, Stopped};
use crate::standing::{Standing, is_chosen};
use crate::view::Problem;

/// The number of the first plan clause that a set makes false.
#[derive(Clone, Copy)]
pub struct NotPlan {
    pub clause: u32,
}

/// A set, and how many clauses it has made true so far.
#[derive(Drop)]
struct PlanTest<'s> {
    set: &'s [Standing],
    passed: u32,
}

impl ClauseSink for PlanTest<'_> {
    ghost goes = { passes };

    ghost stops = { fails };

    fn take(&mut self, clause: &[i32]) -> Result<(), Stopped> {
        if !makes_true(self.set, clause) {
            return Err(Stopped);
        }
        self.passed = self.passed.saturating_add(1);
        Ok(())
    }
}

/// Checks a set against the plan clauses, in their order.
pub fn check_plan(problem: &Problem<'_, '_, '_>, set: &[Standing]) -> Result<(), NotPlan>
    ensures checks { Checks (problem_of problem.now) (set_of set.now) result }
    ensures agree { PlansAgree }
{
    let mut test = PlanTest { set, passed: 0 };
    feed_plan_clauses(problem, &mut test).map_err(|_| NotPlan {
        clause: test.passed + 1,
    })
}

/// Whether a set makes a clause true.
fn makes_true(set: &[Standing], clause: &[i32]) -> bool
    ensures { result ≡ makes_true (set_of set.now) clause.now }
{
    clause.iter().any(|literal| is_true(set, *literal))
}

/// Whether a set makes a literal true.
fn is_true(set: &[Standing], literal: i32) -> bool
    ensures { result ≡ is_true (set_of set.now) literal }
{
    let number = literal.unsigned_abs() as usize;
    let chosen = is_chosen(set, number.saturating_sub(1));
    if literal < 0 { !chosen } else { chosen }
}

/// How many worked examples there are. Each of them stands: its plan clauses, the first of them that its set makes
/// false, and its counts are as stated.
pub fn worked_examples() -> usize
    ensures count { result ≡ length cases }
    ensures stand { Each Stands cases }
{
    4
}
