//! The plan clauses of a problem, one after the other.
ghost use Rattle.std.specs.Prelude.{◌≡◌, ◌<◌, ◌≤◌, [], ◌∷◌, length};
ghost use Rattle.text.specs.Lists.{each, each_all};
ghost use Rattle.text.specs.Literals.{lit};
ghost use Rattle.problem.specs.Cudf.{stanzas};
ghost use Rattle.problem.specs.Feeding.{Fed};
ghost use Rattle.problem.specs.Meaning.{problem_of};
ghost use Rattle.problem.specs.PlanClauses.{of_stanza, plan_clauses};
ghost use Rattle.problem.specs.Stanzas.{row_satisfies_one, passing, stanza_at};

use crate::rows::ConstraintRow;
use crate::sink::{ClauseSink, Stopped};
use crate::stanzas::Stanzas;
use crate::view::{PACKAGES_MOST, Problem};
use conjuncts::feed_depends;
use denials::feed_denied;
use literals::write_met;
use text::rows::Rows;

mod conjuncts;
mod denials;
mod literals;

/// Hands the plan clauses to a sink as long as it takes them.
pub fn feed_plan_clauses<S: ClauseSink>(
    problem: &Problem<'_, '_, '_>,
    sink: &mut S,
) -> Result<(), Stopped>
    ensures { Fed S.goes S.stops (plan_clauses (problem_of problem.now)) result sink.old sink.new }
{
    let stanzas = problem.stanzas();
    feed_stanzas(problem, sink)?;
    feed_installs(&stanzas, problem.install(), sink)?;
    feed_denied(&stanzas, None, problem.remove(), sink)
}

/// The clauses of the package stanzas.
fn feed_stanzas<S: ClauseSink>(problem: &Problem<'_, '_, '_>, sink: &mut S) -> Result<(), Stopped>
    ensures { Fed S.goes S.stops (each_all (of_stanza (problem_of problem.now)) (stanzas (problem_of problem.now))) result sink.old sink.new }
{
    let count = problem.len();
    for place in 0..count {
        feed_stanza(problem, place, sink)?;
    }
    Ok(())
}

/// The clauses of the package stanza at a place.
fn feed_stanza<S: ClauseSink>(
    problem: &Problem<'_, '_, '_>,
    place: usize,
    sink: &mut S,
) -> Result<(), Stopped>
    requires { place < problem.now.count }
    ensures { Fed S.goes S.stops (of_stanza (problem_of problem.now) (stanza_at problem.now place)) result sink.old sink.new }
{
    let stanzas = problem.stanzas();
    feed_depends(&stanzas, place, problem.depends(place), sink)?;
    feed_denied(&stanzas, Some(place), problem.conflicts(place), sink)
}

/// The clause of each install item.
fn feed_installs<S: ClauseSink>(
    stanzas: &Stanzas<'_>,
    items: &[ConstraintRow],
    sink: &mut S,
) -> Result<(), Stopped>
    ensures { Fed S.goes S.stops (each_all (λ c. each lit (passing (row_satisfies_one stanzas.now.text.now (c ∷ [])) 0 stanzas.now.rows.now) ∷ []) items.now) result sink.old sink.new }
{
    let mut memory = [0; PACKAGES_MOST];
    for item in items {
        feed_install(stanzas, item, &mut memory, sink)?;
    }
    Ok(())
}

/// The clause of an install item: the packages that satisfy it.
fn feed_install<S: ClauseSink>(
    stanzas: &Stanzas<'_>,
    item: &ConstraintRow,
    memory: &mut [i32; PACKAGES_MOST],
    sink: &mut S,
) -> Result<(), Stopped>
    ensures { Fed S.goes S.stops (each lit (passing (row_satisfies_one stanzas.now.text.now (item.now ∷ [])) 0 stanzas.now.rows.now) ∷ []) result sink.old sink.new }
{
    let mut clause = Rows::new(&mut memory[..stanzas.rows.len()], 0);
    write_met(stanzas, 0, &[*item], &mut clause);
    sink.take(clause.as_slice())
}
