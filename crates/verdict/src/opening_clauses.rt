//! The clauses that a session opens on, and how many variables they have.
ghost use Rattle.std.specs.Prelude.{◌≡◌, suc, ◌+◌, ◌*◌, ◌<◌, ◌≤◌, min, [], ◌∷◌, ◌++◌, length};
ghost use Rattle.problem.specs.Feeding.{Fed};
ghost use Rattle.problem.specs.Meaning.{problem_of};
ghost use Rattle.problem.specs.Cudf.{names, installed_names};
ghost use Rattle.verdict.specs.Opening.{variables, removed_clauses, changed_clauses, opening};
ghost use Rattle.verdict.specs.OpeningCalls.{Places, second_base, counters_of, at_most, fewer, bounds_of, variables_on, clauses_on, within};

use crate::counter::feed_counter;
use crate::counts::Counts;
use crate::indicators::feed_indicators;
use crate::layout::Layout;
use crate::names::{Indicator, count_listed};
use crate::session::Claim;
use problem::plan_clauses::feed_plan_clauses;
use problem::sink::{ClauseSink, Stopped};
use problem::variable::Variable;
use problem::view::Problem;

/// The layout of a problem's opening.
fn lay_out(problem: &Problem<'_, '_, '_>) -> Layout
    ensures { Places (problem_of problem.now) result }
{
    let stanzas = problem.stanzas();
    let installed = count_listed(&stanzas, Indicator::Removed);
    let names = count_listed(&stanzas, Indicator::Changed);
    let removed = stanzas.rows.len() as u32 + 1;
    let changed = removed + installed;
    Layout {
        removed,
        installed,
        changed,
        names,
        choice: changed + names,
    }
}

/// Counts, each 256 at most.
fn capped(counts: Counts) -> Counts
    ensures removed { result.removed ≡ min counts.removed 256 }
    ensures changed { result.changed ≡ min counts.changed 256 }
{
    Counts {
        removed: counts.removed.min(256),
        changed: counts.changed.min(256),
    }
}

/// How many registers a counter of so many inputs has.
fn registers(inputs: u32, limit: u32) -> u32
    requires inputs { inputs ≤ 256 }
    requires limit { limit ≤ 257 }
    ensures count { result ≡ inputs * limit }
    ensures few { result ≤ 65792 }
{
    inputs * limit
}

/// The number of variables of the opening on a plan. Counts above 256 are taken as 256.
fn count_on_plan(problem: &Problem<'_, '_, '_>, counts: Counts) -> u32
    ensures { result ≡ variables (problem_of problem.now) (min counts.removed 256) (min counts.changed 256) }
{
    let places = lay_out(problem);
    let most = capped(counts);
    let first = registers(places.installed, most.removed + 1);
    let second = registers(places.names, most.changed);
    places.choice + first + second
}

/// The number of variables of the opening. Counts above 256 are taken as 256.
pub fn count_variables(problem: &Problem<'_, '_, '_>, claim: Claim) -> u32
    ensures { result ≡ variables_on (problem_of problem.now) (within claim) }
{
    match claim {
        Claim::Fail => problem.packages().len() as u32,
        Claim::Plan(counts) => count_on_plan(problem, counts),
    }
}

/// The counters of the removed and of the changed variables.
fn feed_counters<S: ClauseSink>(places: Layout, counts: Counts, sink: &mut S) -> Result<(), Stopped>
    requires removed { counts.removed ≤ 256 }
    requires changed { counts.changed ≤ 256 }
    ensures { Fed S.goes S.stops (counters_of places counts.removed counts.changed) result sink.old sink.new }
{
    let first = places.choice + 1;
    let limit = counts.removed + 1;
    let second = first + registers(places.installed, limit);
    feed_counter(first, limit, places.removed, places.installed, sink)?;
    feed_counter(second, counts.changed, places.changed, places.names, sink)
}

/// That a counter does not come to its limit.
fn feed_at_most<S: ClauseSink>(
    base: u32,
    limit: u32,
    inputs: u32,
    sink: &mut S,
) -> Result<(), Stopped>
    requires base { 1 ≤ base }
    requires limit { 1 ≤ limit }
    requires few { base + inputs * limit ≤ 1000000 }
    ensures { Fed S.goes S.stops (at_most base limit inputs) result sink.old sink.new }
{
    if inputs == 0 {
        return Ok(());
    }
    let last = Variable {
        number: base + inputs * limit - 1,
    };
    sink.take(&[last.no()])
}

/// That a counter does not come to a count, or else a literal holds; the literal alone if the count is 0.
fn feed_fewer<S: ClauseSink>(
    literal: i32,
    row: u32,
    count: u32,
    sink: &mut S,
) -> Result<(), Stopped>
    requires row { 1 ≤ row }
    requires few { row + count ≤ 1000000 }
    ensures { Fed S.goes S.stops (fewer literal row count ∷ []) result sink.old sink.new }
{
    if count == 0 {
        return sink.take(&[literal]);
    }
    let register = Variable {
        number: row + (count - 1),
    };
    sink.take(&[literal, register.no()])
}

/// The clauses of the removed and of the changed variables.
fn feed_names<S: ClauseSink>(
    problem: &Problem<'_, '_, '_>,
    places: Layout,
    sink: &mut S,
) -> Result<(), Stopped>
    ensures { Fed S.goes S.stops (removed_clauses (problem_of problem.now) 0 0 places.removed (installed_names (problem_of problem.now)) ++ changed_clauses (problem_of problem.now) 0 0 places.changed (names (problem_of problem.now))) result sink.old sink.new }
{
    let stanzas = problem.stanzas();
    feed_indicators(&stanzas, Indicator::Removed, places.removed, sink)?;
    feed_indicators(&stanzas, Indicator::Changed, places.changed, sink)
}

/// That fewer names are removed, or as many and fewer changed.
fn feed_bounds<S: ClauseSink>(places: Layout, counts: Counts, sink: &mut S) -> Result<(), Stopped>
    requires removed { counts.removed ≤ 256 }
    requires changed { counts.changed ≤ 256 }
    ensures { Fed S.goes S.stops (bounds_of places counts.removed counts.changed) result sink.old sink.new }
{
    let first = places.choice + 1;
    let limit = counts.removed + 1;
    let second = first + registers(places.installed, limit);
    let row = first + registers(places.installed.saturating_sub(1), limit);
    let last = second + registers(places.names.saturating_sub(1), counts.changed);
    let choice = Variable {
        number: places.choice,
    };
    feed_at_most(first, limit, places.installed, sink)?;
    feed_fewer(choice.no(), row, counts.removed, sink)?;
    feed_fewer(choice.yes(), last, counts.changed, sink)
}

/// Hands the clauses of the opening on a plan to a sink. Counts above 256 are taken as 256.
fn feed_on_plan<S: ClauseSink>(
    problem: &Problem<'_, '_, '_>,
    counts: Counts,
    sink: &mut S,
) -> Result<(), Stopped>
    ensures { Fed S.goes S.stops (opening (problem_of problem.now) (min counts.removed 256) (min counts.changed 256)) result sink.old sink.new }
{
    let places = lay_out(problem);
    let most = capped(counts);
    feed_plan_clauses(problem, sink)?;
    feed_names(problem, places, sink)?;
    feed_counters(places, most, sink)?;
    feed_bounds(places, most, sink)
}

/// Hands the clauses of the opening to a sink as long as it takes them. Counts above 256 are taken as 256.
pub fn feed_opening<S: ClauseSink>(
    problem: &Problem<'_, '_, '_>,
    claim: Claim,
    sink: &mut S,
) -> Result<(), Stopped>
    ensures { Fed S.goes S.stops (clauses_on (problem_of problem.now) (within claim)) result sink.old sink.new }
{
    match claim {
        Claim::Fail => feed_plan_clauses(problem, sink),
        Claim::Plan(counts) => feed_on_plan(problem, counts, sink),
    }
}
