//! The clauses that rule packages out: those of conflicts and of remove items.
ghost use Rattle.std.specs.Prelude.{◌≡◌, suc, ◌<◌, ◌≤◌, [], ◌∷◌, length, IfSome, Some, None};
ghost use Rattle.text.specs.Lists.{each_all};
ghost use Rattle.problem.specs.Feeding.{Fed};
ghost use Rattle.problem.specs.Stanzas.{row_satisfies, passing, denials};

use super::literals::variable_at;
use crate::rows::ConstraintRow;
use crate::sink::{ClauseSink, Stopped};
use crate::stanzas::Stanzas;

/// That the package at `place` is not installed.
fn feed_alone<S: ClauseSink>(place: usize, sink: &mut S) -> Result<(), Stopped>
    requires { place < 256 }
    ensures { Fed S.goes S.stops (denials None (suc place ∷ [])) result sink.old sink.new }
{
    sink.take(&[variable_at(place).no()])
}

/// That the packages at two places are not both installed; nothing if they are one.
fn feed_pair<S: ClauseSink>(other: usize, place: usize, sink: &mut S) -> Result<(), Stopped>
    requires other { other < 256 }
    requires place { place < 256 }
    ensures { Fed S.goes S.stops (denials (Some other) (suc place ∷ [])) result sink.old sink.new }
{
    if other == place {
        return Ok(());
    }
    let first = variable_at(other.min(place));
    let second = variable_at(other.max(place));
    sink.take(&[first.no(), second.no()])
}

/// That no package satisfies a constraint, or none does beside the one at a place.
fn feed_denials<S: ClauseSink>(
    stanzas: &Stanzas<'_>,
    beside: Option<usize>,
    constraint: &ConstraintRow,
    sink: &mut S,
) -> Result<(), Stopped>
    requires { IfSome beside (λ i. i < 256) }
    ensures { Fed S.goes S.stops (denials beside (passing (row_satisfies stanzas.now.text.now constraint.now) 0 stanzas.now.rows.now)) result sink.old sink.new }
{
    for (i, row) in stanzas.rows.iter().enumerate() {
        if stanzas.satisfies(constraint, row) {
            feed_denial(beside, i, sink)?;
        }
    }
    Ok(())
}

/// That the package at `place` is not installed, or not beside another.
fn feed_denial<S: ClauseSink>(
    beside: Option<usize>,
    place: usize,
    sink: &mut S,
) -> Result<(), Stopped>
    requires beside { IfSome beside (λ i. i < 256) }
    requires place { place < 256 }
    ensures { Fed S.goes S.stops (denials beside (suc place ∷ [])) result sink.old sink.new }
{
    match beside {
        None => feed_alone(place, sink),
        Some(other) => feed_pair(other, place, sink),
    }
}

/// The same for each of some constraints.
pub(super) fn feed_denied<S: ClauseSink>(
    stanzas: &Stanzas<'_>,
    beside: Option<usize>,
    constraints: &[ConstraintRow],
    sink: &mut S,
) -> Result<(), Stopped>
    requires { IfSome beside (λ i. i < 256) }
    ensures { Fed S.goes S.stops (each_all (λ c. denials beside (passing (row_satisfies stanzas.now.text.now c) 0 stanzas.now.rows.now)) constraints.now) result sink.old sink.new }
{
    for constraint in constraints {
        feed_denials(stanzas, beside, constraint, sink)?;
    }
    Ok(())
}
