//! The clauses of a package's dependencies.
ghost use Rattle.std.specs.Prelude.{◌≡◌, suc, ◌<◌, ◌≤◌, length};
ghost use Rattle.text.specs.Lists.{each_all};
ghost use Rattle.problem.specs.Feeding.{Fed};
ghost use Rattle.problem.specs.Meaning.{conjuncts};
ghost use Rattle.problem.specs.PlanClauses.{needs};
ghost use Rattle.problem.specs.Stanzas.{row_satisfies_one, passing};

use super::literals::{put, variable_at, write_met};
use crate::rows::ConstraintRow;
use crate::sink::{ClauseSink, Stopped};
use crate::stanzas::Stanzas;
use crate::view::PACKAGES_MOST;
use text::rows::Rows;

// The memory is lent by the caller: to make it zero for each clause took as long as a clause of few packages does.
/// The clause of a conjunct of the package at `place`; none if that package meets it itself.
fn feed_conjunct<S: ClauseSink>(
    stanzas: &Stanzas<'_>,
    place: usize,
    group: &[ConstraintRow],
    memory: &mut [i32; PACKAGES_MOST],
    sink: &mut S,
) -> Result<(), Stopped>
    requires { place < length stanzas.now.rows.now }
    ensures { Fed S.goes S.stops (needs (suc place) (passing (row_satisfies_one stanzas.now.text.now group.now) 0 stanzas.now.rows.now)) result sink.old sink.new }
{
    if stanzas.satisfies_one(group, &stanzas.rows[place]) {
        return Ok(());
    }
    let mut clause = Rows::new(&mut memory[..stanzas.rows.len()], 0);
    let (before, after) = stanzas.around(place);
    write_met(&before, 0, group, &mut clause);
    put(&mut clause, variable_at(place).no());
    write_met(&after, place + 1, group, &mut clause);
    sink.take(clause.as_slice())
}

/// The clauses of the conjuncts of the package at `place`.
pub(super) fn feed_depends<S: ClauseSink>(
    stanzas: &Stanzas<'_>,
    place: usize,
    depends: &[ConstraintRow],
    sink: &mut S,
) -> Result<(), Stopped>
    requires { place < length stanzas.now.rows.now }
    ensures { Fed S.goes S.stops (each_all (λ cs. needs (suc place) (passing (row_satisfies_one stanzas.now.text.now cs) 0 stanzas.now.rows.now)) (conjuncts depends.now)) result sink.old sink.new }
{
    if depends.is_empty() {
        return Ok(());
    }
    // Tried: a `for` over the groups. No proof is made of one over an iterator with a closure where there is a type parameter.
    let mut memory = [0; PACKAGES_MOST];
    let mut rest = depends;
    while let Some(group) = rest.split_inclusive(|row| row.last).next() {
        feed_conjunct(stanzas, place, group, &mut memory, sink)?;
        rest = &rest[group.len()..];
    }
    Ok(())
}
