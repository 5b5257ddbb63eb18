//! A run.
ghost use Rattle.std.specs.Prelude.{◌≡◌, ◌-◌, ◌*◌, ◌^◌, ◌<◌, ◌≤◌, length, Decides};
ghost use Rattle.clauses.specs.Cells.{values_of};
ghost use Rattle.clauses.specs.ClauseBase.{answered, with_trial};
ghost use Rattle.clauses.specs.Common.{meaning_of, Steady};
ghost use Rattle.clauses.specs.Events.{Same};
ghost use Rattle.clauses.specs.Propagation.{Refuted};
ghost use Rattle.clauses.specs.Stored.{held};

use crate::common::Common;
use crate::index::Index;
use crate::phase::Phase;
use crate::propagator::Propagator;

/// Closes the gaps and propagates. The trial is then answered.
pub(super) fn answer<E: Propagator>(common: &mut Common, index: &mut Index, engine: &mut E) -> bool
    requires next { length common.old.store.literals.now ≤ length index.old.next.now }
    requires owners { length common.old.store.literals.now ≤ length index.old.owners.now }
    requires heads { 2 * length common.old.values.cells.now ≤ length index.old.heads.now }
    requires serves { length common.old.store.rows.now ≤ E.serves engine.old }
    ensures decides { Decides result (Refuted (held common.old.store) (values_of common.old.values.cells.now)) }
    ensures meaning { meaning_of common.new ≡ with_trial (meaning_of common.old) answered }
    ensures steady { Steady common.old common.new }
    ensures same { Same index.old index.new }
    ensures serves { E.serves engine.new ≡ E.serves engine.old }
{
    common.store.close();
    common.trail.tail = 0;
    common.phase = Phase::Answered;
    engine
        .propagate(&common.store, &mut common.values, index, &mut common.trail)
        .is_err()
}
