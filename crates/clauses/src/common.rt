//! What every base holds: the clauses, and the trial.
ghost use Rattle.std.specs.Prelude.{◌-◌, ◌≤◌, length};

use crate::phase::Phase;
use crate::store::Store;
use crate::trail::Trail;

mod clauses;
mod trial;

/// A value for each variable, in memory that is lent.
#[derive(Drop)]
pub struct Values<'a> {
    pub cells: &'a mut [Option<bool>],
}

#[derive(Drop)]
pub struct Common<'a> {
    pub store: Store<'a>,
    pub values: Values<'a>,
    pub trail: Trail<'a>,
    pub phase: Phase,
    ghost placed: { store.variables ≤ length values.cells.now - 1 },
    ghost lasting: { length values.cells.now ≤ length trail.literals.now },
}
