//! A base over lent memory.
ghost use Rattle.std.specs.Prelude.{◌*◌, ◌≤◌, length};

use crate::common::Common;
use crate::index::Index;
use crate::propagator::Propagator;

mod calls;
mod new;
mod run;

/// What every base holds, an index of its clauses, and what propagates.
#[derive(Drop)]
pub struct Base<'a, E: Propagator> {
    common: Common<'a>,
    index: Index<'a>,
    engine: E,
    ghost nexts: { length common.store.literals.now ≤ length index.next.now },
    ghost owners: { length common.store.literals.now ≤ length index.owners.now },
    ghost heads: { 2 * length common.values.cells.now ≤ length index.heads.now },
    ghost serves: { length common.store.rows.now ≤ E.serves engine },
}
