//! A new base.
ghost use Rattle.clauses.specs.ClauseBase.{fresh};
ghost use Rattle.clauses.specs.Common.{meaning_of};
ghost use Rattle.clauses.specs.Rooms.{lent_room};
ghost use Rattle.std.specs.Prelude.{◌≡◌, length};

use super::Base;
use crate::common::{Common, Values};
use crate::index::Index;
use crate::phase::Phase;
use crate::propagator::Propagator;
use crate::row::Row;
use crate::store::Store;
use crate::trail::Trail;

/// The most rows and literals that links reach.
const WIDEST: usize = 4_294_967_295;

impl<'a, E: Propagator> Base<'a, E> {
    /// An empty base, with what room the memory allows.
    pub(crate) fn over(
        rows: &'a mut [Row],
        literals: &'a mut [i32],
        values: &'a mut [Option<bool>],
        trail: &'a mut [i32],
        heads: &'a mut [u32],
        next: &'a mut [u32],
        owners: &'a mut [u32],
        engine: E,
    ) -> Base<'a, E>
        ensures { meaning_of result.common ≡ fresh (lent_room (length rows.old) (length literals.old) (length values.old) (length trail.old) (length heads.old) (length next.old) (length owners.old) (E.serves engine)) }
    {
        let clauses = rows.len().min(engine.serves()).min(WIDEST);
        let places = literals.len().min(next.len()).min(owners.len()).min(WIDEST);
        let cells = values.len().min(trail.len()).min(heads.len() / 2);
        let rows = &mut rows[0..clauses];
        let literals = &mut literals[0..places];
        let values = &mut values[0..cells];
        Base {
            common: Common {
                store: Store {
                    rows,
                    count: 0,
                    literals,
                    filled: 0,
                    variables: 0,
                    next: 1,
                },
                values: Values { cells: values },
                trail: Trail {
                    literals: trail,
                    tail: 0,
                },
                phase: Phase::Idle,
            },
            index: Index {
                heads,
                lists: 0,
                next,
                owners,
                used: 0,
            },
            engine,
        }
    }
}
