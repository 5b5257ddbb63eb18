//! Propagation by counters: a clause is looked at when fewer than two of its literals are not yet false.
ghost use Rattle.std.specs.Prelude.{◌≡◌, ◌^◌, ◌<◌, length};
ghost use Rattle.clauses.specs.Cells.{values_of, Placed};
ghost use Rattle.clauses.specs.Counters.{Counted};
ghost use Rattle.clauses.specs.Counting.{non_false};

use crate::counting::Counters;
use crate::index::Index;
use crate::indexing::index_all;
use crate::literal::{code_against, is_open};
use crate::look::{Conflict, examine};
use crate::propagator::Propagator;
use crate::store::Store;
use crate::trail::Trail;

/// How many literals of the clause are not false.
fn count_open(clause: &[i32], values: &[Option<bool>]) -> u32
    requires placed { Placed clause.now (length values.now) }
    requires short { length clause.now < 2 ^ 32 }
    ensures { result ≡ non_false (values_of values.now) clause.now }
{
    clause
        .iter()
        .filter(|literal| is_open(values, **literal))
        .count() as u32
}

impl Propagator for Counters<'_> {
    ghost serves = { λ e. length e.left.now };

    ghost Keeps = { λ s x e ys t head. Counted s x e.left.now ys t head };

    fn serves(&self) -> usize {
        self.left.len()
    }

    /// Indexes the clauses, and counts the literals of each that are not false.
    fn start(
        &mut self,
        store: &Store,
        values: &mut [Option<bool>],
        index: &mut Index,
        trail: &mut Trail,
    ) -> Result<(), Conflict> {
        index_all(store, index);
        let left = &mut *self.left;
        for k in 0..store.count {
            examine(store, k, values, trail)?;
            left[k] = count_open(store.clause(k), values);
        }
        Ok(())
    }

    /// Counts down each clause in which the literal's opposite stands, and looks at it where fewer than two
    /// literals are left.
    fn wake(
        &mut self,
        store: &Store,
        head: usize,
        values: &mut [Option<bool>],
        index: &mut Index,
        trail: &mut Trail,
    ) -> Result<(), Conflict> {
        let left = &mut *self.left;
        let mut link = index.heads[code_against(trail.literals[head])];
        // A list is links in lent memory: there is no slice to go through.
        while link != 0 {
            let entry = link as usize - 1;
            link = index.next[entry];
            let owner = index.owners[entry] as usize;
            let open = left[owner].saturating_sub(1);
            left[owner] = open;
            if open >= 2 {
                continue;
            }
            examine(store, owner, values, trail)?;
        }
        Ok(())
    }
}
