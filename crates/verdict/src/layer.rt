//! A base as a sink: the clauses of an opening are added to it one after the other.
ghost use Rattle.std.specs.Prelude.{◌≡◌};
ghost use Rattle.verdict.specs.Laying.{Took, Turned};

use clauses::base::ClauseBase;
use problem::sink::{ClauseSink, Stopped};

/// A base that clauses are added to, as long as it takes them.
#[derive(Drop)]
pub(crate) struct Layer<'b, B> {
    pub(crate) base: &'b mut B,
}

impl<B: ClauseBase> ClauseSink for Layer<'_, B> {
    ghost goes = { λ s c t. Took (B.meaning s.base.now) c (B.meaning t.base.now) × (t.base.ghost_name ≡ s.base.ghost_name) };

    ghost stops = { λ s c t. Turned (B.meaning s.base.now) c (B.meaning t.base.now) × (t.base.ghost_name ≡ s.base.ghost_name) };

    fn take(&mut self, clause: &[i32]) -> Result<(), Stopped> {
        self.base.add(clause).map(|_| ()).map_err(|_| Stopped)
    }
}
