//! The base that watches two literals of a clause.
ghost use Rattle.clauses.specs.ClauseBase.{fresh};
ghost use Rattle.clauses.specs.Common.{meaning_of};
ghost use Rattle.clauses.specs.Rooms.{watched_room};
ghost use Rattle.std.specs.Prelude.{◌≡◌, length};

use crate::lent::Base;
use crate::row::Row;

/// Two watched places for each row, in memory that is lent.
#[derive(Drop)]
pub struct Places<'a> {
    pub(crate) at: &'a mut [u32],
}

/// A base over lent memory, with two watched places for each row.
pub type Watched<'a> = Base<'a, Places<'a>>;

impl<'a> Base<'a, Places<'a>> {
    /// An empty base, with what room the memory allows: a row and two places for each clause;
    /// a literal, a link and an owner for each literal of a clause; a value and a place on the trail for
    /// each variable and one more, and two heads.
    pub fn new(
        rows: &'a mut [Row],
        literals: &'a mut [i32],
        values: &'a mut [Option<bool>],
        trail: &'a mut [i32],
        heads: &'a mut [u32],
        next: &'a mut [u32],
        owners: &'a mut [u32],
        places: &'a mut [u32],
    ) -> Watched<'a>
        ensures { meaning_of result.common ≡ fresh (watched_room (length rows.old) (length literals.old) (length values.old) (length trail.old) (length heads.old) (length next.old) (length owners.old) (length places.old)) }
    {
        Base::over(
            rows,
            literals,
            values,
            trail,
            heads,
            next,
            owners,
            Places { at: places },
        )
    }
}
