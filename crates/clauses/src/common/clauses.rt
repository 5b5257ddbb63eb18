//! The clauses of a base.
ghost use Rattle.clauses.specs.Calls.{Adds, Clears, Deletes};
ghost use Rattle.clauses.specs.Common.{meaning_of, room_of, Steady};
ghost use Rattle.std.specs.Prelude.{◌≡◌};

use super::Common;
use crate::fault::BaseFault;
use crate::form::well_formed;
use crate::phase::Phase;
use crate::room::Room;

/// The last number that a clause can have.
const HIGHEST: u32 = 1_000_000;

impl Common<'_> {
    pub(crate) fn clear(&mut self, variables: u32) -> Result<(), BaseFault>
        ensures call { Clears (meaning_of self.old) variables result (meaning_of self.new) }
        ensures steady { Steady self.old self.new }
    {
        if self.phase != Phase::Idle {
            return Err(BaseFault::InTrial);
        }
        if variables as usize > self.room().variables {
            return Err(BaseFault::NoRoom);
        }
        self.store.clear(variables);
        Ok(())
    }

    pub(crate) fn add(&mut self, clause: &[i32]) -> Result<u32, BaseFault>
        ensures call { Adds (meaning_of self.old) clause.now result (meaning_of self.new) }
        ensures steady { Steady self.old self.new }
    {
        if self.phase != Phase::Idle {
            return Err(BaseFault::InTrial);
        }
        if !well_formed(clause, self.store.variables) {
            return Err(BaseFault::Malformed);
        }
        let number = self.store.next;
        if number > HIGHEST || !self.store.make_room(clause.len()) {
            return Err(BaseFault::NoRoom);
        }
        self.store.push(clause);
        Ok(number)
    }

    pub(crate) fn delete(&mut self, number: u32) -> Result<(), BaseFault>
        ensures call { Deletes (meaning_of self.old) number result (meaning_of self.new) }
        ensures steady { Steady self.old self.new }
    {
        if self.phase != Phase::Idle {
            return Err(BaseFault::InTrial);
        }
        let k = self.store.find(number).ok_or(BaseFault::NotLive)?;
        self.store.take_out(k);
        Ok(())
    }

    pub fn room(&self) -> Room
        ensures { result ≡ room_of self.now }
    {
        Room {
            variables: self.values.cells.len().saturating_sub(1),
            clauses: self.store.rows.len(),
            literals: self.store.literals.len(),
        }
    }
}
