//! The base as a clause base.
ghost use Rattle.clauses.specs.Common.{meaning_of};

use super::Base;
use super::run::answer;
use crate::base::ClauseBase;
use crate::fault::{BaseFault, Hinted};
use crate::mark::Mark;
use crate::propagator::Propagator;
use crate::room::Room;

impl<E: Propagator> ClauseBase for Base<'_, E> {
    type Mark = Mark;

    ghost meaning = { λ b. meaning_of b.common };

    fn clear(&mut self, variables: u32) -> Result<(), BaseFault> {
        self.common.clear(variables)
    }

    fn add(&mut self, clause: &[i32]) -> Result<u32, BaseFault> {
        self.common.add(clause)
    }

    fn delete(&mut self, number: u32) -> Result<(), BaseFault> {
        self.common.delete(number)
    }

    fn start(&mut self, clause: &[i32]) -> Result<Mark, BaseFault> {
        self.common.start(clause)
    }

    fn hint(&mut self, number: u32) -> Result<Hinted, BaseFault> {
        self.common.hint(number)
    }

    fn run(&mut self) -> Result<bool, BaseFault> {
        if !self.common.is_open() {
            return Err(BaseFault::InTrial);
        }
        Ok(answer(&mut self.common, &mut self.index, &mut self.engine))
    }

    fn finish(&mut self, mark: Mark) {
        self.common.finish(mark);
    }

    fn variables(&self) -> u32 {
        self.common.store.variables
    }

    fn next_number(&self) -> u32 {
        self.common.store.next
    }

    fn room(&self) -> Room {
        self.common.room()
    }

    fn is_live(&self, number: u32) -> bool {
        self.common.is_live(number)
    }

    fn value(&self, variable: u32) -> Option<bool> {
        self.common.value(variable)
    }
}
