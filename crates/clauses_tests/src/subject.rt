//! What is played on: a base, by its answers alone.
use crate::log::Log;
use crate::random::Random;
use clauses::fault::{BaseFault, Hinted};

/// The calls of a base.
pub trait Calls {
    fn clear(&mut self, variables: u32) -> Result<(), BaseFault>;

    fn add(&mut self, clause: &[i32]) -> Result<u32, BaseFault>;

    fn delete(&mut self, number: u32) -> Result<(), BaseFault>;

    fn hint(&mut self, number: u32) -> Result<Hinted, BaseFault>;

    fn run(&mut self) -> Result<bool, BaseFault>;

    fn value(&self, variable: u32) -> Option<bool>;
}

pub trait Subject: Calls {
    /// A whole trial: hints as the random numbers say, calls that are refused, and runs.
    fn trial(&mut self, clause: &[i32], random: &mut Random, log: &mut Log);

    /// The questions that change nothing.
    fn ask(&self, number: u32, log: &mut Log);
}

/// Hints at clauses, of which some are not live, and all values after each.
pub fn hint_some<C: Calls>(subject: &mut C, random: &mut Random, log: &mut Log) {
    for _ in 0..random.below(7) {
        log.hinted(subject.hint(random.below(24)));
        for variable in 0..9u32 {
            log.value(subject.value(variable));
        }
    }
}

/// Calls that a trial stands in the way of.
pub fn disturb<C: Calls>(subject: &mut C, clause: &[i32], log: &mut Log) {
    log.done(subject.clear(3));
    log.numbered(subject.add(clause));
    log.done(subject.delete(1));
}
