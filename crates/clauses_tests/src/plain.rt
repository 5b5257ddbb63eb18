//! A slow plain base: clauses as they were given, and propagation by scans of all of them.
use crate::log::Log;
use crate::random::Random;
use crate::subject::{Calls, Subject, disturb, hint_some};
use clauses::fault::{BaseFault, Hinted};

/// The most variables, clauses and literals.
const VARIABLES: u32 = 8;

const CLAUSES: u32 = 13;

const LITERALS: u32 = 26;

/// More than the highest number that a play gives.
const NUMBERS: usize = 200;

/// The most literals of a clause.
const LENGTH: usize = 4;

/// A clause as it was given; zeros stand after its literals.
#[derive(Clone, Copy)]
struct Entry {
    literals: [i32; LENGTH],
    len: usize,
}

impl Entry {
    fn new(clause: &[i32]) -> Entry {
        let mut literals = [0; LENGTH];
        for (place, literal) in literals.iter_mut().zip(clause) {
            *place = *literal;
        }
        Entry {
            literals,
            len: clause.len(),
        }
    }

    fn clause(&self) -> &[i32] {
        &self.literals[..self.len.min(LENGTH)]
    }
}

#[derive(Clone, Copy, PartialEq, Eq)]
enum Stage {
    Idle,
    Open,
    Answered,
}

// No map: the play runs without a heap, and so has no want of memory to answer for.
/// Each live clause stands at its number.
#[derive(Drop)]
pub struct Plain {
    variables: u32,
    next: u32,
    clauses: [Option<Entry>; NUMBERS],
    values: [Option<bool>; 10],
    stage: Stage,
}

/// What a clause says under the values.
#[derive(Clone, Copy)]
enum Said {
    /// All literals are false.
    Conflict,
    /// This one is unset, and the others are false.
    Forced(i32),
    /// One is true, or two are unset.
    Nothing,
}

fn say(values: &[Option<bool>], clause: &[i32]) -> Said {
    let mut said = Said::Conflict;
    for literal in clause {
        let value = values
            .get(literal.unsigned_abs() as usize)
            .copied()
            .flatten();
        said = match (value, said) {
            (Some(truth), said) if truth != (*literal > 0) => said,
            (None, Said::Conflict) => Said::Forced(*literal),
            _ => return Said::Nothing,
        };
    }
    said
}

fn make(values: &mut [Option<bool>], literal: i32, truth: bool) {
    if let Some(value) = values.get_mut(literal.unsigned_abs() as usize) {
        *value = Some((literal > 0) == truth);
    }
}

fn is_bad(clause: &[i32], variables: u32) -> bool {
    for (place, literal) in clause.iter().enumerate() {
        let variable = literal.unsigned_abs();
        let is_repeated = clause[..place]
            .iter()
            .any(|other| other.unsigned_abs() == variable);
        if variable == 0 || variable > variables || is_repeated {
            return true;
        }
    }
    false
}

impl Plain {
    pub fn new() -> Plain {
        Plain {
            variables: 0,
            next: 1,
            clauses: [None; NUMBERS],
            values: [None; 10],
            stage: Stage::Idle,
        }
    }

    fn check_stage(&self, stage: Stage) -> Result<(), BaseFault> {
        if self.stage == stage {
            Ok(())
        } else {
            Err(BaseFault::InTrial)
        }
    }

    /// Whether a clause may be added, and under which number.
    fn check_clause(&self, clause: &[i32]) -> Result<u32, BaseFault> {
        self.check_stage(Stage::Idle)?;
        if is_bad(clause, self.variables) {
            return Err(BaseFault::Malformed);
        }
        let mut count = 0u32;
        let mut literals = clause.len();
        for live in self.clauses.iter().flatten() {
            count = count.saturating_add(1);
            literals = literals.saturating_add(live.len);
        }
        if count >= CLAUSES || literals > LITERALS as usize {
            return Err(BaseFault::NoRoom);
        }
        Ok(self.next)
    }

    /// The live clause with this number.
    fn find(&self, number: u32) -> Option<Entry> {
        self.clauses.get(number as usize).copied().flatten()
    }

    /// One scan of all clauses: a conflict, or the last literal that is forced, or nothing.
    fn scan(&self) -> Said {
        let mut found = Said::Nothing;
        for live in self.clauses.iter().flatten() {
            match say(&self.values, live.clause()) {
                Said::Conflict => return Said::Conflict,
                Said::Forced(literal) => found = Said::Forced(literal),
                Said::Nothing => {}
            }
        }
        found
    }

    /// Whether scans come to a conflict; each makes a literal true, of which there are fewer than 20.
    fn propagate(&mut self) -> bool {
        for _ in 0..20 {
            match self.scan() {
                Said::Conflict => return true,
                Said::Forced(literal) => make(&mut self.values, literal, true),
                Said::Nothing => return false,
            }
        }
        false
    }
}

impl Calls for Plain {
    fn clear(&mut self, variables: u32) -> Result<(), BaseFault> {
        self.check_stage(Stage::Idle)?;
        if variables > VARIABLES {
            return Err(BaseFault::NoRoom);
        }
        self.variables = variables;
        self.next = 1;
        self.clauses = [None; NUMBERS];
        Ok(())
    }

    fn add(&mut self, clause: &[i32]) -> Result<u32, BaseFault> {
        let number = self.check_clause(clause)?;
        if let Some(slot) = self.clauses.get_mut(number as usize) {
            *slot = Some(Entry::new(clause));
        }
        self.next = number.wrapping_add(1);
        Ok(number)
    }

    fn delete(&mut self, number: u32) -> Result<(), BaseFault> {
        self.check_stage(Stage::Idle)?;
        self.find(number).ok_or(BaseFault::NotLive)?;
        if let Some(slot) = self.clauses.get_mut(number as usize) {
            *slot = None;
        }
        Ok(())
    }

    fn hint(&mut self, number: u32) -> Result<Hinted, BaseFault> {
        self.check_stage(Stage::Open)?;
        let live = self.find(number).ok_or(BaseFault::NotLive)?;
        match say(&self.values, live.clause()) {
            Said::Conflict => {
                self.stage = Stage::Answered;
                Ok(Hinted::Conflict)
            }
            Said::Forced(literal) => {
                make(&mut self.values, literal, true);
                Ok(Hinted::Unit)
            }
            Said::Nothing => Ok(Hinted::Useless),
        }
    }

    fn run(&mut self) -> Result<bool, BaseFault> {
        self.check_stage(Stage::Open)?;
        self.stage = Stage::Answered;
        Ok(self.propagate())
    }

    fn value(&self, variable: u32) -> Option<bool> {
        if self.stage == Stage::Open {
            self.values.get(variable as usize).copied().flatten()
        } else {
            None
        }
    }
}

impl Subject for Plain {
    fn trial(&mut self, clause: &[i32], random: &mut Random, log: &mut Log) {
        log.answer(self.run());
        if is_bad(clause, self.variables) {
            log.fault(BaseFault::Malformed);
            return;
        }
        self.values = [None; 10];
        for literal in clause {
            make(&mut self.values, *literal, false);
        }
        self.stage = Stage::Open;
        hint_some(self, random, log);
        disturb(self, clause, log);
        log.answer(self.run());
        log.answer(self.run());
        self.stage = Stage::Idle;
    }

    fn ask(&self, number: u32, log: &mut Log) {
        log.number(self.variables);
        log.number(self.next);
        log.number(VARIABLES);
        log.number(CLAUSES);
        log.number(LITERALS);
        log.number(u32::from(self.find(number).is_some()));
    }
}
