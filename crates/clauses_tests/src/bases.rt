//! Any clause base as a subject, and memory for small ones.
use crate::log::Log;
use crate::random::Random;
use crate::subject::{Calls, Subject, disturb, hint_some};
use clauses::base::ClauseBase;
use clauses::counting::Counting;
use clauses::fault::{BaseFault, Hinted};
use clauses::row::Row;
use clauses::watched::Watched;

/// A base, lent.
#[derive(Drop)]
pub struct Driven<'b, B> {
    pub base: &'b mut B,
}

impl<B: ClauseBase> Calls for Driven<'_, B> {
    fn clear(&mut self, variables: u32) -> Result<(), BaseFault> {
        self.base.clear(variables)
    }

    fn add(&mut self, clause: &[i32]) -> Result<u32, BaseFault> {
        self.base.add(clause)
    }

    fn delete(&mut self, number: u32) -> Result<(), BaseFault> {
        self.base.delete(number)
    }

    fn hint(&mut self, number: u32) -> Result<Hinted, BaseFault> {
        self.base.hint(number)
    }

    fn run(&mut self) -> Result<bool, BaseFault> {
        self.base.run()
    }

    fn value(&self, variable: u32) -> Option<bool> {
        self.base.value(variable)
    }
}

impl<B: ClauseBase> Subject for Driven<'_, B> {
    fn trial(&mut self, clause: &[i32], random: &mut Random, log: &mut Log) {
        log.answer(self.run());
        let mark = match self.base.start(clause) {
            Ok(mark) => mark,
            Err(fault) => {
                log.fault(fault);
                return;
            }
        };
        hint_some(self, random, log);
        disturb(self, clause, log);
        log.answer(self.run());
        log.answer(self.run());
        self.base.finish(mark);
    }

    fn ask(&self, number: u32, log: &mut Log) {
        log.number(self.base.variables());
        log.number(self.base.next_number());
        let room = self.base.room();
        log.number(room.variables.min(1000) as u32);
        log.number(room.clauses.min(1000) as u32);
        log.number(room.literals.min(1000) as u32);
        log.number(u32::from(self.base.is_live(number)));
    }
}

/// Memory for 8 variables, 13 clauses and 26 literals.
#[derive(Drop)]
pub struct Memory {
    rows: [Row; 13],
    literals: [i32; 26],
    values: [Option<bool>; 9],
    trail: [i32; 9],
    heads: [u32; 18],
    next: [u32; 26],
    owners: [u32; 26],
    scratch: [u32; 26],
}

impl Memory {
    pub fn new() -> Memory {
        Memory {
            rows: [Row::NONE; 13],
            literals: [0; 26],
            values: [None; 9],
            trail: [0; 9],
            heads: [0; 18],
            next: [0; 26],
            owners: [0; 26],
            scratch: [0; 26],
        }
    }

    // Two methods: the kind of scratch memory names the base. A row has one counter and two places.
    pub fn counting(&mut self) -> Counting<'_> {
        let Memory {
            rows,
            literals,
            values,
            trail,
            heads,
            next,
            owners,
            scratch,
        } = self;
        Counting::new(
            rows,
            literals,
            values,
            trail,
            heads,
            next,
            owners,
            &mut scratch[..13],
        )
    }

    pub fn watched(&mut self) -> Watched<'_> {
        let Memory {
            rows,
            literals,
            values,
            trail,
            heads,
            next,
            owners,
            scratch,
        } = self;
        Watched::new(rows, literals, values, trail, heads, next, owners, scratch)
    }
}
