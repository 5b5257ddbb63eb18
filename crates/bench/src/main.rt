//! Times runs of both bases, at growing numbers of clauses. It prints nothing unless it is given a word.
#![tactic(auto)]

use clauses::base::ClauseBase;
use clauses::counting::Counting;
use clauses::row::Row;
use clauses::watched::Watched;
use std::alloc::{AllocError, Global};
use std::env;
use std::time::Instant;

const VARIABLES: usize = 4097;

const CLAUSES: usize = 8192;

const LITERALS: usize = 24_576;

/// How many clauses are tried.
const SIZES: [u32; 4] = [1000, 2000, 4000, 8000];

fn literal(state: u32, variables: u32) -> i32 {
    let variable = (state >> 8) % variables.max(1) % 4096;
    let literal = variable as i32 + 1;
    if state & 64 == 0 { literal } else { -literal }
}

fn step(state: u32) -> u32 {
    state.wrapping_mul(1_664_525).wrapping_add(1_013_904_223)
}

/// A chain of implications through all variables, and then clauses of three literals.
fn fill<B: ClauseBase>(base: &mut B, variables: u32, clauses: u32) {
    let _ = base.clear(variables);
    for i in 1..variables.min(4096) {
        let v = i as i32;
        let _ = base.add(&[-v, v + 1]);
    }
    let mut state = 7;
    for _ in variables..clauses {
        let first = step(state);
        let second = step(first);
        state = step(second);
        let _ = base.add(&[
            literal(first, variables),
            literal(second, variables),
            literal(state, variables),
        ]);
    }
}

/// So many trials, each of a clause with one literal; says how many came to a conflict.
fn trials<B: ClauseBase>(base: &mut B, variables: u32, count: u32) -> u32 {
    let mut yes = 0u32;
    for i in 0..count {
        let v = (i % variables.max(1) % 4096) as i32 + 1;
        if let Ok(mark) = base.start(&[-v]) {
            if let Ok(true) = base.run() {
                yes = yes.wrapping_add(1);
            }
            base.finish(mark);
        }
    }
    yes
}

fn measure<B: ClauseBase>(
    rt: &HostRuntime,
    name: &str,
    base: &mut B,
    clauses: u32,
    count: u32,
) -> anyhow::Result<()> {
    let variables = clauses / 2;
    fill(base, variables, clauses);
    let start = Instant::now(rt)?;
    let yes = trials(base, variables, count);
    let nanos = start.elapsed(rt)?.as_nanos() / u128::from(count.max(1));
    if count > 1 {
        println!(rt;
            "{name}: {clauses} clauses, {variables} variables, {count} runs, {yes} yes, {nanos} ns a run"
        )?;
    }
    Ok(())
}

/// Memory for the largest base.
#[derive(Drop)]
struct Memory {
    rows: Vec<Row>,
    literals: Vec<i32>,
    values: Vec<Option<bool>>,
    trail: Vec<i32>,
    heads: Vec<u32>,
    next: Vec<u32>,
    owners: Vec<u32>,
    scratch: Vec<u32>,
}

impl Memory {
    fn new(alloc: Global) -> Result<Memory, AllocError> {
        Ok(Memory {
            rows: vec![in alloc; Row::NONE; CLAUSES]?,
            literals: vec![in alloc; 0i32; LITERALS]?,
            values: vec![in alloc; None; VARIABLES]?,
            trail: vec![in alloc; 0i32; VARIABLES]?,
            heads: vec![in alloc; 0u32; 2 * VARIABLES]?,
            next: vec![in alloc; 0u32; LITERALS]?,
            owners: vec![in alloc; 0u32; LITERALS]?,
            scratch: vec![in alloc; 0u32; 2 * CLAUSES]?,
        })
    }

    // Two methods: the kind of scratch memory names the base.
    fn counting(&mut self) -> Counting<'_> {
        Counting::new(
            &mut self.rows,
            &mut self.literals,
            &mut self.values,
            &mut self.trail,
            &mut self.heads,
            &mut self.next,
            &mut self.owners,
            &mut self.scratch,
        )
    }

    fn watched(&mut self) -> Watched<'_> {
        Watched::new(
            &mut self.rows,
            &mut self.literals,
            &mut self.values,
            &mut self.trail,
            &mut self.heads,
            &mut self.next,
            &mut self.owners,
            &mut self.scratch,
        )
    }
}

fn main(rt: HostRuntime) -> anyhow::Result<()> {
    let is_loud = env::args(&rt)?.count() > 1;
    let count = if is_loud { 2000 } else { 1 };
    let mut memory = Memory::new(rt.alloc())?;
    for clauses in SIZES {
        measure(&rt, "counting", &mut memory.counting(), clauses, count)?;
    }
    for clauses in SIZES {
        measure(&rt, "watched", &mut memory.watched(), clauses, count)?;
    }
    Ok(())
}
