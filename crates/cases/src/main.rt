//! Runs a table of cases from standard input on both bases, and prints the line of each.
#![tactic(auto)]

use anyhow::anyhow;
use memory::{Clauses, Rows};
use std::io::{Read, Write};
use table::{Case, read_case};
use verdict::line::write_line;

mod memory;
mod table;

/// Room for the longest line.
const LINE_MOST: usize = 64;

/// Prints the line of a case, on which both bases have to agree.
fn run_case(
    rt: &HostRuntime,
    case: &Case<'_>,
    rows: &mut Rows,
    clauses: &mut Clauses,
) -> anyhow::Result<()> {
    let line = rows.line(case, &mut clauses.watched());
    if rows.line(case, &mut clauses.counting()) != line {
        return Err(anyhow!("the two bases disagree"));
    }
    let mut memory = [0; LINE_MOST];
    let Ok(n) = write_line(line, &mut memory) else {
        return Err(anyhow!("the line is too long"));
    };
    let Some(bytes) = memory.get(0..n) else {
        return Err(anyhow!("the line is too long"));
    };
    rt.stdout().write_all(bytes)?;
    Ok(())
}

fn run(rt: &HostRuntime) -> anyhow::Result<()> {
    let mut bytes = Vec::new(rt.alloc());
    rt.stdin().read_to_end(&mut bytes)?;
    let mut rows = Rows::new(rt.alloc())?;
    let mut clauses = Clauses::new(rt.alloc())?;
    let mut rest = bytes.as_slice();
    while !rest.is_empty() {
        let Some(case) = read_case(rest) else {
            return Err(anyhow!("the table is not in its form"));
        };
        run_case(rt, &case, &mut rows, &mut clauses)?;
        rest = case.rest;
    }
    Ok(())
}

fn main(rt: HostRuntime) -> anyhow::Result<()> {
    run(&rt)
}
