//! Reads the files `problem`, `answer` and `certificate` in the current folder, and prints one line.
#![tactic(auto)]

use anyhow::anyhow;
use memory::Memory;
use std::io::{Read, Write};
use std::{fs, io};
use verdict::check::FILE_MOST;
use verdict::line::{Line, write_line};

mod memory;

/// Room for the longest line.
const LINE_MOST: usize = 64;

/// The bytes of a file; one byte more than a file may have is enough to refuse it. A file that cannot be opened counts
/// as empty.
fn read_file(rt: &HostRuntime, name: &str) -> io::Result<Vec<u8>> {
    let mut bytes = Vec::new(rt.alloc());
    if let Ok(file) = fs::open(rt, name) {
        let mut start = file.take(FILE_MOST as u64 + 1);
        start.read_to_end(&mut bytes)?;
    }
    Ok(bytes)
}

/// Prints the bytes of a line.
fn print_line(rt: &HostRuntime, line: Line) -> anyhow::Result<()> {
    let mut memory = [0; LINE_MOST];
    let Ok(n) = write_line(line, &mut memory) else {
        return Err(anyhow!("the line is too long"));
    };
    let Some(bytes) = memory.get(0..n) else {
        return Err(anyhow!("the line is too long"));
    };
    rt.stdout().write_all(bytes)?;
    Ok(())
}

fn run(rt: &HostRuntime) -> anyhow::Result<()> {
    let problem = read_file(rt, "problem")?;
    let answer = read_file(rt, "answer")?;
    let certificate = read_file(rt, "certificate")?;
    let mut memory = Memory::new(rt.alloc())?;
    print_line(rt, memory.line(&problem, &answer, &certificate))
}

fn main(rt: HostRuntime) -> anyhow::Result<()> {
    run(&rt)
}
