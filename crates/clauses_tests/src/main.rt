//! Plays the same calls on both bases and on a slow plain one, and says how often they differ.
#![tactic(auto)]

mod bases;
mod log;
mod plain;
mod play;
mod random;
mod subject;

use bases::{Driven, Memory};
use clauses::base::ClauseBase;
use log::Log;
use plain::Plain;
use play::play;
use std::io;

/// What a base answers to the play of a seed.
fn play_base<B: ClauseBase>(base: &mut B, seed: u32) -> Log {
    let mut log = Log::new();
    play(&mut Driven { base }, seed, &mut log);
    log
}

fn main(rt: HostRuntime) -> io::Result<()> {
    let mut differing = 0u32;
    let mut all = Log::new();
    for seed in 0..600u32 {
        let mut memory = Memory::new();
        let counted = play_base(&mut memory.counting(), seed);
        let watched = play_base(&mut memory.watched(), seed);
        let mut plain = Log::new();
        play(&mut Plain::new(), seed, &mut plain);
        if counted.differs(&plain) || watched.differs(&plain) {
            differing = differing.wrapping_add(1);
        }
        all.join(&plain);
    }
    println!(rt; "bases that differ: {differing}")?;
    println!(rt; "answers compared: {}", all.calls)?;
    println!(rt; "runs: {} yes, {} no", all.yes, all.no)?;
    println!(rt;
        "hints: {} unit, {} conflict, {} useless",
        all.units, all.conflicts, all.useless
    )?;
    println!(rt;
        "refused: {} malformed, {} not live, {} no room, {} in trial",
        all.malformed, all.not_live, all.no_room, all.in_trial
    )?;
    Ok(())
}
