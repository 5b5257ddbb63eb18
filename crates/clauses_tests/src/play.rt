//! A play: calls that depend on the seed alone.
ghost use Rattle.std.specs.Prelude.{◌≤◌};

use crate::log::Log;
use crate::random::Random;
use crate::subject::Subject;

/// How many literals a clause has: now and then none, else one to four.
fn draw_length(random: &mut Random) -> usize
    ensures { result ≤ 4 }
{
    if random.below(16) == 0 {
        0
    } else {
        random.below(4) as usize + 1
    }
}

/// A literal: now and then 0, now and then of a variable that may be too high.
fn draw_literal(random: &mut Random) -> i32 {
    let kind = random.below(40);
    let variable = random.below(8) as i32;
    match kind {
        0 => 0,
        1 => 9,
        _ if random.below(2) == 0 => variable + 1,
        _ => -variable - 1,
    }
}

fn turn<S: Subject>(subject: &mut S, random: &mut Random, log: &mut Log) {
    let length = draw_length(random);
    let mut literals = [0; 4];
    for literal in literals.iter_mut() {
        *literal = draw_literal(random);
    }
    let clause = &literals[..length];
    let kind = random.below(16);
    let number = random.below(24);
    match kind {
        0..8 => log.numbered(subject.add(clause)),
        8..11 => log.done(subject.delete(number)),
        11..15 => subject.trial(clause, random, log),
        _ => subject.ask(number, log),
    }
}

pub fn play<S: Subject>(subject: &mut S, seed: u32, log: &mut Log) {
    let mut random = Random::new(seed);
    for _ in 0..3 {
        let variables = if random.below(4) == 0 {
            random.below(10)
        } else {
            8
        };
        log.done(subject.clear(variables));
        for _ in 0..60 {
            turn(subject, &mut random, log);
        }
    }
}
