//! The clauses of a sequential counter.
ghost use Rattle.std.specs.Prelude.{◌≡◌, suc, ◌+◌, ◌-◌, ◌*◌, ◌<◌, ◌≤◌, [], ◌∷◌};
ghost use Rattle.text.specs.Lists.{each, up_from};
ghost use Rattle.text.specs.Literals.{lit, neg};
ghost use Rattle.problem.specs.Feeding.{Fed};
ghost use Rattle.verdict.specs.Opening.{counter_input, counter};

use problem::sink::{ClauseSink, Stopped};
use problem::variable::Variable;

// A register is a number, good only beside the base and the limit of its counter, so their bounds stand in the contracts.

/// That the registers of an input are no lower than those of the input before.
fn feed_kept<S: ClauseSink>(before: u32, row: u32, limit: u32, sink: &mut S) -> Result<(), Stopped>
    requires before { 1 ≤ before }
    requires order { before ≤ row }
    requires few { row + limit ≤ 1000000 }
    ensures { Fed S.goes S.stops (each (λ j. neg (before + (j - 1)) ∷ lit (row + (j - 1)) ∷ []) (up_from 1 limit)) result sink.old sink.new }
{
    for j in 0..limit {
        let held = Variable { number: before + j };
        let kept = Variable { number: row + j };
        sink.take(&[held.no(), kept.yes()])?;
    }
    Ok(())
}

// Apart from `feed_kept`: these clauses have three literals.
/// That they are one higher if the input is true.
fn feed_raised<S: ClauseSink>(
    input: Variable,
    before: u32,
    row: u32,
    limit: u32,
    sink: &mut S,
) -> Result<(), Stopped>
    requires before { 1 ≤ before }
    requires order { before ≤ row }
    requires few { row + limit < 1000000 }
    ensures { Fed S.goes S.stops (each (λ j. neg input.number ∷ neg (before + (j - 1)) ∷ lit (row + (suc j - 1)) ∷ []) (up_from 1 limit)) result sink.old sink.new }
{
    for j in 0..limit {
        let held = Variable { number: before + j };
        let raised = Variable {
            number: row + j + 1,
        };
        sink.take(&[input.no(), held.no(), raised.yes()])?;
    }
    Ok(())
}

/// The clauses of the input at a place.
fn feed_input<S: ClauseSink>(
    base: u32,
    limit: u32,
    input: Variable,
    place: u32,
    sink: &mut S,
) -> Result<(), Stopped>
    requires base { 1 ≤ base }
    requires few { base + (suc place) * limit ≤ 1000000 }
    ensures { Fed S.goes S.stops (counter_input base limit (neg input.number) (suc place)) result sink.old sink.new }
{
    if limit == 0 {
        return Ok(());
    }
    let row = base + place * limit;
    let first = Variable { number: row };
    sink.take(&[input.no(), first.yes()])?;
    if place == 0 {
        return Ok(());
    }
    let before = row - limit;
    feed_kept(before, row, limit, sink)?;
    feed_raised(input, before, row, limit - 1, sink)
}

/// The clauses of a counter up to a limit: its registers from `base` on, its inputs from `first` on.
pub(crate) fn feed_counter<S: ClauseSink>(
    base: u32,
    limit: u32,
    first: u32,
    inputs: u32,
    sink: &mut S,
) -> Result<(), Stopped>
    requires base { 1 ≤ base }
    requires first { 1 ≤ first }
    requires small { first + inputs ≤ 1000000 }
    requires few { base + inputs * limit ≤ 1000000 }
    ensures { Fed S.goes S.stops (counter base limit 1 (up_from first inputs)) result sink.old sink.new }
{
    for place in 0..inputs {
        let input = Variable {
            number: first + place,
        };
        feed_input(base, limit, input, place, sink)?;
    }
    Ok(())
}
