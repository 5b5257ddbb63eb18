//! One step tried on a clause base.
ghost use Rattle.std.specs.Prelude.{◌≡◌, ◌≤◌, length, option_map};
ghost use Rattle.clauses.specs.ClauseBase.{with_trial};
ghost use Rattle.certificate.specs.Stream.{add};
ghost use Rattle.certificate.specs.Reading.{step_in, memory_of, literals_in, hints_in};
ghost use Rattle.verdict.specs.Calls.{Tells, Follow, Tries, Tried};

use crate::reply::StepFault;
use certificate::found::Shape;
use clauses::base::ClauseBase;
use clauses::fault::{BaseFault, Hinted};

/// Whether the hints, all of them, are a chain from the trial's values; its conflict is at the last.
fn hints_show<B: ClauseBase>(base: &mut B, hints: &[u32]) -> Result<bool, BaseFault>
    ensures shown { Follow (B.meaning base.old).live (B.meaning base.old).trial hints.now result }
    ensures rest { B.meaning base.new ≡ with_trial (B.meaning base.old) (B.meaning base.new).trial }
{
    let mut rest = hints;
    while let Some((hint, later)) = rest.split_first() {
        match base.hint(*hint)? {
            Hinted::Unit => rest = later,
            Hinted::Conflict => return Ok(later.is_empty()),
            Hinted::Useless => return Ok(false),
        }
    }
    Ok(false)
}

/// Whether a clause follows from the clauses held, by these hints alone where there are any; the trial is over on every
/// way out.
pub fn follows<B: ClauseBase>(
    base: &mut B,
    clause: &[i32],
    hints: Option<&[u32]>,
) -> Result<bool, BaseFault>
    ensures { Tells (B.meaning base.old) clause.now (option_map (λ h. h.now) hints.entry) result (B.meaning base.new) }
{
    let mark = base.start(clause)?;
    let answer = match hints {
        None => base.run(),
        Some(hints) => hints_show(base, hints),
    };
    base.finish(mark);
    answer
}

/// Adds a clause that follows, and says whether it is empty.
fn try_add<B: ClauseBase>(
    base: &mut B,
    clause: &[i32],
    hints: Option<&[u32]>,
) -> Result<bool, StepFault>
    ensures { Tried (B.meaning base.old) (add clause.now (option_map (λ h. h.now) hints.entry)) result (B.meaning base.new) }
{
    if !follows(base, clause, hints)? {
        return Err(StepFault::NotShown);
    }
    base.add(clause)?;
    Ok(clause.is_empty())
}

/// Tries the step that stands in memory, and says whether it added the empty clause.
pub(crate) fn try_step<B: ClauseBase>(
    base: &mut B,
    shape: Shape,
    literals: &[i32],
    hints: &[u32],
) -> Result<bool, StepFault>
    requires { (literals_in shape ≤ length literals.now) × (hints_in shape ≤ length hints.now) }
    ensures { Tries (memory_of literals.now hints.now) (B.meaning base.old) (step_in shape literals.now hints.now) result (B.meaning base.new) }
{
    match shape {
        Shape::Delete(n) => {
            base.delete(n)?;
            Ok(false)
        }
        Shape::Add(n) => try_add(base, &literals[..n], None),
        Shape::AddHinted(n, k) => try_add(base, &literals[..n], Some(&hints[..k])),
    }
}
