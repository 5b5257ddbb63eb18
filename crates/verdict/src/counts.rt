//! What a plan costs.
ghost use Rattle.std.specs.Prelude.{◌≡◌, ◌≤◌};
ghost use Rattle.problem.specs.Meaning.{problem_of};
ghost use Rattle.problem.specs.Sets.{set_of};
ghost use Rattle.verdict.specs.Counted.{counts_of};

use problem::counts::{changed_names, removed_names};
use problem::standing::Standing;
use problem::view::Problem;

/// How many names a plan removes, and how many it changes.
#[derive(Clone, Copy, PartialEq, Eq, Debug)]
pub struct Counts {
    pub removed: u32,
    pub changed: u32,
}

impl Counts {
    /// What a set costs.
    pub(crate) fn of(problem: &Problem<'_, '_, '_>, set: &[Standing]) -> Counts
        ensures count { result ≡ counts_of (problem_of problem.now) (set_of set.now) }
        ensures removed { result.removed ≤ 256 }
        ensures changed { result.changed ≤ 256 }
    {
        Counts {
            removed: removed_names(problem, set),
            changed: changed_names(problem, set),
        }
    }
}
