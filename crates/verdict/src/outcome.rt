//! What a session comes to.
ghost use Rattle.std.specs.Prelude.{◌≡◌};
ghost use Rattle.verdict.specs.Numbers.{open_number, session_number};
ghost use Rattle.verdict.specs.declared.outcome.OpenFault.TheVariants.{NotPlan};
ghost use Rattle.verdict.specs.declared.outcome.RunFault.TheVariants.{Session};
ghost use Rattle.verdict.specs.declared.outcome.SessionFault.TheVariants.{Opening};

use crate::counts::Counts;
use crate::reply::StepFault;
use problem::plan_check::NotPlan as Unplanned;

/// The verdict on a `Claim`.
// No `Option`: that there is no plan is a verdict too.
#[derive(Clone, Copy, PartialEq, Eq, Debug)]
pub enum Verdict {
    /// The plan has these counts, and no plan beats them.
    Optimal(Counts),
    /// There is no plan.
    Impossible,
}

/// Why an opening is refused.
#[derive(Clone, Copy, PartialEq, Eq, Debug)]
pub enum OpenFault {
    /// With the number of the first plan clause that the set makes false.
    NotPlan(u32),
    NoRoom,
    InTrial,
}

/// Why a session gives no verdict.
#[derive(Clone, Copy, PartialEq, Eq, Debug)]
pub enum SessionFault {
    Opening(OpenFault),
    /// With the place after the last step that was accepted.
    Unclosed(u64),
}

/// Why a run up to the first refusal gives no verdict.
#[derive(Clone, Copy, PartialEq, Eq, Debug)]
pub enum RunFault {
    Session(SessionFault),
    /// With the place of the step.
    Step(StepFault, u32),
}

// Each `from` is written by hand, since contracts say by its `from_gives` which fault `?` makes.
impl From<OpenFault> for SessionFault {
    ghost from_gives = { λ f r. r ≡ Opening f };

    fn from(fault: OpenFault) -> SessionFault {
        SessionFault::Opening(fault)
    }
}

impl From<SessionFault> for RunFault {
    ghost from_gives = { λ f r. r ≡ Session f };

    fn from(fault: SessionFault) -> RunFault {
        RunFault::Session(fault)
    }
}

impl From<OpenFault> for RunFault {
    ghost from_gives = { λ f r. r ≡ Session (Opening f) };

    fn from(fault: OpenFault) -> RunFault {
        RunFault::Session(fault.into())
    }
}

impl From<Unplanned> for OpenFault {
    ghost from_gives = { λ f r. r ≡ NotPlan f.clause };

    fn from(fault: Unplanned) -> OpenFault {
        OpenFault::NotPlan(fault.clause)
    }
}

impl OpenFault {
    // No `From`: the number is one part of what is printed, and does not stand for the fault.
    /// The number of the refusal.
    pub fn number(self) -> u32
        ensures { result ≡ open_number self }
    {
        match self {
            OpenFault::NotPlan(_) => 13,
            OpenFault::NoRoom => 32,
            OpenFault::InTrial => 33,
        }
    }
}

impl SessionFault {
    /// The number of the refusal.
    pub fn number(self) -> u32
        ensures { result ≡ session_number self }
    {
        match self {
            SessionFault::Opening(fault) => fault.number(),
            SessionFault::Unclosed(_) => 25,
        }
    }
}
