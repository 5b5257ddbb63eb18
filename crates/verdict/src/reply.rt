//! What a session replies to one step that is asked of it.
ghost use Rattle.std.specs.Prelude.{◌≡◌};
ghost use Rattle.verdict.specs.Numbers.{step_number, of_base};

use clauses::fault::BaseFault;

/// Why a step is refused.
// A base refuses for fewer reasons: `BaseFault` is a type of its own, and `From` says which is which.
#[derive(Clone, Copy, PartialEq, Eq, Debug)]
pub enum StepFault {
    /// It cannot be read.
    Form,
    /// A literal 0, a variable above the last, or a variable twice.
    Malformed,
    /// It names a clause that is not live.
    NotLive,
    /// The live clauses do not bear it out.
    NotShown,
    /// More literals or hints than the memory holds.
    TooMany,
    /// The base has no room for it.
    NoRoom,
    /// A trial stands in the way.
    InTrial,
}

// No `Result`: a step that is refused is a reply like the others, and so is that none is left.
#[derive(Clone, Copy, PartialEq, Eq, Debug)]
pub enum Reply {
    Taken,
    /// With the place of the step.
    Refused(StepFault, u32),
    /// No step is left.
    Nothing,
}

impl StepFault {
    // No `From`: the number is one part of what is printed, and does not stand for the fault.
    /// The number of the refusal.
    pub fn number(self) -> u32
        ensures { result ≡ step_number self }
    {
        match self {
            StepFault::Form => 21,
            StepFault::Malformed => 22,
            StepFault::NotLive => 23,
            StepFault::NotShown => 24,
            StepFault::TooMany => 31,
            StepFault::NoRoom => 32,
            StepFault::InTrial => 33,
        }
    }
}

impl From<BaseFault> for StepFault {
    ghost from_gives = { λ f r. r ≡ of_base f };

    fn from(fault: BaseFault) -> StepFault {
        match fault {
            BaseFault::Malformed => StepFault::Malformed,
            BaseFault::NotLive => StepFault::NotLive,
            BaseFault::NoRoom => StepFault::NoRoom,
            BaseFault::InTrial => StepFault::InTrial,
        }
    }
}
