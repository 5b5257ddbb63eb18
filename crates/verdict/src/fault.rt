//! What a run can be refused for.
ghost use Rattle.std.specs.Prelude.{◌≡◌};
ghost use Rattle.verdict.specs.Refusal.{refused, refused_run};
ghost use Rattle.verdict.specs.declared.fault.VerdictFault.TheVariants.{Problem, Answer, NoPlan, Session};

use crate::line::{File, Refusal};
use crate::outcome::{OpenFault, RunFault, SessionFault};
use problem::fault::{AnswerFault, ProblemFault};
use problem::plan_check::NotPlan;

/// A fault of a run; a fault from below is whole inside it.
#[derive(Clone, Copy)]
pub enum VerdictFault {
    /// A file that is too long.
    TooLong(File),
    Problem(ProblemFault),
    Answer(AnswerFault),
    /// The set is no plan.
    NoPlan(NotPlan),
    /// The session on the answer gives no verdict.
    Session(RunFault),
}

// Each `from` is written by hand, since contracts say by its `from_gives` which fault `?` makes.
impl From<ProblemFault> for VerdictFault {
    ghost from_gives = { λ f r. r ≡ Problem f };

    fn from(fault: ProblemFault) -> VerdictFault {
        VerdictFault::Problem(fault)
    }
}

impl From<AnswerFault> for VerdictFault {
    ghost from_gives = { λ f r. r ≡ Answer f };

    fn from(fault: AnswerFault) -> VerdictFault {
        VerdictFault::Answer(fault)
    }
}

impl From<NotPlan> for VerdictFault {
    ghost from_gives = { λ f r. r ≡ NoPlan f };

    fn from(fault: NotPlan) -> VerdictFault {
        VerdictFault::NoPlan(fault)
    }
}

impl From<RunFault> for VerdictFault {
    ghost from_gives = { λ f r. r ≡ Session f };

    fn from(fault: RunFault) -> VerdictFault {
        VerdictFault::Session(fault)
    }
}

impl VerdictFault {
    /// The file, the place and the number of a fault.
    pub fn refusal(self) -> Refusal
        ensures { result ≡ refused self }
    {
        self.into()
    }
}

impl From<VerdictFault> for Refusal {
    ghost from_gives = { λ f r. r ≡ refused f };

    /// The file, the place and the number of a fault.
    fn from(fault: VerdictFault) -> Refusal {
        match fault {
            VerdictFault::TooLong(file) => Refusal {
                file,
                place: 0,
                number: 34,
            },
            VerdictFault::Problem(fault) => Refusal {
                file: File::Problem,
                place: fault.place(),
                number: fault.number(),
            },
            VerdictFault::Answer(fault) => Refusal {
                file: File::Answer,
                place: fault.place(),
                number: fault.number(),
            },
            VerdictFault::NoPlan(fault) => Refusal {
                file: File::Answer,
                place: fault.clause as usize,
                number: 13,
            },
            VerdictFault::Session(fault) => refusal_of_run(fault),
        }
    }
}

/// The same for a fault of a session.
fn refusal_of_run(fault: RunFault) -> Refusal
    ensures { result ≡ refused_run fault }
{
    match fault {
        RunFault::Session(SessionFault::Opening(OpenFault::NotPlan(clause))) => Refusal {
            file: File::Answer,
            place: clause as usize,
            number: 13,
        },
        RunFault::Session(SessionFault::Opening(fault)) => Refusal {
            file: File::Certificate,
            place: 0,
            number: fault.number(),
        },
        RunFault::Session(SessionFault::Unclosed(place)) => Refusal {
            file: File::Certificate,
            place: place as usize,
            number: 25,
        },
        RunFault::Step(fault, place) => Refusal {
            file: File::Certificate,
            place: place as usize,
            number: fault.number(),
        },
    }
}
