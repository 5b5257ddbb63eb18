//! What can be wrong with a problem and with an answer.
ghost use Rattle.std.specs.Prelude.{◌≡◌};
ghost use Rattle.problem.specs.declared.fault.AnswerFault.TheVariants.{Document};
ghost use Rattle.problem.specs.declared.fault.ProblemFault.TheVariants.{Text};
ghost use Rattle.problem.specs.Refusal.{refusal, answer_refusal};

use text::fault::TextFault;

/// A fault of a problem; each has the line where it was noticed.
#[derive(Clone, Copy)]
pub enum ProblemFault {
    /// The text itself.
    Text(TextFault),
    /// A property unknown, repeated, missing or out of place.
    Property(usize),
    /// A bad value.
    Value(usize),
    /// A name and version given twice.
    Twice(usize),
    /// More rows than there is room for.
    TooMany(usize),
}

/// A fault of an answer.
#[derive(Clone, Copy)]
pub enum AnswerFault {
    /// A fault of the document, as a problem can have it.
    Document(ProblemFault),
    /// A stanza that the problem does not have, or that was given before, with its line.
    Unknown(usize),
}

impl ProblemFault {
    /// The line where it was noticed.
    pub fn place(self) -> usize
        ensures { result ≡ (refusal self).place }
    {
        match self {
            ProblemFault::Text(TextFault::Form(line))
            | ProblemFault::Property(line)
            | ProblemFault::Value(line)
            | ProblemFault::Twice(line)
            | ProblemFault::TooMany(line) => line,
        }
    }

    // No `From`: the number is one part of what is printed, and does not stand for the fault.
    /// The number of the refusal.
    pub fn number(self) -> u32
        ensures { result ≡ (refusal self).number }
    {
        match self {
            ProblemFault::Text(_) => 1,
            ProblemFault::Property(_) => 2,
            ProblemFault::Value(_) => 3,
            ProblemFault::Twice(_) => 4,
            ProblemFault::TooMany(_) => 31,
        }
    }
}

impl AnswerFault {
    /// The line where it was noticed.
    pub fn place(self) -> usize
        ensures { result ≡ (answer_refusal self).place }
    {
        match self {
            AnswerFault::Document(fault) => fault.place(),
            AnswerFault::Unknown(line) => line,
        }
    }

    /// The number of the refusal: all faults of form have one.
    pub fn number(self) -> u32
        ensures { result ≡ (answer_refusal self).number }
    {
        match self {
            AnswerFault::Document(ProblemFault::TooMany(_)) => 31,
            AnswerFault::Document(ProblemFault::Twice(_)) => 12,
            AnswerFault::Document(_) => 11,
            AnswerFault::Unknown(_) => 12,
        }
    }
}

// Each `from` is written by hand, since contracts say by its `from_gives` which fault `?` makes.
impl From<TextFault> for ProblemFault {
    ghost from_gives = { λ f r. r ≡ Text f };

    fn from(fault: TextFault) -> ProblemFault {
        ProblemFault::Text(fault)
    }
}

impl From<ProblemFault> for AnswerFault {
    ghost from_gives = { λ f r. r ≡ Document f };

    fn from(fault: ProblemFault) -> AnswerFault {
        AnswerFault::Document(fault)
    }
}

impl From<TextFault> for AnswerFault {
    ghost from_gives = { λ f r. r ≡ Document (Text f) };

    fn from(fault: TextFault) -> AnswerFault {
        AnswerFault::Document(ProblemFault::Text(fault))
    }
}
