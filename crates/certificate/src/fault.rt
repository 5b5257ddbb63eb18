//! Why a reading is refused.
ghost use Rattle.std.specs.Prelude.{◌≡◌};
ghost use Rattle.certificate.specs.Refusal.{refusal};

/// What cannot be read, with its place.
#[derive(Clone, Copy, PartialEq, Eq, Debug)]
pub enum SourceFault {
    /// The form of a step, or of the whole.
    Form(u32),
    /// More literals or hints than the memory holds.
    TooMany(u32),
}

impl SourceFault {
    /// The number of the refusal.
    pub fn number(self) -> u32
        ensures { result ≡ (refusal self).number }
    {
        match self {
            SourceFault::Form(_) => 21,
            SourceFault::TooMany(_) => 31,
        }
    }

    /// The place of the refusal.
    pub fn place(self) -> u32
        ensures { result ≡ (refusal self).place }
    {
        match self {
            SourceFault::Form(place) | SourceFault::TooMany(place) => place,
        }
    }
}
