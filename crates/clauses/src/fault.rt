//! Why a call of a clause base is refused, and what a hint says.
ghost use Rattle.std.specs.Prelude.{◌≡◌};
ghost use Rattle.clauses.specs.Numbers.{fault_number};

/// Why a call is refused.
#[derive(Clone, Copy, PartialEq, Eq, Debug)]
pub enum BaseFault {
    /// a literal 0, a variable above the base's, or a variable twice
    Malformed,
    /// no live clause has this number
    NotLive,
    /// the room, or the highest number, would be passed
    NoRoom,
    /// a trial stands in the way, or none is open
    InTrial,
}

/// What a hint says of its clause.
#[derive(Clone, Copy, PartialEq, Eq, Debug)]
pub enum Hinted {
    /// just one literal was unset, the others false: it is true now
    Unit,
    /// all literals are false: the trial is answered
    Conflict,
    /// neither
    Useless,
}

impl BaseFault {
    pub fn number(self) -> u32
        ensures { result ≡ fault_number self }
    {
        match self {
            BaseFault::Malformed => 22,
            BaseFault::NotLive => 23,
            BaseFault::NoRoom => 32,
            BaseFault::InTrial => 33,
        }
    }
}
