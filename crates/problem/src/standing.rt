//! What an answer says of a package stanza.
ghost use Rattle.std.specs.Prelude.{◌≡◌, slice_index_or};
ghost use Rattle.problem.specs.Sets.{is_in, standing};
ghost use Rattle.problem.specs.declared.standing.Standing.TheVariants.{Unnamed};

/// Not named, named and not installed, or installed.
#[derive(Clone, Copy, PartialEq, Eq)]
pub enum Standing {
    Unnamed,
    Out,
    In,
}

// Written by hand, since contracts say by its `from_gives` what is made.
/// What is said of a stanza that is named, by whether it is installed.
impl From<bool> for Standing {
    ghost from_gives = { λ b s. s ≡ standing b };

    fn from(installed: bool) -> Standing {
        if installed {
            Standing::In
        } else {
            Standing::Out
        }
    }
}

impl Standing {
    /// Whether the stanza is installed.
    pub fn is_in(self) -> bool
        ensures { result ≡ is_in self }
    {
        self == Standing::In
    }
}

/// Whether the stanza at a place is in a set; one without a place is not.
pub(crate) fn is_chosen(set: &[Standing], place: usize) -> bool
    ensures { result ≡ is_in (slice_index_or set.now place Unnamed) }
{
    set.get(place).is_some_and(|standing| standing.is_in())
}
