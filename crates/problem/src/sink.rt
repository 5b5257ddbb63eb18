//! Where clauses go, one after the other.
ghost use Rattle.std.specs.Prelude.{List, ℤ, MatchResult};

/// A sink wants no more clauses.
#[derive(Clone, Copy, PartialEq, Eq, Debug)]
pub struct Stopped;

/// What takes clauses until it stops.
pub trait ClauseSink {
    /// From one state to the next, by a clause after which more are wanted.
    ghost goes: { Self → List ℤ → Self → Type 0 };

    /// The same for a clause after which none is.
    ghost stops: { Self → List ℤ → Self → Type 0 };

    fn take(&mut self, clause: &[i32]) -> Result<(), Stopped>
        ensures { MatchResult result (λ _. goes self.old clause.now self.new) (λ _. stops self.old clause.now self.new) };
}
