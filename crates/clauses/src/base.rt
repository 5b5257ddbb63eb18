//! What every clause base owes, by its meaning.
ghost use Rattle.std.specs.Prelude.{◌≡◌};
ghost use Rattle.clauses.specs.ClauseBase.{is_live, value_in, Meaning};
ghost use Rattle.clauses.specs.Calls.{Adds, Clears, Deletes, Finishes, Hints, Runs, Starts};

use crate::fault::{BaseFault, Hinted};
use crate::room::Room;

pub trait ClauseBase {
    /// Whoever starts a trial holds its mark, which only the trial's end takes back.
    type Mark;

    ghost meaning: { Self → Meaning };

    /// Empties the base, which then speaks of so many variables.
    fn clear(&mut self, variables: u32) -> Result<(), BaseFault>
        ensures { Clears (meaning self.old) variables result (meaning self.new) };

    /// Adds a clause under the next number.
    fn add(&mut self, clause: &[i32]) -> Result<u32, BaseFault>
        ensures { Adds (meaning self.old) clause.now result (meaning self.new) };

    /// Takes a live clause out.
    fn delete(&mut self, number: u32) -> Result<(), BaseFault>
        ensures { Deletes (meaning self.old) number result (meaning self.new) };

    /// Opens a trial: the clause's literals are false, all else is unset.
    fn start(&mut self, clause: &[i32]) -> Result<Self::Mark, BaseFault>
        ensures { Starts (meaning self.old) clause.now result (meaning self.new) };

    /// What a live clause says under the trial's values.
    fn hint(&mut self, number: u32) -> Result<Hinted, BaseFault>
        ensures { Hints (meaning self.old) number result (meaning self.new) };

    /// Whether a chain starts at the trial's values; the trial is then answered.
    fn run(&mut self) -> Result<bool, BaseFault>
        ensures { Runs (meaning self.old) result (meaning self.new) };

    /// Ends the trial.
    fn finish(&mut self, mark: Self::Mark)
        ensures { Finishes (meaning self.old) (meaning self.new) };

    /// How many variables the clauses may speak of.
    fn variables(&self) -> u32
        ensures { result ≡ (meaning self.now).variables };

    /// The number that the next clause gets.
    fn next_number(&self) -> u32
        ensures { result ≡ (meaning self.now).next };

    fn room(&self) -> Room
        ensures { result ≡ (meaning self.now).room };

    /// Whether a live clause has this number.
    fn is_live(&self, number: u32) -> bool
        ensures { result ≡ is_live (meaning self.now).live number };

    /// The value of a variable in an open trial.
    fn value(&self, variable: u32) -> Option<bool>
        ensures { result ≡ value_in (meaning self.now).trial variable };
}
