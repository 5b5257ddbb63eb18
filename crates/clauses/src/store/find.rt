//! Clauses by their numbers.
ghost use Rattle.std.specs.Prelude.{ℕ, ◌<◌, ◌≤◌};
ghost use Rattle.clauses.specs.Finding.{Found, TakenOut};
ghost use Rattle.clauses.specs.Rows.{row_at};

use super::Store;

impl Store<'_> {
    /// How many rows have a lower number.
    fn lower(&self, number: u32) -> usize
        ensures within { result ≤ self.now.count }
        ensures below { (j : ℕ) → j < result → (row_at self.now.rows.now j).number < number }
        ensures above { (j : ℕ) → result ≤ j → j < self.now.count → number ≤ (row_at self.now.rows.now j).number }
    {
        self.rows[..self.count].partition_point(|row| row.number < number)
    }

    /// The row of the live clause with this number.
    pub(crate) fn find(&self, number: u32) -> Option<usize>
        ensures { Found self.now number result }
    {
        let k = self.lower(number);
        if k >= self.count {
            return None;
        }
        let row = self.rows[k];
        (row.number == number && row.live).then_some(k)
    }

    /// Takes the clause in row k out. Its row holds its place until the gaps are closed.
    pub(crate) fn take_out(&mut self, k: usize)
        requires { k < self.old.count }
        ensures { TakenOut self.old self.new k }
    {
        self.rows[k].live = false;
    }
}
