//! What a store holds.
ghost use Rattle.std.specs.Prelude.{◌≡◌, ◌<◌};
ghost use Rattle.clauses.specs.Rows.{row_at, span};
ghost use Rattle.clauses.specs.Stored.{Cleared};

use super::Store;

impl Store<'_> {
    /// The literals of the clause in row k.
    pub(crate) fn clause(&self, k: usize) -> &[i32]
        requires { k < self.now.count }
        ensures { result.now ≡ span self.now.literals.now (row_at self.now.rows.now k) }
    {
        let row = self.rows[k];
        let start = row.start as usize;
        let end = start + row.len as usize;
        &self.literals[start..end]
    }

    /// No clause, and so many variables.
    pub fn clear(&mut self, variables: u32)
        ensures { Cleared self.old self.new variables }
    {
        self.count = 0;
        self.filled = 0;
        self.variables = variables;
        self.next = 1;
    }
}
