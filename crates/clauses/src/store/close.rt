//! Gaps that deletions left.
ghost use Rattle.std.specs.Prelude.{◌≡◌, ◌+◌, ◌<◌, ◌≤◌, length, take, drop};
ghost use Rattle.clauses.specs.Closing.{room_for, Closed, Spacious};
ghost use Rattle.clauses.specs.Growth.{Copied};

use super::Store;

impl Store<'_> {
    /// Copies literals from further up behind those in use.
    fn move_down(&mut self, from: usize, len: usize)
        requires from { self.old.filled ≤ from }
        requires within { from + len ≤ length self.old.literals.now }
        ensures { Copied self.old self.new (take len (drop from self.old.literals.now)) }
    {
        let end = self.filled;
        // Where there is no gap, each literal would be copied onto itself.
        if end == from {
            return;
        }
        self.literals.copy_within(from..from + len, end);
    }

    /// Closes the gaps: each row is live, and its literals follow those of the row before.
    pub(crate) fn close(&mut self)
        ensures { Closed self.old self.new }
    {
        let total = self.count;
        self.count = 0;
        self.filled = 0;
        for k in 0..total {
            let row = self.rows[k];
            if row.live {
                self.move_down(row.start as usize, row.len as usize);
                self.seal(row.number, row.len as usize);
            }
        }
    }

    // A `bool`: it answers a question, and what to refuse is for the caller to say.
    /// Whether one more clause of so many literals has room. Gaps are closed only where they are needed.
    pub(crate) fn make_room(&mut self, len: usize) -> bool
        ensures { Spacious self.old self.new len result }
    {
        if self.has_room(len) {
            return true;
        }
        self.close();
        self.has_room(len)
    }

    /// Whether there is room behind the rows and literals in use.
    fn has_room(&self, len: usize) -> bool
        ensures { result ≡ room_for self.now.count self.now.filled len self.now }
    {
        self.count < self.rows.len() && len <= self.literals.len() - self.filled
    }
}
