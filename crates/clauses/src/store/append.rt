//! A store with one more clause.
ghost use Rattle.std.specs.Prelude.{◌+◌, ◌^◌, ◌<◌, ◌≤◌, length};
ghost use Rattle.clauses.specs.Growth.{Copied, Pushed, Sealed, Speaks};
ghost use Rattle.clauses.specs.Rows.{Named, Under};

use super::Store;
use crate::row::Row;

impl Store<'_> {
    /// Copies literals behind those in use.
    #[tactic(auto, using(std::proofs::lemmas::Slice::overwrites))]
    fn copy_in(&mut self, clause: &[i32])
        requires { self.old.filled + length clause.now ≤ length self.old.literals.now }
        ensures { Copied self.old self.new clause.now }
    {
        let end = self.filled;
        self.literals[end..end + clause.len()].copy_from_slice(clause);
    }

    /// Takes so many literals more into use, as a clause.
    pub(super) fn seal(&mut self, number: u32, len: usize)
        requires row { self.old.count < length self.old.rows.now }
        requires literals { self.old.filled + len ≤ length self.old.literals.now }
        requires above { Under self.old.rows.now self.old.count number }
        requires next { number < self.old.next }
        requires named { Named self.old.literals.now (self.old.filled + len) self.old.variables }
        ensures { Sealed self.old self.new number len }
    {
        let at = self.count;
        let start = self.filled;
        self.rows[at] = Row {
            number,
            start: start as u32,
            len: len as u32,
            live: true,
        };
        self.count = at + 1;
        self.filled = start + len;
    }

    /// Adds a clause under the next number.
    pub(crate) fn push(&mut self, clause: &[i32])
        requires row { self.old.count < length self.old.rows.now }
        requires literals { self.old.filled + length clause.now ≤ length self.old.literals.now }
        requires number { self.old.next + 1 < 2 ^ 32 }
        requires speaks { Speaks clause.now self.old.variables }
        ensures { Pushed self.old self.new clause.now }
    {
        let number = self.next;
        self.copy_in(clause);
        self.next = number + 1;
        self.seal(number, clause.len());
    }
}
