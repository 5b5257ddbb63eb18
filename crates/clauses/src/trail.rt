//! The literals that a run made true.
ghost use Rattle.std.specs.Prelude.{◌≡◌, ◌+◌, ◌<◌, length, slice_set};

/// The first `tail` literals, in the order in which they were made true.
// No `Rows`, which would make the places zero again after each run.
#[derive(Drop)]
pub struct Trail<'a> {
    pub literals: &'a mut [i32],
    pub tail: usize,
}

impl Trail<'_> {
    pub(crate) fn push(&mut self, literal: i32)
        requires { self.old.tail < length self.old.literals.now }
        ensures tail { self.new.tail ≡ self.old.tail + 1 }
        ensures literals { self.new.literals.now ≡ slice_set self.old.literals.now self.old.tail literal }
        ensures room { length self.new.literals.now ≡ length self.old.literals.now }
    {
        let at = self.tail;
        self.literals[at] = literal;
        self.tail = at + 1;
    }
}
